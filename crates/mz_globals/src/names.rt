// The globals by their places in the list of the language's globals.

ghost use Rattle.std.specs.Prelude.{◌≡◌, map};
ghost use Rattle.std.specs.Option.{option_map};
ghost use Rattle.mz_globals.specs.Names as definition;
ghost use Rattle.mz_globals.specs.Names.{plain_named};

use crate::global::{Global, Relation};
use mz_operations::{Comparison, Side};

/// A name of the language, with the number of its arguments, and its global.
#[derive(Clone, Copy)]
pub struct NamedGlobal {
    pub name: &'static str,
    pub arguments: u64,
    pub global: Global,
}

// A line has the name, the number of arguments and the global.
macro_rules! named {
    ($($name:literal $arguments:literal $global:expr;)*) => {
        &[$(NamedGlobal {
            name: $name,
            arguments: $arguments,
            global: $global,
        }),*]
    };
}

#[tactic(auto, unfolding(crate::specs::Names::globals))]
fn globals() -> &'static [NamedGlobal]
    ensures { map plain_named result.now ≡ definition.globals }
{
    named! {
        // order
        "all_different" 1 Global::AllDifferent;
        "alldifferent" 1 Global::AllDifferent;
        "alldifferent_except_0" 1 Global::DifferentButZero;
        "all_equal" 1 Global::AllEqual;
        "increasing" 1 Global::Ordered(Comparison::AtMost);
        "decreasing" 1 Global::Ordered(Comparison::AtLeast);
        "strictly_increasing" 1 Global::Ordered(Comparison::Less);
        "strictly_decreasing" 1 Global::Ordered(Comparison::Greater);
        "lex_less" 2 Global::Lex { equal: false };
        "lex_lesseq" 2 Global::Lex { equal: true };
        "sort" 2 Global::Sort;
        "value_precede" 3 Global::Precede;
        "maximum" 2 Global::Extreme(Side::Greatest);
        "minimum" 2 Global::Extreme(Side::Least);
        "member" 2 Global::Member;
        // counting
        "count" 2 Global::CountOf;
        "count" 3 Global::Count;
        "at_least" 3 Global::Times(Relation::AtLeast);
        "at_most" 3 Global::Times(Relation::AtMost);
        "exactly" 3 Global::Times(Relation::Exactly);
        "among" 3 Global::Among;
        "nvalue" 2 Global::DifferentValues;
        "global_cardinality" 3 Global::Cardinality;
        "sliding_sum" 4 Global::SlidingSum;
        "int_set_channel" 2 Global::Channel;
        "link_set_to_booleans" 2 Global::Link;
        "all_disjoint" 1 Global::Disjoint;
        "partition_set" 2 Global::Partition;
        // scheduling
        "cumulative" 4 Global::Cumulative;
        "disjunctive" 2 Global::Disjunctive;
        "disjunctive_strict" 2 Global::DisjunctiveStrict;
        "diffn" 4 Global::Diffn;
        "bin_packing" 3 Global::Packing;
        "bin_packing_load" 3 Global::PackingLoad;
        // tables, automata, graphs
        "element" 3 Global::Element;
        "table" 2 Global::Table;
        "regular" 6 Global::Regular;
        "inverse" 2 Global::Inverse;
        "circuit" 1 Global::Circuit;
    }
}

#[tactic(auto, unfolding(crate::specs::Names::named_at))]
fn named_at(place: u32) -> Option<NamedGlobal>
    ensures { option_map plain_named result ≡ definition.named_at place }
{
    globals().get(place as usize).copied()
}

/// The global at a place of the list of globals, from 0, as the table of built-ins tells it of a
/// call; `None` of a place behind the last. Takes no memory.
pub fn global_at(place: u32) -> Option<Global>
    ensures { result ≡ definition.global_at place }
{
    let named = named_at(place)?;
    Some(named.global)
}
