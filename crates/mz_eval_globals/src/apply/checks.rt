// What a call of each global costs and is refused for: the code's side of the table.

ghost use Rattle.std.specs.Prelude.{◌≡◌};
ghost use Rattle.mz_globals.specs.Table as table;
ghost use Rattle.mz_eval_globals.specs.Lines.{checked};

use mz_globals::{Checks, Cost, Fit, Global, Places, Sums};

fn from(first: u64, count: u64) -> Places
    ensures { result ≡ table.from first count }
{
    Places { first, count }
}

/// A call that is never refused.
fn checked(cost: Cost) -> Checks
    ensures { result ≡ checked cost }
{
    Checks {
        cost,
        fit: Fit::Free,
        nonnegative: from(0, 0),
        sums: Sums::Nothing,
        more_sums: Sums::Nothing,
    }
}

/// The costs and the tests of a global. Takes no memory.
#[tactic(auto, unfolding(mz_globals::specs::Table::line_of))]
pub fn checks_of(g: Global) -> Checks
    ensures { result ≡ (table.line_of g).checks }
{
    match g {
        Global::AllDifferent => checked(Cost::Pairs(from(0, 1))),
        Global::DifferentButZero => checked(Cost::Pairs(from(0, 1))),
        Global::AllEqual => checked(Cost::Elements(from(0, 1))),
        Global::Ordered(_) => checked(Cost::Elements(from(0, 1))),
        Global::Lex { .. } => checked(Cost::Elements(from(0, 2))),
        Global::Sort => checked(Cost::Pairs(from(0, 2))),
        Global::Precede => checked(Cost::Elements(from(2, 1))),
        Global::Extreme(_) => checked(Cost::Elements(from(1, 1))),
        Global::Member => checked(Cost::Elements(from(0, 1))),
        Global::CountOf => checked(Cost::Elements(from(0, 1))),
        Global::Count => checked(Cost::Elements(from(0, 1))),
        Global::Times(_) => checked(Cost::Elements(from(1, 1))),
        Global::Among => checked(Cost::Elements(from(1, 1))),
        Global::DifferentValues => checked(Cost::Pairs(from(1, 1))),
        Global::Cardinality => Checks {
            cost: Cost::Pairs(from(0, 3)),
            fit: Fit::Alike(from(1, 2)),
            nonnegative: from(0, 0),
            sums: Sums::Nothing,
            more_sums: Sums::Nothing,
        },
        Global::SlidingSum => Checks {
            cost: Cost::Pairs(from(3, 1)),
            fit: Fit::Free,
            nonnegative: from(2, 1),
            sums: Sums::Windows {
                length: 2,
                items: 3,
            },
            more_sums: Sums::Nothing,
        },
        Global::Channel => checked(Cost::Pairs(from(0, 2))),
        Global::Link => checked(Cost::Elements(from(1, 1))),
        Global::Disjoint => checked(Cost::Pairs(from(0, 1))),
        Global::Partition => checked(Cost::Pairs(from(0, 1))),
        Global::Cumulative => Checks {
            cost: Cost::Pairs(from(0, 3)),
            fit: Fit::Alike(from(0, 3)),
            nonnegative: from(1, 2),
            sums: Sums::Both(0, 1),
            more_sums: Sums::Whole(2),
        },
        Global::Disjunctive => Checks {
            cost: Cost::Pairs(from(0, 2)),
            fit: Fit::Alike(from(0, 2)),
            nonnegative: from(1, 1),
            sums: Sums::Both(0, 1),
            more_sums: Sums::Nothing,
        },
        Global::DisjunctiveStrict => Checks {
            cost: Cost::Pairs(from(0, 2)),
            fit: Fit::Alike(from(0, 2)),
            nonnegative: from(1, 1),
            sums: Sums::Both(0, 1),
            more_sums: Sums::Nothing,
        },
        Global::Diffn => Checks {
            cost: Cost::Pairs(from(0, 4)),
            fit: Fit::Alike(from(0, 4)),
            nonnegative: from(2, 2),
            sums: Sums::Both(0, 2),
            more_sums: Sums::Both(1, 3),
        },
        Global::Packing => Checks {
            cost: Cost::Pairs(from(1, 2)),
            fit: Fit::Alike(from(1, 2)),
            nonnegative: from(2, 1),
            sums: Sums::Whole(2),
            more_sums: Sums::Nothing,
        },
        Global::PackingLoad => Checks {
            cost: Cost::Pairs(from(0, 3)),
            fit: Fit::Alike(from(1, 2)),
            nonnegative: from(2, 1),
            sums: Sums::Whole(2),
            more_sums: Sums::Nothing,
        },
        Global::Element => checked(Cost::Elements(from(1, 1))),
        Global::Table => Checks {
            cost: Cost::Elements(from(0, 2)),
            fit: Fit::Columns,
            nonnegative: from(0, 0),
            sums: Sums::Nothing,
            more_sums: Sums::Nothing,
        },
        Global::Regular => Checks {
            cost: Cost::Steps,
            fit: Fit::Automaton,
            nonnegative: from(1, 2),
            sums: Sums::Nothing,
            more_sums: Sums::Nothing,
        },
        Global::Inverse => checked(Cost::Pairs(from(0, 2))),
        Global::Circuit => checked(Cost::Pairs(from(0, 1))),
    }
}
