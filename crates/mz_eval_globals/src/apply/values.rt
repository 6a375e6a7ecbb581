// What globals say of values: each is a call of its function.

ghost use Rattle.std.specs.Prelude.{◌≡◌, IfOk, true, false};
ghost use Rattle.std.specs.Option.{option_map};
ghost use Rattle.mz_value.specs.Contents.{content};
ghost use Rattle.mz_operations.specs.Arguments.{arguments};
ghost use Rattle.mz_globals.specs.Table.{line_of};
ghost use Rattle.mz_eval_globals.specs.Tells.{Tells, is_count};

use glob_count::of_values::{
    among_row, cardinality_row, channel_row, count_of_row, count_row, different_values_row,
    disjoint_row, link_row, partition_row, sliding_sum_row, times_row,
};
use glob_order::of_values::{
    all_different_row, all_equal_row, different_but_zero_row, extreme_row, lex_row, member_row,
    ordered_row, precede_row, sort_row,
};
use glob_sched::of_values::{
    circuit_row, cumulative_row, diffn_row, disjunctive_row, disjunctive_strict_row, element_row,
    inverse_row, packing_load_row, packing_row, regular_row, table_row,
};
use mz_globals::Global;
use mz_value::Value;
use std::alloc::{AllocError, Global as Heap};

/// Whether a constraint holds; of the function `count` nothing is told.
fn tells(alloc: Heap, g: Global, args: &[Option<Value>]) -> Result<bool, AllocError>
    ensures { IfOk result (λ b. Tells g (arguments args.now) b) }
{
    match g {
        Global::AllDifferent => all_different_row(alloc, args),
        Global::DifferentButZero => different_but_zero_row(alloc, args),
        Global::AllEqual => all_equal_row(alloc, args),
        Global::Ordered(op) => ordered_row(alloc, op, args),
        Global::Lex { equal } => lex_row(alloc, equal, args),
        Global::Sort => sort_row(alloc, args),
        Global::Precede => precede_row(alloc, args),
        Global::Extreme(side) => extreme_row(alloc, side, args),
        Global::Member => member_row(alloc, args),
        Global::CountOf => Ok(false),
        Global::Count => count_row(alloc, args),
        Global::Times(relation) => times_row(alloc, relation, args),
        Global::Among => among_row(alloc, args),
        Global::DifferentValues => different_values_row(alloc, args),
        Global::Cardinality => cardinality_row(alloc, args),
        Global::SlidingSum => sliding_sum_row(alloc, args),
        Global::Channel => channel_row(alloc, args),
        Global::Link => link_row(alloc, args),
        Global::Disjoint => disjoint_row(alloc, args),
        Global::Partition => partition_row(alloc, args),
        Global::Cumulative => cumulative_row(alloc, args),
        Global::Disjunctive => disjunctive_row(alloc, args),
        Global::DisjunctiveStrict => disjunctive_strict_row(alloc, args),
        Global::Diffn => diffn_row(alloc, args),
        Global::Packing => packing_row(alloc, args),
        Global::PackingLoad => packing_load_row(alloc, args),
        Global::Element => element_row(alloc, args),
        Global::Table => table_row(alloc, args),
        Global::Regular => regular_row(alloc, args),
        Global::Inverse => inverse_row(alloc, args),
        Global::Circuit => circuit_row(alloc, args),
    }
}

fn is_count(g: Global) -> bool
    ensures { result ≡ is_count g }
{
    match g {
        Global::CountOf => true,
        _ => false,
    }
}

#[tactic(auto, using(crate::proofs::Told::told))]
fn truth(alloc: Heap, g: Global, args: &[Option<Value>]) -> Result<Option<Value>, AllocError>
    requires { is_count g ≡ false }
    ensures { IfOk result (λ v. option_map content v ≡ (line_of g).value (arguments args.now)) }
{
    let holds = tells(alloc, g, args)?;
    Ok(Some(Value::Bool(holds)))
}

#[tactic(auto, using(crate::proofs::Told::is_count_of))]
fn count(alloc: Heap, g: Global, args: &[Option<Value>]) -> Result<Option<Value>, AllocError>
    requires { is_count g ≡ true }
    ensures { IfOk result (λ v. option_map content v ≡ (line_of g).value (arguments args.now)) }
{
    match count_of_row(alloc, args)? {
        None => Ok(None),
        Some(n) => Ok(Some(Value::Int(n))),
    }
}

/// What a call that isn't refused gives of these arguments, of which `None` is undefined: a truth
/// value, which is false where an argument is undefined; or the number of places that the function
/// `count` gives, `None` where an argument is undefined.
pub fn value(alloc: Heap, g: Global, args: &[Option<Value>]) -> Result<Option<Value>, AllocError>
    ensures { IfOk result (λ v. option_map content v ≡ (line_of g).value (arguments args.now)) }
{
    if is_count(g) {
        count(alloc, g, args)
    } else {
        truth(alloc, g, args)
    }
}
