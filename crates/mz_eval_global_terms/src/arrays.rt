// Calls of globals whose arguments are arrays of integers.

ghost use Rattle.std.specs.Prelude.{◌*◌, ◌∷◌, [], IfOk, length};
ghost use Rattle.mz_core.specs.declared.types.Base.TheVariants as base;
ghost use Rattle.mz_globals.specs.declared.global.Global.TheVariants as global;
ghost use Rattle.mz_symbol.specs.Makes.{GoesOnBy};
ghost use Rattle.glob_nodes.specs.Arguments.{IsWhole, array_value};
ghost use Rattle.glob_nodes.specs.Rows.{IsRow, row_cost};
ghost use Rattle.mz_eval_global_terms.specs.Calls.{IsCall, call_room};

use crate::arguments::{numbers_in, two_in};
use glob_count::cardinality;
use glob_graph::{circuit, inverse};
use glob_nodes::Numbers;
use glob_order::{all_different, all_equal, different_but_zero, lex, ordered, sort};
use glob_sched::{diffn, disjunctive, disjunctive_strict, packing_load};
use mz_arena::Id;
use mz_base::Memory;
use mz_eval_cells::Known;
use mz_globals::Global;
use mz_symbol::Run;
use std::alloc::Global as Heap;

fn over_one(alloc: Heap, g: Global, xs: &Numbers, run: &mut Run) -> Result<Id, Memory>
    requires { IsWhole run.old xs.now }
    ensures goes { GoesOnBy (56 * row_cost g (length xs.now.items.items ∷ [])) run.old run.new }
    ensures row { IfOk result (IsRow base.Bool run.old run.new g (λ r. array_value r xs.now ∷ [])) }
{
    match g {
        Global::AllDifferent => all_different(run, xs),
        Global::DifferentButZero => different_but_zero(run, xs),
        Global::AllEqual => all_equal(run, xs),
        Global::Ordered(op) => ordered(run, op, xs),
        Global::Circuit => circuit(alloc, run, xs),
        _ => Err(Memory),
    }
}

/// A call of one array.
pub(crate) fn of_array(alloc: Heap, g: Global, a: &Known, run: &mut Run) -> Result<Id, Memory>
    ensures goes { GoesOnBy (call_room g (a.now ∷ [])) run.old run.new }
    ensures call { IfOk result (IsCall base.Bool g (a.now ∷ []) run.old run.new) }
{
    let xs = numbers_in(alloc, a, run)?;
    let id = over_one(alloc, g, &xs, run)?;
    Ok(id)
}

fn over_two(alloc: Heap, g: Global, xs: &Numbers, ys: &Numbers, run: &mut Run) -> Result<Id, Memory>
    requires first { IsWhole run.old xs.now }
    requires second { IsWhole run.old ys.now }
    ensures goes { GoesOnBy (56 * row_cost g (length xs.now.items.items ∷ length ys.now.items.items ∷ [])) run.old run.new }
    ensures row { IfOk result (IsRow base.Bool run.old run.new g (λ r. array_value r xs.now ∷ array_value r ys.now ∷ [])) }
{
    match g {
        Global::Lex { equal } => lex(run, equal, xs, ys),
        Global::Sort => sort(run, xs, ys),
        Global::Inverse => inverse(alloc, run, xs, ys),
        Global::Disjunctive => disjunctive(alloc, run, xs, ys),
        Global::DisjunctiveStrict => disjunctive_strict(alloc, run, xs, ys),
        _ => Err(Memory),
    }
}

/// A call of two arrays.
pub(crate) fn of_two_arrays(
    alloc: Heap,
    g: Global,
    a: &Known,
    b: &Known,
    run: &mut Run,
) -> Result<Id, Memory>
    ensures goes { GoesOnBy (call_room g (a.now ∷ b.now ∷ [])) run.old run.new }
    ensures call { IfOk result (IsCall base.Bool g (a.now ∷ b.now ∷ []) run.old run.new) }
{
    let p = two_in(alloc, a, b, run)?;
    let id = over_two(alloc, g, &p.0, &p.1, run)?;
    Ok(id)
}

fn over_three(
    alloc: Heap,
    g: Global,
    xs: &Numbers,
    ys: &Numbers,
    zs: &Numbers,
    run: &mut Run,
) -> Result<Id, Memory>
    requires first { IsWhole run.old xs.now }
    requires second { IsWhole run.old ys.now }
    requires third { IsWhole run.old zs.now }
    ensures goes { GoesOnBy (56 * row_cost g (length xs.now.items.items ∷ length ys.now.items.items ∷ length zs.now.items.items ∷ [])) run.old run.new }
    ensures row { IfOk result (IsRow base.Bool run.old run.new g (λ r. array_value r xs.now ∷ array_value r ys.now ∷ array_value r zs.now ∷ [])) }
{
    match g {
        Global::Cardinality => cardinality(alloc, run, xs, ys, zs),
        Global::PackingLoad => packing_load(alloc, run, xs, ys, zs),
        _ => Err(Memory),
    }
}

/// A call of three arrays.
pub(crate) fn of_three_arrays(
    alloc: Heap,
    g: Global,
    a: &Known,
    b: &Known,
    c: &Known,
    run: &mut Run,
) -> Result<Id, Memory>
    ensures goes { GoesOnBy (call_room g (a.now ∷ b.now ∷ c.now ∷ [])) run.old run.new }
    ensures call { IfOk result (IsCall base.Bool g (a.now ∷ b.now ∷ c.now ∷ []) run.old run.new) }
{
    let x = numbers_in(alloc, a, run)?;
    let p = two_in(alloc, b, c, run)?;
    let id = over_three(alloc, g, &x, &p.0, &p.1, run)?;
    Ok(id)
}

/// `diffn`.
pub(crate) fn of_boxes(
    alloc: Heap,
    a: &Known,
    b: &Known,
    c: &Known,
    d: &Known,
    run: &mut Run,
) -> Result<Id, Memory>
    ensures goes { GoesOnBy (call_room global.Diffn (a.now ∷ b.now ∷ c.now ∷ d.now ∷ [])) run.old run.new }
    ensures call { IfOk result (IsCall base.Bool global.Diffn (a.now ∷ b.now ∷ c.now ∷ d.now ∷ []) run.old run.new) }
{
    let p = two_in(alloc, a, b, run)?;
    let q = two_in(alloc, c, d, run)?;
    let id = diffn(alloc, run, &p.0, &p.1, &q.0, &q.1)?;
    Ok(id)
}
