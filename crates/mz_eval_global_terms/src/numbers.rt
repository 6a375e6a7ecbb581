// Calls of globals whose arguments are integers and arrays of integers.

ghost use Rattle.std.specs.Prelude.{◌*◌, ◌∷◌, [], ℕ, IfOk, length};
ghost use Rattle.mz_core.specs.declared.types.Base.TheVariants as base;
ghost use Rattle.mz_globals.specs.declared.global.Global.TheVariants as global;
ghost use Rattle.mz_symbol.specs.Makes.{GoesOnBy};
ghost use Rattle.glob_nodes.specs.Arguments.{IsWhole, array_value, number_value};
ghost use Rattle.glob_nodes.specs.Rows.{IsRow, row_cost};
ghost use Rattle.mz_eval_global_terms.specs.Calls.{IsCall, call_room};

use crate::arguments::{number_in, numbers_in, two_in};
use glob_count::{count, count_of, different_values, times};
use glob_graph::element;
use glob_nodes::Numbers;
use glob_order::{extreme_is, member, precede};
use glob_sched::{cumulative, packing};
use mz_arena::Id;
use mz_base::Memory;
use mz_eval_cells::Known;
use mz_globals::Global;
use mz_symbol::Run;
use std::alloc::Global as Heap;

#[tactic(auto, unfolding(mz_globals::specs::Table::line_of))]
fn over_number_array(g: Global, m: Id, xs: &Numbers, run: &mut Run) -> Result<Id, Memory>
    requires { IsWhole run.old xs.now }
    ensures goes { (k : ℕ) → GoesOnBy (56 * row_cost g (k ∷ length xs.now.items.items ∷ [])) run.old run.new }
    ensures row { IfOk result (IsRow base.Bool run.old run.new g (λ r. number_value r m ∷ array_value r xs.now ∷ [])) }
{
    match g {
        Global::Extreme(side) => extreme_is(run, side, m, xs),
        Global::DifferentValues => different_values(run, m, xs),
        _ => Err(Memory),
    }
}

/// A call of an integer and an array.
pub(crate) fn of_number_array(
    alloc: Heap,
    g: Global,
    a: &Known,
    b: &Known,
    run: &mut Run,
) -> Result<Id, Memory>
    ensures goes { GoesOnBy (call_room g (a.now ∷ b.now ∷ [])) run.old run.new }
    ensures call { IfOk result (IsCall base.Bool g (a.now ∷ b.now ∷ []) run.old run.new) }
{
    let m = number_in(alloc, a, run)?;
    let xs = numbers_in(alloc, b, run)?;
    let id = over_number_array(g, m, &xs, run)?;
    Ok(id)
}

/// `member`.
pub(crate) fn of_member(alloc: Heap, a: &Known, b: &Known, run: &mut Run) -> Result<Id, Memory>
    ensures goes { GoesOnBy (call_room global.Member (a.now ∷ b.now ∷ [])) run.old run.new }
    ensures call { IfOk result (IsCall base.Bool global.Member (a.now ∷ b.now ∷ []) run.old run.new) }
{
    let y = number_in(alloc, b, run)?;
    let xs = numbers_in(alloc, a, run)?;
    let id = member(run, &xs, y)?;
    Ok(id)
}

/// The function `count`.
pub(crate) fn of_count(alloc: Heap, a: &Known, b: &Known, run: &mut Run) -> Result<Id, Memory>
    ensures goes { GoesOnBy (call_room global.CountOf (a.now ∷ b.now ∷ [])) run.old run.new }
    ensures call { IfOk result (IsCall base.Int global.CountOf (a.now ∷ b.now ∷ []) run.old run.new) }
{
    let y = number_in(alloc, b, run)?;
    let xs = numbers_in(alloc, a, run)?;
    let id = count_of(run, &xs, y)?;
    Ok(id)
}

/// `count` of three arguments.
pub(crate) fn of_counted(
    alloc: Heap,
    a: &Known,
    b: &Known,
    c: &Known,
    run: &mut Run,
) -> Result<Id, Memory>
    ensures goes { GoesOnBy (call_room global.Count (a.now ∷ b.now ∷ c.now ∷ [])) run.old run.new }
    ensures call { IfOk result (IsCall base.Bool global.Count (a.now ∷ b.now ∷ c.now ∷ []) run.old run.new) }
{
    let y = number_in(alloc, b, run)?;
    let n = number_in(alloc, c, run)?;
    let xs = numbers_in(alloc, a, run)?;
    let id = count(run, &xs, y, n)?;
    Ok(id)
}

#[tactic(auto, unfolding(mz_globals::specs::Table::line_of))]
fn over_number_array_number(
    alloc: Heap,
    g: Global,
    m: Id,
    xs: &Numbers,
    n: Id,
    run: &mut Run,
) -> Result<Id, Memory>
    requires { IsWhole run.old xs.now }
    ensures goes { (j k : ℕ) → GoesOnBy (56 * row_cost g (j ∷ length xs.now.items.items ∷ k ∷ [])) run.old run.new }
    ensures row { IfOk result (IsRow base.Bool run.old run.new g (λ r. number_value r m ∷ array_value r xs.now ∷ number_value r n ∷ [])) }
{
    match g {
        Global::Times(relation) => times(run, relation, m, xs, n),
        Global::Element => element(alloc, run, m, xs, n),
        _ => Err(Memory),
    }
}

/// A call of an integer, an array and an integer.
pub(crate) fn of_number_array_number(
    alloc: Heap,
    g: Global,
    a: &Known,
    b: &Known,
    c: &Known,
    run: &mut Run,
) -> Result<Id, Memory>
    ensures goes { GoesOnBy (call_room g (a.now ∷ b.now ∷ c.now ∷ [])) run.old run.new }
    ensures call { IfOk result (IsCall base.Bool g (a.now ∷ b.now ∷ c.now ∷ []) run.old run.new) }
{
    let m = number_in(alloc, a, run)?;
    let n = number_in(alloc, c, run)?;
    let xs = numbers_in(alloc, b, run)?;
    let id = over_number_array_number(alloc, g, m, &xs, n, run)?;
    Ok(id)
}

/// `value_precede`.
pub(crate) fn of_precede(
    alloc: Heap,
    a: &Known,
    b: &Known,
    c: &Known,
    run: &mut Run,
) -> Result<Id, Memory>
    ensures goes { GoesOnBy (call_room global.Precede (a.now ∷ b.now ∷ c.now ∷ [])) run.old run.new }
    ensures call { IfOk result (IsCall base.Bool global.Precede (a.now ∷ b.now ∷ c.now ∷ []) run.old run.new) }
{
    let s = number_in(alloc, a, run)?;
    let t = number_in(alloc, b, run)?;
    let xs = numbers_in(alloc, c, run)?;
    let id = precede(run, s, t, &xs)?;
    Ok(id)
}

/// `bin_packing`.
pub(crate) fn of_packing(
    alloc: Heap,
    a: &Known,
    b: &Known,
    c: &Known,
    run: &mut Run,
) -> Result<Id, Memory>
    ensures goes { GoesOnBy (call_room global.Packing (a.now ∷ b.now ∷ c.now ∷ [])) run.old run.new }
    ensures call { IfOk result (IsCall base.Bool global.Packing (a.now ∷ b.now ∷ c.now ∷ []) run.old run.new) }
{
    let most = number_in(alloc, a, run)?;
    let p = two_in(alloc, b, c, run)?;
    let id = packing(alloc, run, most, &p.0, &p.1)?;
    Ok(id)
}

/// `cumulative`.
pub(crate) fn of_cumulative(
    alloc: Heap,
    a: &Known,
    b: &Known,
    c: &Known,
    d: &Known,
    run: &mut Run,
) -> Result<Id, Memory>
    ensures goes { GoesOnBy (call_room global.Cumulative (a.now ∷ b.now ∷ c.now ∷ d.now ∷ [])) run.old run.new }
    ensures call { IfOk result (IsCall base.Bool global.Cumulative (a.now ∷ b.now ∷ c.now ∷ d.now ∷ []) run.old run.new) }
{
    let most = number_in(alloc, d, run)?;
    let x = numbers_in(alloc, a, run)?;
    let p = two_in(alloc, b, c, run)?;
    let id = cumulative(alloc, run, &x, &p.0, &p.1, most)?;
    Ok(id)
}
