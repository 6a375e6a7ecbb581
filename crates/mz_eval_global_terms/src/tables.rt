// Calls of globals of par tables: `table` and `regular`.

ghost use Rattle.std.specs.Prelude.{◌≡◌, ◌≤◌, ◌*◌, ◌∷◌, [], IfOk, length, nat_abs, true};
ghost use Rattle.mz_core.specs.declared.types.Base.TheVariants as base;
ghost use Rattle.mz_globals.specs.declared.global.Global.TheVariants as global;
ghost use Rattle.mz_symbol.specs.Makes.{GoesOnBy};
ghost use Rattle.mz_eval_global_terms.specs.Calls.{IsAutomaton, IsCall, call_room};

use crate::arguments::{numbers_in, set_in};
use crate::par::{integer_in, is_undefined, size_in, table_in};
use glob_graph::{Automaton, Rows, regular, table};
use glob_nodes::truth;
use mz_arena::Id;
use mz_base::Memory;
use mz_eval_cells::Known;
use mz_symbol::Run;
use std::alloc::Global;

/// Whether a table has as many cells as its rows and these columns ask for.
fn fits(t: &Rows, columns: usize) -> bool
    ensures { result ≡ true → t.now.count * columns ≤ length t.now.cells.items }
{
    match t.count.checked_mul(columns) {
        None => false,
        Some(n) => n <= t.cells.len(),
    }
}

/// `table` of a table that is there.
fn of_rows(alloc: Global, a: &Known, b: &Known, run: &mut Run) -> Result<Id, Memory>
    ensures goes { GoesOnBy (call_room global.Table (a.now ∷ b.now ∷ [])) run.old run.new }
    ensures call { IfOk result (IsCall base.Bool global.Table (a.now ∷ b.now ∷ []) run.old run.new) }
{
    let t = table_in(alloc, b)?;
    let xs = numbers_in(alloc, a, run)?;
    if !fits(&t, xs.items.len()) {
        return Err(Memory);
    }
    let id = table(alloc, run, &xs, &t)?;
    Ok(id)
}

/// `table`; false where the table is undefined.
pub(crate) fn of_table(alloc: Global, a: &Known, b: &Known, run: &mut Run) -> Result<Id, Memory>
    ensures goes { GoesOnBy (call_room global.Table (a.now ∷ b.now ∷ [])) run.old run.new }
    ensures call { IfOk result (IsCall base.Bool global.Table (a.now ∷ b.now ∷ []) run.old run.new) }
{
    if is_undefined(b) {
        let id = truth(run, false)?;
        return Ok(id);
    }
    of_rows(alloc, a, b, run)
}

// ---- regular

/// Whether an automaton has no more steps than its states and letters ask for.
fn are_steps(t: &Rows, states: i64, letters: i64) -> bool
    ensures { result ≡ true → length t.now.cells.items ≤ nat_abs states * nat_abs letters }
{
    match states.unsigned_abs().checked_mul(letters.unsigned_abs()) {
        None => false,
        Some(n) => t.cells.len() as u64 <= n,
    }
}

/// An automaton with the node of the states that accept. Out of memory too where it has more steps
/// than its states and letters ask for.
fn automaton_in(
    alloc: Global,
    b: &Known,
    c: &Known,
    d: &Known,
    e: &Known,
    accepting: Id,
) -> Result<Automaton, Memory>
    ensures { IfOk result (IsAutomaton b.now c.now d.now e.now accepting) }
{
    let states = size_in(b)?;
    let letters = size_in(c)?;
    let steps = table_in(alloc, d)?;
    let start = integer_in(e)?;
    if !are_steps(&steps, states, letters) {
        return Err(Memory);
    }
    Ok(Automaton {
        states,
        letters,
        steps,
        start,
        accepting,
    })
}

/// `regular` of an automaton that is there.
fn of_automaton(
    alloc: Global,
    a: &Known,
    b: &Known,
    c: &Known,
    d: &Known,
    e: &Known,
    f: &Known,
    run: &mut Run,
) -> Result<Id, Memory>
    ensures goes { GoesOnBy (call_room global.Regular (a.now ∷ b.now ∷ c.now ∷ d.now ∷ e.now ∷ f.now ∷ [])) run.old run.new }
    ensures call { IfOk result (IsCall base.Bool global.Regular (a.now ∷ b.now ∷ c.now ∷ d.now ∷ e.now ∷ f.now ∷ []) run.old run.new) }
{
    let accepting = set_in(alloc, f, run)?;
    let m = automaton_in(alloc, b, c, d, e, accepting)?;
    let xs = numbers_in(alloc, a, run)?;
    let id = regular(run, &xs, &m)?;
    Ok(id)
}

/// `regular`; false where a par argument is undefined.
pub(crate) fn of_regular(
    alloc: Global,
    a: &Known,
    b: &Known,
    c: &Known,
    d: &Known,
    e: &Known,
    f: &Known,
    run: &mut Run,
) -> Result<Id, Memory>
    ensures goes { GoesOnBy (call_room global.Regular (a.now ∷ b.now ∷ c.now ∷ d.now ∷ e.now ∷ f.now ∷ [])) run.old run.new }
    ensures call { IfOk result (IsCall base.Bool global.Regular (a.now ∷ b.now ∷ c.now ∷ d.now ∷ e.now ∷ f.now ∷ []) run.old run.new) }
{
    if is_undefined(b) {
        let id = truth(run, false)?;
        return Ok(id);
    }
    if is_undefined(c) {
        let id = truth(run, false)?;
        return Ok(id);
    }
    if is_undefined(d) {
        let id = truth(run, false)?;
        return Ok(id);
    }
    if is_undefined(e) {
        let id = truth(run, false)?;
        return Ok(id);
    }
    of_automaton(alloc, a, b, c, d, e, f, run)
}
