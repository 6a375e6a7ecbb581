// What calls of globals are refused for, and what they give.

ghost use Rattle.std.specs.Prelude.{◌≡◌, IfOk, length, map, pos};
ghost use Rattle.mz_globals.specs.Givens.{given_at};
ghost use Rattle.mz_globals.specs.Table as table;
ghost use Rattle.mz_eval_globals.specs.Views.{plain_given};
ghost use Rattle.mz_meaning.specs.Cells.{Bare, Par, Var};
ghost use Rattle.mz_meaning.specs.Globals as globals;
ghost use Rattle.mz_meaning.specs.Runs.{give};
ghost use Rattle.mz_operations.specs.Bounds as bounds;
ghost use Rattle.mz_eval_cells.specs.Meets.{Tells};
ghost use Rattle.mz_eval_cells.specs.Views.{cell_of, cells_of, known_bound};
ghost use Rattle.mz_eval_globals.specs.Bounds.{bound_by};
ghost use Rattle.mz_eval_globals.specs.Steps.{is_count, global_result_by, call_by};

use crate::apply::{Given, refusal_of, value};
use crate::givens::givens_in;
use mz_base::{Fault, Kind, Span, Stop};
use mz_eval_cells::{Bound, Known, all_par, known_of, var_value};
use mz_eval_row_cells::all_given;
use mz_globals::{Global, Refusal};
use std::alloc::{AllocError, Global as Heap};

/// A call's refusal at a place.
fn refused(refusal: Option<Refusal>, at: Span) -> Result<(), Stop>
    ensures { Tells (λ _. tt) result (globals.refused refusal at) }
{
    match refusal {
        None => Ok(()),
        Some(Refusal::Misfit) => Err(Stop::Refused(Fault::at(Kind::IndexMismatch, at))),
        Some(Refusal::Negative(n)) => Err(Stop::Refused(Fault {
            kind: Kind::NegativeArgument,
            span: at,
            number: n as i128,
        })),
        Some(Refusal::Outside(n)) => Err(Stop::Refused(Fault {
            kind: Kind::Bounds,
            span: at,
            number: n,
        })),
    }
}

fn is_count(g: Global) -> bool
    ensures { result ≡ is_count g }
{
    match g {
        Global::CountOf => true,
        _ => false,
    }
}

/// How many bounds of elements are known of the first argument.
fn first_length(gs: &[Given]) -> i64
    ensures { result ≡ pos (length (given_at (map plain_given gs.now) 0).ends) }
{
    match gs.first() {
        None => 0,
        Some(g) => g.ends.len() as i64,
    }
}

/// The bounds of a call's value.
#[tactic(auto, using(crate::proofs::Ends::ends_of_count, crate::proofs::Ends::ends_of_truth))]
fn global_ends(g: Global, gs: &[Given]) -> (i64, i64)
    ensures { result ≡ table.global_ends g (map plain_given gs.now) }
{
    if is_count(g) {
        (0, first_length(gs))
    } else {
        (0, 1)
    }
}

/// A call with par arguments.
fn par_result(alloc: Heap, g: Global, cells: Vec<Known>) -> Result<Known, AllocError>
    ensures { IfOk result (λ k. cell_of k ≡ Par (globals.global_value g (cells_of cells.items))) }
{
    let args = all_given(alloc, cells)?;
    let v = value(alloc, g, args.as_slice())?;
    known_of(alloc, v)
}

/// A call with a var argument, by what is known of its arguments.
fn var_result(alloc: Heap, g: Global, gs: &[Given]) -> Result<Known, AllocError>
    ensures { IfOk result (λ k. cell_of k ≡ Var (bounds.one (bounds.number (table.global_ends g (map plain_given gs.now)))) None) }
{
    let ends = global_ends(g, gs);
    var_value(alloc, Bound::Number(ends.0, ends.1))
}

fn global_result(
    alloc: Heap,
    g: Global,
    gs: &[Given],
    cells: Vec<Known>,
) -> Result<Known, AllocError>
    ensures { IfOk result (λ k. cell_of k ≡ global_result_by g (map plain_given gs.now) (cells_of cells.items)) }
{
    if all_par(cells.as_slice()) {
        par_result(alloc, g, cells)
    } else {
        var_result(alloc, g, gs)
    }
}

fn tested(g: Global, at: Span, gs: &[Given]) -> Result<(), Stop>
    ensures { Tells (λ _. tt) result (globals.refused (table.refusal_of g (map plain_given gs.now)) at) }
{
    refused(refusal_of(g, gs), at)
}

fn result_by(alloc: Heap, g: Global, gs: &[Given], cells: Vec<Known>) -> Result<Known, Stop>
    ensures { Tells cell_of result (give (global_result_by g (map plain_given gs.now) (cells_of cells.items))) }
{
    let k = global_result(alloc, g, gs, cells)?;
    Ok(k)
}

/// A call by what is known of its arguments.
fn call_by(alloc: Heap, g: Global, at: Span, gs: &[Given], cells: Vec<Known>) -> Result<Known, Stop>
    ensures { Tells cell_of result (call_by g (map plain_given gs.now) at (cells_of cells.items)) }
{
    tested(g, at, gs)?;
    result_by(alloc, g, gs, cells)
}

fn bound_by(g: Global, at: Span, gs: &[Given]) -> Result<Bound, Stop>
    ensures { Tells known_bound result (bound_by g (map plain_given gs.now) at) }
{
    tested(g, at, gs)?;
    let ends = global_ends(g, gs);
    Ok(Bound::Number(ends.0, ends.1))
}

/// The bounds of what a call of a global with a var argument gives. Refused for what `global_cell` is.
pub fn call_bound(alloc: Heap, g: Global, at: Span, cells: &[Known]) -> Result<Bound, Stop>
    ensures { Tells known_bound result (bound_by g (map globals.given_in (cells_of cells.now)) at) }
{
    let givens = givens_in(alloc, cells)?;
    bound_by(g, at, &givens)
}

/// What a call of a global gives of these arguments: a par value where all are par, and else what
/// has bounds alone.
///
/// Refused IndexMismatch where arrays that the global pairs differ in length, or a table or the
/// steps of an automaton have another shape than the other arguments say; NegativeArgument with the
/// first lower bound that may not be negative and is; Bounds with the first bound of a sum that
/// leaves -2^61..2^61. All are at `at`; an undefined argument and an array without a shape are no
/// cause of them.
pub fn global_cell(alloc: Heap, g: Global, at: Span, cells: Vec<Known>) -> Result<Known, Stop>
    ensures { Tells cell_of result (globals.global_cell Bare g at (cells_of cells.items)) }
{
    let givens = givens_in(alloc, cells.as_slice())?;
    call_by(alloc, g, at, &givens, cells)
}
