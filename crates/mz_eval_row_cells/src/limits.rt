// The limit of the bounds of var cells.

ghost use Rattle.std.specs.Prelude.{◌≡◌, None, IfOk};
ghost use Rattle.mz_base.specs.declared.kind.Kind.TheVariants as kind;
ghost use Rattle.mz_operations.specs.Bounds as bounds;
ghost use Rattle.mz_operations.specs.RowBounds.{as_ends};
ghost use Rattle.mz_meaning.specs.Runs.{fault};
ghost use Rattle.mz_meaning.specs.Cells.{Var};
ghost use Rattle.mz_eval_row_bounds.specs.Arguments.{numbers};
ghost use Rattle.mz_eval_cells.specs.Views.{cell_of, known_bound, known_bounds};
ghost use Rattle.mz_eval_cells.specs.Meets.{Tells};
ghost use Rattle.mz_eval_row_cells.specs.Steps.{var_of};
ghost use Rattle.mz_eval_row_cells.specs.Steps as steps;

use mz_base::{Fault, Kind, Span, Stop};
use mz_builtin_arguments::is_number;
use mz_eval_cells::{Bound, Bounds, Known, var_cell, var_value};
use mz_operations_bounds::in_limit;
use std::alloc::{AllocError, Global};

/// The end that leaves the limit, the lower one first.
fn first_outside(e: &(i128, i128)) -> i128
    ensures { result ≡ steps.first_outside e.now }
{
    if is_number(e.0) { e.1 } else { e.0 }
}

fn outside(at: Span, e: &(i128, i128)) -> Fault
    ensures { result ≡ fault kind.Bounds at (steps.first_outside e.now) }
{
    Fault {
        kind: Kind::Bounds,
        span: at,
        number: first_outside(e),
    }
}

fn number_bound(e: (i64, i64)) -> Bound
    ensures { known_bound result ≡ bounds.number e }
{
    Bound::Number(e.0, e.1)
}

fn number_cell(alloc: Global, e: (i64, i64)) -> Result<Known, AllocError>
    ensures { IfOk result (λ k. cell_of k ≡ Var (numbers e) None) }
{
    var_value(alloc, number_bound(e))
}

/// The var cell of a number with these bounds. Refused Bounds where an end leaves the limit, with
/// this end, the lower one first.
pub(crate) fn var_number(alloc: Global, at: Span, e: &(i128, i128)) -> Result<Known, Stop>
    ensures { Tells cell_of result (var_of at (numbers e.now)) }
{
    match in_limit(e) {
        Some(inside) => Ok(number_cell(alloc, inside)?),
        None => Err(Stop::Refused(outside(at, e))),
    }
}

fn ends_of(b: &Bounds) -> Option<(i128, i128)>
    ensures { result ≡ steps.ends_of (known_bounds b.now) }
{
    match b {
        Bounds::One(bound) => ends_of_bound(bound),
        Bounds::Many(_, _) => None,
    }
}

fn ends_of_bound(b: &Bound) -> Option<(i128, i128)>
    ensures { result ≡ as_ends (known_bound b.now) }
{
    match b {
        Bound::Number(low, high) => Some((*low as i128, *high as i128)),
        Bound::Sets(_, _) => None,
    }
}

/// The var cell with these bounds. Refused Bounds where they are a number's and an end leaves the
/// limit, with this end, the lower one first.
pub(crate) fn var_of(alloc: Global, at: Span, b: Bounds) -> Result<Known, Stop>
    ensures { Tells cell_of result (var_of at (known_bounds b)) }
{
    let ends = ends_of(&b);
    match ends {
        Some(e) => var_number(alloc, at, &e),
        None => Ok(var_cell(alloc, b)?),
    }
}
