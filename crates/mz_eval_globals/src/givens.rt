// What is known of a cell before solving.

ghost use Rattle.std.specs.Prelude.{◌≡◌, ◌++◌, [], IfOk, OnOk, map};
ghost use Rattle.mz_globals.specs.Givens as words;
ghost use Rattle.mz_eval_globals.specs.Views.{plain_given};
ghost use Rattle.mz_meaning.specs.Cells as cells;
ghost use Rattle.mz_meaning.specs.Globals.{given_in};
ghost use Rattle.mz_eval_cells.specs.Views.{cell_of, cells_of, known_bound, known_bounds};

use crate::apply::Given;
use mz_eval_cells::{Bound, Bounds, Known, bounds_in};
use std::alloc::{AllocError, Global};

fn push_ends(all: &mut Vec<(i64, i64)>, b: &Bound) -> Result<(), AllocError>
    ensures { OnOk result (all.new.items ≡ all.old.items ++ words.ends_in (known_bound b.now)) }
{
    match b {
        Bound::Number(lo, hi) => {
            all.push((*lo, *hi))?;
            Ok(())
        }
        Bound::Sets(_, _) => Ok(()),
    }
}

/// The bounds that are numbers.
fn ends_of_all(alloc: Global, bounds: &[Bound]) -> Result<Vec<(i64, i64)>, AllocError>
    ensures { IfOk result (λ es. es.items ≡ words.ends_in_all (map known_bound bounds.now)) }
{
    let mut all = Vec::new(alloc);
    for b in bounds {
        push_ends(&mut all, b)?;
    }
    Ok(all)
}

fn given_of_one(alloc: Global, b: &Bound) -> Result<Given, AllocError>
    ensures { IfOk result (λ g. plain_given g ≡ record { index = []; ends = words.ends_in (known_bound b.now) }) }
{
    let mut ends = Vec::new(alloc);
    push_ends(&mut ends, b)?;
    Ok(Given {
        index: Vec::new(alloc),
        ends,
    })
}

fn given_by(alloc: Global, bounds: &Bounds) -> Result<Given, AllocError>
    ensures { IfOk result (λ g. plain_given g ≡ words.given_by (known_bounds bounds.now)) }
{
    match bounds {
        Bounds::One(b) => given_of_one(alloc, b),
        Bounds::Many(index, all) => {
            let index = Vec::from_slice(alloc, index.as_slice())?;
            let ends = ends_of_all(alloc, all.as_slice())?;
            Ok(Given { index, ends })
        }
    }
}

/// What is known of a cell by its bounds.
fn given_by_cell(alloc: Global, k: &Known) -> Result<Given, AllocError>
    ensures { IfOk result (λ g. plain_given g ≡ words.given_by (cells.bounds_in (cell_of k.now))) }
{
    let bounds = bounds_in(alloc, k)?;
    given_by(alloc, &bounds)
}

fn nothing(alloc: Global) -> Given
    ensures { plain_given result ≡ words.unknown }
{
    Given {
        index: Vec::new(alloc),
        ends: Vec::new(alloc),
    }
}

fn given_in(alloc: Global, k: &Known) -> Result<Given, AllocError>
    ensures { IfOk result (λ g. plain_given g ≡ given_in (cell_of k.now)) }
{
    match k {
        Known::Undefined => Ok(nothing(alloc)),
        Known::One(_) => given_by_cell(alloc, k),
        Known::Array(_, _) => given_by_cell(alloc, k),
        Known::Var(_) => given_by_cell(alloc, k),
        Known::Row(_, _) => given_by_cell(alloc, k),
        Known::Unshaped(_) => Ok(nothing(alloc)),
    }
}

/// What is known of all arguments: of an undefined one, and of an array without a shape, nothing.
pub(crate) fn givens_in(alloc: Global, cells: &[Known]) -> Result<Vec<Given>, AllocError>
    ensures { IfOk result (λ gs. map plain_given gs.items ≡ map given_in (cells_of cells.now)) }
{
    let mut all = Vec::new(alloc);
    for k in cells {
        let given = given_in(alloc, k)?;
        all.push(given)?;
    }
    Ok(all)
}
