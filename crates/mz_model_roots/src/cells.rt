// The cells that stand for the names of variables.

ghost use Rattle.std.specs.Prelude.{◌≡◌, None, IfOk};
ghost use Rattle.mz_meaning.specs.Cells.{Var};
ghost use Rattle.mz_meaning.specs.Domains.{Scalar, domains_bounds};
ghost use Rattle.mz_symbol.specs.Symbols.{domain_of};
ghost use Rattle.mz_symbol.specs.Makes.{GoesOn};
ghost use Rattle.mz_eval_cells.specs.Views.{cell_of, seen};
ghost use Rattle.mz_model_state.specs.Variables.{IsPlaceCell};
ghost use Rattle.mz_model_roots.specs.Placed.{Keeps};

use crate::bounds::place_bound;
use mz_base::Memory;
use mz_eval_cells::Known;
use mz_eval_symbols::cell_of_symbol;
use mz_symbol::{Free, Run};
use mz_symbol_rows::options::with_whole_value;
use std::alloc::Global;

/// The cell of a variable that is no array: it has the bounds of its domain, and the value of its
/// place, of which an option of a truth value has an integer node here. What this may cost is drawn
/// from the charges that are saved.
pub fn place_cell(alloc: Global, run: &mut Run, place: &Free) -> Result<Known, Memory>
    ensures goes { GoesOn run.old run.new }
    ensures keeps { IfOk result (λ _. Keeps run.old run.new) }
    ensures of { IfOk result (λ k. cell_of k ≡ Var (domains_bounds (Scalar (domain_of place.now))) None) }
    ensures seen { IfOk result (λ k. IsPlaceCell run.new (λ r. seen r k) place.now) }
{
    let bound = place_bound(alloc, place)?;
    let symbol = with_whole_value(run, place.symbol)?;
    let k = cell_of_symbol(alloc, bound, symbol)?;
    Ok(k)
}
