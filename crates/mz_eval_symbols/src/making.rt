// The cells of symbols and of lines.

ghost use Rattle.std.specs.Prelude.{◌≡◌, IfOk, None, map};
ghost use Rattle.mz_arena.specs.Values.{is_true};
ghost use Rattle.mz_operations.specs.Bounds as bounds;
ghost use Rattle.mz_meaning.specs.Cells.{Var, held};
ghost use Rattle.mz_symbol.specs.Readings.{Reading};
ghost use Rattle.mz_symbol_rows.specs.RowValues.{argument};
ghost use Rattle.mz_symbol_arrays.specs.LineValues.{array_argument};
ghost use Rattle.mz_eval_cells.specs.Views.{cell_of, known_bound, seen, truth_by};

use mz_arena::Id;
use mz_eval_cells::{Bound, Known, Origin, Origins, row_of, var_of};
use mz_symbol::Symbol;
use std::alloc::{AllocError, Global};
use std::rc::Rc;

/// The var cell of a symbol, with these bounds. A Boolean that is no option is false in place of
/// undefined.
pub fn cell_of_symbol(alloc: Global, bound: Bound, symbol: Symbol) -> Result<Known, AllocError>
    ensures of { IfOk result (λ k. cell_of k ≡ Var (bounds.one (known_bound bound)) None) }
    ensures seen { IfOk result (λ k. (r : Reading) → seen r k ≡ Var (bounds.one (known_bound bound)) (argument r symbol)) }
{
    var_of(alloc, bound, Origin::Symbol(symbol))
}

/// The var cell of a Boolean that may be undefined: it is true where the first node is true; else
/// false where the second is true, and undefined elsewhere.
pub fn cell_of_truth(alloc: Global, bound: Bound, yes: Id, defined: Id) -> Result<Known, AllocError>
    ensures of { IfOk result (λ k. cell_of k ≡ Var (bounds.one (known_bound bound)) None) }
    ensures seen { IfOk result (λ k. (r : Reading) → seen r k
        ≡ Var (bounds.one (known_bound bound)) (held r.mode (truth_by (is_true (r.term yes)) (is_true (r.term defined))))) }
{
    var_of(alloc, bound, Origin::Truth(yes, defined))
}

/// The var array of a line, with these index ranges and its elements' bounds.
#[tactic(auto, using(crate::proofs::Arrays::array_told))]
pub fn cell_of_line(
    alloc: Global,
    index: Rc<Vec<(i64, i64)>>,
    all: Rc<Vec<Bound>>,
    line: u64,
) -> Result<Known, AllocError>
    ensures of { IfOk result (λ k. cell_of k ≡ Var (bounds.many index.value.items (map known_bound all.value.items)) None) }
    ensures seen { IfOk result (λ k. (r : Reading) → seen r k
        ≡ Var (bounds.many index.value.items (map known_bound all.value.items)) (array_argument r index.value.items line)) }
{
    row_of(alloc, index, all, Origins::Line(line))
}
