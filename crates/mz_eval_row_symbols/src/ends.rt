// The ends of rows of two arguments, told by those of the arguments, without a cell in between.

ghost use Rattle.std.specs.Prelude.{◌≡◌, ◌&&◌, ◌∷◌, [], List, MatchOption, pos, true};
ghost use Rattle.mz_operations.specs.declared.row.Row.TheVariants.{Scalar};
ghost use Rattle.mz_operations.specs.declared.row.ScalarRow.TheVariants as scalar;
ghost use Rattle.mz_operations.specs.Bounds as bounds;
ghost use Rattle.mz_meaning.specs.Cells.{bounds_in, is_par};
ghost use Rattle.mz_symbol.specs.Readings.{Reading};
ghost use Rattle.mz_eval_cells.specs.Views.{cell_of, item_content, known_bound, seen};
ghost use Rattle.mz_eval_row_symbols.specs.Ends.{AreEnds, HasEnds, HaveEnds};

use mz_eval_cells::{Bound, Item, Known, is_par};
use mz_operations::{Arith, Row, ScalarRow};
use mz_operations_bounds::{arith_ends, in_limit};

#[tactic(auto, unfolding(mz_operations::specs::Bounds::bounds_of, mz_operations::specs::Bounds::bound_of))]
fn ends_of_item(i: &Item) -> Option<(i64, i64)>
    ensures { MatchOption result (Unit {0}) (λ e. bounds.bounds_of (item_content i.now) ≡ bounds.one (bounds.number e)) }
{
    match i {
        Item::Int(n) => Some((*n, *n)),
        _ => None,
    }
}

fn ends_of_bound(b: &Bound) -> Option<(i64, i64)>
    ensures { MatchOption result (Unit {0}) (λ e. known_bound b.now ≡ bounds.number e) }
{
    match b {
        Bound::Number(low, high) => Some((*low, *high)),
        Bound::Sets(_, _) => None,
    }
}

/// The ends of the bounds of an integer, or of a var number.
fn ends_of(k: &Known) -> Option<(i64, i64)>
    ensures { MatchOption result (Unit {0}) (λ e. (r : Reading) → bounds_in (seen r k.now) ≡ bounds.one (bounds.number e)) }
{
    match k {
        Known::One(i) => ends_of_item(i),
        Known::Var(x) => ends_of_bound(&x.bound),
        _ => None,
    }
}

/// The ends of an operation on two numbers with these ends, where they lie in the limit.
#[tactic(auto, using(crate::proofs::EndLaws::arith_told))]
fn arith_of(op: Arith, e: (i64, i64), f: (i64, i64)) -> Option<(i64, i64)>
    ensures { MatchOption result (Unit {0}) (HaveEnds (scalar.Arith op) e f) }
{
    match in_limit(&arith_ends(op, &e, &f)) {
        None => None,
        Some(inside) => Some(inside),
    }
}

/// Whether the bounds of a row are those of a truth value, whatever its arguments are.
#[tactic(auto, unfolding(mz_operations::specs::RowBounds::scalar_bounds))]
fn is_truth_row(w: ScalarRow) -> bool
    ensures { result ≡ true → (bs : List bounds.Bounds) → AreEnds (Scalar w) bs (pos 0, pos 1) }
{
    match w {
        ScalarRow::Logic(_) => true,
        ScalarRow::Order(_) => true,
        ScalarRow::Equal => true,
        ScalarRow::Unequal => true,
        _ => false,
    }
}

/// The ends of a row of two numbers with these ends: of arithmetic where they lie in the limit, and of
/// connectives and comparisons. None of other rows.
pub(crate) fn row_ends(w: ScalarRow, e: (i64, i64), f: (i64, i64)) -> Option<(i64, i64)>
    ensures { MatchOption result (Unit {0}) (HaveEnds w e f) }
{
    match w {
        ScalarRow::Arith(op) => arith_of(op, e, f),
        _ => if is_truth_row(w) { Some((0, 1)) } else { None },
    }
}

fn ends_of_arith(op: Arith, a: &Known, b: &Known) -> Option<(i64, i64)>
    ensures { MatchOption result (Unit {0}) (λ e. (r : Reading) → AreEnds (Scalar (scalar.Arith op)) (bounds_in (seen r a.now) ∷ bounds_in (seen r b.now) ∷ []) e) }
{
    let Some(e) = ends_of(a) else {
        return None;
    };
    let Some(f) = ends_of(b) else {
        return None;
    };
    match arith_of(op, e, f) {
        None => None,
        Some(inside) => Some(inside),
    }
}

/// The ends of such a row, whether or not an argument is var.
fn ends_of_row(w: ScalarRow, a: &Known, b: &Known) -> Option<(i64, i64)>
    ensures { MatchOption result (Unit {0}) (λ e. (r : Reading) → AreEnds (Scalar w) (bounds_in (seen r a.now) ∷ bounds_in (seen r b.now) ∷ []) e) }
{
    match w {
        ScalarRow::Arith(op) => ends_of_arith(op, a, b),
        _ => if is_truth_row(w) { Some((0, 1)) } else { None },
    }
}

fn are_par(a: &Known, b: &Known) -> bool
    ensures { result ≡ (is_par (cell_of a.now) && is_par (cell_of b.now)) }
{
    is_par(a) && is_par(b)
}

/// The ends of a row of two arguments, of which one is var: of arithmetic where they lie in the limit,
/// of connectives and comparisons those of a truth value. None of other rows, and where an argument
/// is no number.
pub fn ends_of_two(row: Row, a: &Known, b: &Known) -> Option<(i64, i64)>
    ensures { MatchOption result (Unit {0}) (λ e. (r : Reading) → HasEnds row (seen r a.now ∷ seen r b.now ∷ []) e) }
{
    if are_par(a, b) {
        return None;
    }
    match row {
        Row::Scalar(w) => ends_of_row(w, a, b),
        _ => None,
    }
}
