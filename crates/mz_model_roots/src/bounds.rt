// The bounds of a variable's domain.

ghost use Rattle.std.specs.Prelude.{◌≡◌, [], IfOk};
ghost use Rattle.mz_operations.specs.Bounds as bounds;
ghost use Rattle.mz_meaning.specs.Domains.{domain_bound};
ghost use Rattle.mz_symbol.specs.Symbols.{domain_of};
ghost use Rattle.mz_eval_cells.specs.Views.{known_bound};

use mz_builtin_arguments::end_of;
use mz_eval_cells::{Bound, is_set_base};
use mz_operations::Side;
use mz_symbol::Free;
use mz_value::RangeSet;
use std::alloc::{AllocError, Global};
use std::rc::Rc;

/// From the least to the greatest element, 0..0 of the empty set.
fn hull_of_set(s: &RangeSet) -> (i64, i64)
    ensures { result ≡ bounds.hull_of_set s.now }
{
    let least = end_of(Side::Least, s);
    let greatest = end_of(Side::Greatest, s);
    (least.unwrap_or(0), greatest.unwrap_or(0))
}

fn number_over(s: &RangeSet) -> Bound
    ensures { known_bound result ≡ bounds.number (bounds.hull_of_set s.now) }
{
    let hull = hull_of_set(s);
    Bound::Number(hull.0, hull.1)
}

fn at_most(alloc: Global, upper: &RangeSet) -> Result<Bound, AllocError>
    ensures { IfOk result (λ b. known_bound b ≡ bounds.sets [] upper.now) }
{
    let none = RangeSet::range(alloc, 1, 0)?;
    let least = Rc::new(alloc, none)?;
    let copy = upper.copy(alloc)?;
    let most = Rc::new(alloc, copy)?;
    Ok(Bound::Sets(least, most))
}

/// The bounds of a place: the hull of its numbers, or the empty set and the greatest one.
pub(crate) fn place_bound(alloc: Global, place: &Free) -> Result<Bound, AllocError>
    ensures { IfOk result (λ b. known_bound b ≡ domain_bound (domain_of place.now)) }
{
    if is_set_base(place.symbol.base) {
        at_most(alloc, &place.set)
    } else {
        Ok(number_over(&place.set))
    }
}
