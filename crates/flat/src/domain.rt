// The domains of the model's variables.

ghost use Rattle.std.specs.Prelude.{◌≡◌, IfOk};
ghost use Rattle.mz_instance.specs.Parts.{base_of, sort_of};
ghost use Rattle.flat_meaning.specs.Front.{domain_by, written_set};

use fz_program::Domain;
use mz_base::Memory;
use mz_value::{RangeSet, ShapeBase};
use std::alloc::Global;

// A copy of a set, of the empty one 0..0.
fn written_set(alloc: Global, u: &RangeSet) -> Result<RangeSet, Memory>
    ensures { IfOk result (λ s. s ≡ written_set u.now) }
{
    if u.ranges().is_empty() {
        Ok(RangeSet::range(alloc, 0, 0)?)
    } else {
        Ok(u.copy(alloc)?)
    }
}

// Integers of a set.
fn integers(alloc: Global, u: &RangeSet) -> Result<Domain, Memory>
    ensures { IfOk result (λ d. d ≡ Domain.Ints (written_set u.now)) }
{
    Ok(Domain::Ints(given!(written_set(alloc, u))))
}

// Subsets of a set.
fn subsets(alloc: Global, u: &RangeSet) -> Result<Domain, Memory>
    ensures { IfOk result (λ d. d ≡ Domain.SetOf u.now) }
{
    Ok(Domain::SetOf(u.copy(alloc)?))
}

/// The domain of values of a base, of which this is the set.
pub(crate) fn value_domain(alloc: Global, base: &ShapeBase, u: &RangeSet) -> Result<Domain, Memory>
    ensures { IfOk result (λ d. d ≡ domain_by (sort_of (base_of base.now)) u.now) }
{
    match base {
        ShapeBase::Bool => Ok(Domain::Bool),
        ShapeBase::Int => integers(alloc, u),
        ShapeBase::Enum(_) => integers(alloc, u),
        ShapeBase::SetInt => subsets(alloc, u),
        ShapeBase::SetEnum(_) => subsets(alloc, u),
    }
}
