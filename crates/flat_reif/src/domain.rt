// The domains of variables and choices.

ghost use Rattle.std.specs.Prelude.{◌≡◌, IfOk};
ghost use Rattle.fz_program.specs.Flat.{IsSome};
ghost use Rattle.flat_reif.specs.States.{free_domain, number_domain, written};

use fz_program::Domain;
use mz_arena::{Node, NodeKind};
use mz_base::Memory;
use mz_value::RangeSet;
use std::alloc::Global;

// A copy of a set, of the empty one {0}.
fn written(alloc: Global, u: &RangeSet) -> Result<RangeSet, Memory>
    ensures { IfOk result (λ s. s ≡ written u.now) }
{
    if u.ranges().is_empty() {
        Ok(RangeSet::range(alloc, 0, 0)?)
    } else {
        Ok(u.copy(alloc)?)
    }
}

// The domain of an integer with this set, or of a Boolean where the mark isn't 0.
fn number_domain(alloc: Global, mark: u64, u: &RangeSet) -> Result<Domain, Memory>
    ensures is { IfOk result (λ d. d ≡ number_domain mark u.now) }
    ensures some { IfOk result IsSome }
{
    if mark == 0 {
        Ok(Domain::Ints(given!(written(alloc, u))))
    } else {
        Ok(Domain::Bool)
    }
}

// The domain of a variable or a choice of the arena, of which this is the set.
pub(crate) fn free_domain(alloc: Global, n: &Node, u: &RangeSet) -> Result<Domain, Memory>
    ensures is { IfOk result (λ d. d ≡ free_domain n.now.kind n.now.c u.now) }
    ensures some { IfOk result IsSome }
{
    match n.kind {
        NodeKind::SetVar => Ok(Domain::SetOf(u.copy(alloc)?)),
        NodeKind::SetLocal => Ok(Domain::SetOf(u.copy(alloc)?)),
        _ => number_domain(alloc, n.c, u),
    }
}
