// Constants as arguments.

ghost use Rattle.std.specs.Prelude.{◌≡◌, [], IfOk, IfSome, false, map, pos};
ghost use Rattle.fz_program.specs.Arguments.{argument, bool, int, one, plain, set};
ghost use Rattle.flat_reif_rows.specs.NodeRows.{sum_inputs};
ghost use Rattle.flat_reif.specs.NodeKinds.{scalar};

use fz_program::Arg;
use mz_arena::{Node, NodeKind};
use mz_base::Memory;
use mz_interval::Interval;
use mz_value::RangeSet;
use std::alloc::Global;

// A number, or a truth value where the kind is that of Booleans.
pub(crate) fn scalar(n: &Node) -> Arg
    ensures { plain result ≡ scalar n.now.kind n.now.number }
{
    match n.kind {
        NodeKind::Bool => Arg::Bool(n.number == 1),
        _ => Arg::Int(n.number),
    }
}

pub(crate) fn set_argument(alloc: Global, u: &RangeSet) -> Result<Arg, Memory>
    ensures { IfOk result (λ a. plain a ≡ set u.now) }
{
    Ok(Arg::Set(u.copy(alloc)?))
}

pub(crate) fn zero() -> Arg
    ensures { plain result ≡ int (pos 0) }
{
    Arg::Int(0)
}

// The least integer of an interval.
pub(crate) fn least(range: Interval) -> Arg
    ensures { plain result ≡ int range.lo }
{
    Arg::Int(range.lo)
}

// The integer of an interval that has one alone.
pub(crate) fn alone(range: Interval) -> Option<Arg>
    ensures { IfSome result (λ a. (plain a ≡ int range.lo) × (range.lo ≡ range.hi)) }
{
    if range.lo == range.hi {
        Some(Arg::Int(range.lo))
    } else {
        None
    }
}

pub(crate) fn truth(b: bool) -> Arg
    ensures { plain result ≡ bool b }
{
    Arg::Bool(b)
}

pub(crate) fn falsity() -> Arg
    ensures { plain result ≡ bool false }
{
    Arg::Bool(false)
}

pub(crate) fn empty_set(alloc: Global) -> Result<Arg, Memory>
    ensures { IfOk result (λ a. plain a ≡ set []) }
{
    Ok(Arg::Set(RangeSet::range(alloc, 1, 0)?))
}

// The inputs of the sum of an integer and 0.
pub(crate) fn with_nothing(alloc: Global, a: Arg) -> Result<Vec<Arg>, Memory>
    ensures { IfOk result (λ all. map argument all.items ≡ sum_inputs (argument a) (one (int (pos 0)))) }
{
    let once = vec![in alloc; Arg::Int(1), Arg::Int(1)]?;
    let both = vec![in alloc; a, Arg::Int(0)]?;
    Ok(vec![in alloc; Arg::Array(once), Arg::Array(both), Arg::Int(0)]?)
}
