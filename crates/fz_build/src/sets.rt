// The greatest sets of the sets that rows give.

ghost use Rattle.std.specs.Prelude.{◌≡◌, pos, [], IfOk, map};
ghost use Rattle.mz_operations.specs.Bounds.{combined_upper};
ghost use Rattle.mz_operations.specs.Sets.{intersection, is_within, union};
ghost use Rattle.fz_program.specs.Arguments.{argument, plain, plains};
ghost use Rattle.fz_program.specs.Flat.{variable};
ghost use Rattle.fz_build.specs.Bounds.{union_reached, union_with, upper_at, upper_of};

use crate::inputs::{empty_set, is_reached, upper_at, upper_of};
use fz_program::{Arg, FzVar};
use mz_base::Memory;
use mz_operations::SetOp;
use mz_value::RangeSet;
use std::alloc::Global;

fn united(alloc: Global, a: &RangeSet, b: &RangeSet) -> Result<RangeSet, Memory>
    ensures { IfOk result (λ s. s ≡ union a.now b.now) }
{
    let _first = a.ranges();
    let _second = b.ranges();
    Ok(a.union(alloc, b)?)
}

fn shared(alloc: Global, a: &RangeSet, b: &RangeSet) -> Result<RangeSet, Memory>
    ensures { IfOk result (λ s. s ≡ intersection a.now b.now) }
{
    let _first = a.ranges();
    let _second = b.ranges();
    Ok(a.intersect(alloc, b)?)
}

#[tactic(auto, unfolding(mz_operations::specs::Bounds::combined_upper))]
fn operated(alloc: Global, op: SetOp, a: RangeSet, b: RangeSet) -> Result<RangeSet, Memory>
    ensures { IfOk result (λ s. s ≡ combined_upper op a b) }
{
    match op {
        SetOp::Union => united(alloc, &a, &b),
        SetOp::Intersect => shared(alloc, &a, &b),
        SetOp::Diff => Ok(a),
        SetOp::Symdiff => united(alloc, &a, &b),
    }
}

// The greatest set that an operation gives of two inputs.
pub(crate) fn combined(
    alloc: Global,
    op: SetOp,
    vars: &[FzVar],
    inputs: &[Arg],
) -> Result<RangeSet, Memory>
    ensures { IfOk result (λ s. s ≡ combined_upper op (upper_at (map variable vars.now) (map argument inputs.now) 0) (upper_at (map variable vars.now) (map argument inputs.now) 1)) }
{
    let a = given!(upper_at(alloc, vars, inputs, 0));
    let b = given!(upper_at(alloc, vars, inputs, 1));
    operated(alloc, op, a, b)
}

// The union with the element at this place, where the index reaches the place.
fn with_reached(
    alloc: Global,
    vars: &[FzVar],
    index: (i64, i64),
    place: usize,
    acc: RangeSet,
    a: &Arg,
) -> Result<RangeSet, Memory>
    ensures { IfOk result (λ s. s ≡ union_with (is_within index (pos place)) acc (upper_of (map variable vars.now) (plain a.now))) }
{
    if is_reached(index, place) {
        let upper = given!(upper_of(alloc, vars, a));
        united(alloc, &acc, &upper)
    } else {
        Ok(acc)
    }
}

// The union of the elements at the places, from 1, that an index reaches.
#[tactic(auto, unfolding(crate::specs::Bounds::union_reached))]
pub(crate) fn union_reached(
    alloc: Global,
    vars: &[FzVar],
    index: (i64, i64),
    items: &[Arg],
) -> Result<RangeSet, Memory>
    ensures { IfOk result (λ s. s ≡ union_reached (map variable vars.now) index (pos 1) [] (plains items.now)) }
{
    let mut acc = given!(empty_set(alloc));
    let mut place: usize = 1;
    let mut rest = items;
    while let [a, more @ ..] = rest {
        acc = given!(with_reached(alloc, vars, index, place, acc, a));
        place += 1;
        rest = more;
    }
    Ok(acc)
}
