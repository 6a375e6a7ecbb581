// Rows that give sets, or ask of sets.

ghost use Rattle.std.specs.Prelude.{◌≡◌, IfOk, None};
ghost use Rattle.std.specs.Option.{option_map};
ghost use Rattle.mz_value.specs.Contents.{content};
ghost use Rattle.mz_operations.specs.Arguments.{arguments};
ghost use Rattle.mz_operations.specs.Values.{common_so_far, made_value};
ghost use Rattle.mz_operations.specs.Views.{as_set};
ghost use Rattle.mz_operations.specs.Arrays.{fold_from};
ghost use Rattle.mz_operations.specs.Sets as sets;
ghost use Rattle.std.specs.Prelude.{map, []};

use crate::building::{bool_value, either, set_value};
use mz_builtin_arguments::{
    as_set, combined, element_at, enum_at, intersection, is_subset, items_at, pair, set_at, union,
    up_to,
};
use mz_operations::{MadeRow, SetOp};
use mz_value::{RangeSet, Value};
use std::alloc::{AllocError, Global};

/// The union of sets; `None` where an item is no set.
#[tactic(auto, using(crate::proofs::Turns::turn, crate::proofs::Turns::last))]
fn union_of(alloc: Global, items: &[Value]) -> Result<Option<RangeSet>, AllocError>
    ensures { IfOk result (λ s. s ≡ fold_from as_set sets.union [] (map content items.now)) }
{
    let mut acc = RangeSet::range(alloc, 1, 0)?;
    for x in items {
        let Some(s) = as_set(x) else {
            return Ok(None);
        };
        acc = union(alloc, &acc, s)?;
    }
    Ok(Some(acc))
}

/// What a set and the sets before it have in common.
#[tactic(auto, unfolding(mz_operations::specs::Values::common_so_far))]
fn common_with(
    alloc: Global,
    acc: Option<RangeSet>,
    s: &RangeSet,
) -> Result<Option<RangeSet>, AllocError>
    ensures { IfOk result (λ t. t ≡ common_so_far acc s.now) }
{
    match acc {
        None => {
            let first = s.copy(alloc)?;
            Ok(Some(first))
        }
        Some(a) => {
            let both = intersection(alloc, &a, s)?;
            Ok(Some(both))
        }
    }
}

/// What sets have in common, none of no set; `None` where an item is no set.
#[tactic(auto, using(crate::proofs::Turns::turn, crate::proofs::Turns::last))]
fn intersection_of(alloc: Global, items: &[Value]) -> Result<Option<Option<RangeSet>>, AllocError>
    ensures { IfOk result (λ s. s ≡ fold_from as_set common_so_far None (map content items.now)) }
{
    let mut acc = None;
    for x in items {
        let Some(s) = as_set(x) else {
            return Ok(None);
        };
        acc = common_with(alloc, acc, s)?;
    }
    Ok(Some(acc))
}

/// `union`, `intersect`, `diff` and `symdiff`.
#[tactic(auto, unfolding(mz_operations::specs::Values::made_value))]
pub(crate) fn set_operation(
    alloc: Global,
    op: SetOp,
    args: &[Option<Value>],
) -> Result<Option<Value>, AllocError>
    ensures { IfOk result (λ v. option_map content v ≡ made_value (MadeRow.SetOf op) (arguments args.now)) }
{
    let Some(a) = set_at(args, 0) else {
        return Ok(None);
    };
    let Some(b) = set_at(args, 1) else {
        return Ok(None);
    };
    let s = combined(alloc, op, a, b)?;
    let of = either(enum_at(args, 0), enum_at(args, 1));
    Ok(Some(set_value(of, s)))
}

/// `subset`.
#[tactic(auto, unfolding(mz_operations::specs::Values::made_value))]
pub(crate) fn subset(alloc: Global, args: &[Option<Value>]) -> Result<Option<Value>, AllocError>
    ensures { IfOk result (λ v. option_map content v ≡ made_value MadeRow.Subset (arguments args.now)) }
{
    let Some(a) = set_at(args, 0) else {
        return Ok(None);
    };
    let Some(b) = set_at(args, 1) else {
        return Ok(None);
    };
    let holds = is_subset(alloc, a, b)?;
    Ok(Some(bool_value(holds)))
}

/// `superset`.
#[tactic(auto, unfolding(mz_operations::specs::Values::made_value))]
pub(crate) fn superset(alloc: Global, args: &[Option<Value>]) -> Result<Option<Value>, AllocError>
    ensures { IfOk result (λ v. option_map content v ≡ made_value MadeRow.Superset (arguments args.now)) }
{
    let Some(a) = set_at(args, 0) else {
        return Ok(None);
    };
    let Some(b) = set_at(args, 1) else {
        return Ok(None);
    };
    let holds = is_subset(alloc, b, a)?;
    Ok(Some(bool_value(holds)))
}

/// `..`.
#[tactic(auto, unfolding(mz_operations::specs::Values::made_value))]
pub(crate) fn interval(alloc: Global, args: &[Option<Value>]) -> Result<Option<Value>, AllocError>
    ensures { IfOk result (λ v. option_map content v ≡ made_value MadeRow.UpTo (arguments args.now)) }
{
    let Some(_first) = element_at(args, 0) else {
        return Ok(None);
    };
    let Some(p) = pair(args) else {
        return Ok(None);
    };
    let Some(s) = up_to(alloc, p.0, p.1)? else {
        return Ok(None);
    };
    Ok(Some(set_value(enum_at(args, 0), s)))
}

/// `array_union`.
#[tactic(auto, unfolding(mz_operations::specs::Values::made_value))]
pub(crate) fn array_union(
    alloc: Global,
    args: &[Option<Value>],
) -> Result<Option<Value>, AllocError>
    ensures { IfOk result (λ v. option_map content v ≡ made_value MadeRow.ArrayUnion (arguments args.now)) }
{
    let Some(xs) = items_at(args, 0) else {
        return Ok(None);
    };
    let Some(s) = union_of(alloc, xs)? else {
        return Ok(None);
    };
    Ok(Some(set_value(None, s)))
}

/// `array_intersect`.
#[tactic(auto, unfolding(mz_operations::specs::Values::made_value))]
pub(crate) fn array_intersect(
    alloc: Global,
    args: &[Option<Value>],
) -> Result<Option<Value>, AllocError>
    ensures { IfOk result (λ v. option_map content v ≡ made_value MadeRow.ArrayIntersect (arguments args.now)) }
{
    let Some(xs) = items_at(args, 0) else {
        return Ok(None);
    };
    let Some(found) = intersection_of(alloc, xs)? else {
        return Ok(None);
    };
    let Some(s) = found else {
        return Ok(None);
    };
    Ok(Some(set_value(None, s)))
}
