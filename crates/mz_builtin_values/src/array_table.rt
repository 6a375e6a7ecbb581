// The rows: each is a call of its function.

ghost use Rattle.std.specs.Prelude.{◌≡◌, IfOk};
ghost use Rattle.std.specs.Option.{option_map};
ghost use Rattle.mz_value.specs.Contents.{content};
ghost use Rattle.mz_operations.specs.Arguments.{arguments};
ghost use Rattle.mz_operations.specs.Values.{bounding_value, made_value};

use crate::arrays::{concatenation, index_set, line, set_to_array, shaped};
use crate::asserted::{assert_array, assert_value, deopt};
use crate::by_bounds::{
    domain, fixed, is_fixed, lower_bound, lower_bound_of_array, upper_bound, upper_bound_of_array,
};
use crate::operations::{array_intersect, array_union, interval, set_operation, subset, superset};
use crate::texts::{append_texts, concatenated, joined, shown_int};
use mz_operations::{BoundingRow, MadeRow};
use mz_value::Value;
use std::alloc::{AllocError, Global};

/// What a row gives of these arguments, of which each is undefined or a value; `None` where it is
/// undefined.
pub fn made(
    alloc: Global,
    row: MadeRow,
    args: &[Option<Value>],
) -> Result<Option<Value>, AllocError>
    ensures { IfOk result (λ v. option_map content v ≡ made_value row (arguments args.now)) }
{
    match row {
        MadeRow::SetOf(op) => set_operation(alloc, op, args),
        MadeRow::Subset => subset(alloc, args),
        MadeRow::Superset => superset(alloc, args),
        MadeRow::UpTo => interval(alloc, args),
        MadeRow::IndexSet { place, dimensions } => index_set(alloc, place, dimensions, args),
        MadeRow::Line => line(alloc, args),
        MadeRow::Shaped(d) => shaped(alloc, d, args),
        MadeRow::Concat => concatenation(alloc, args),
        MadeRow::AppendTexts => append_texts(alloc, args),
        MadeRow::SetToArray => set_to_array(alloc, args),
        MadeRow::ArrayUnion => array_union(alloc, args),
        MadeRow::ArrayIntersect => array_intersect(alloc, args),
        MadeRow::Deopt => deopt(alloc, args),
        MadeRow::AssertValue => assert_value(alloc, args),
        MadeRow::AssertArray => assert_array(alloc, args),
        MadeRow::ShowInt => shown_int(alloc, args),
        MadeRow::Join => joined(alloc, args),
        MadeRow::ConcatTexts => concatenated(alloc, args),
    }
}

/// What a row that answers by bounds gives of these arguments, which are par: each is undefined or
/// a value. `None` where it is undefined.
pub fn bounding(
    alloc: Global,
    row: BoundingRow,
    args: &[Option<Value>],
) -> Result<Option<Value>, AllocError>
    ensures { IfOk result (λ v. option_map content v ≡ bounding_value row (arguments args.now)) }
{
    match row {
        BoundingRow::Lb => lower_bound(alloc, args),
        BoundingRow::Ub => upper_bound(alloc, args),
        BoundingRow::Dom => domain(alloc, args),
        BoundingRow::LbArray => lower_bound_of_array(alloc, args),
        BoundingRow::UbArray => upper_bound_of_array(alloc, args),
        BoundingRow::IsFixed => is_fixed(alloc, args),
        BoundingRow::Fix => fixed(alloc, args),
    }
}
