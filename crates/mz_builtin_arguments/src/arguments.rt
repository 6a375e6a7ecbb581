// The arguments of a row: what each is, where it is there, defined, and of a kind.

ghost use Rattle.std.specs.Prelude.{◌≡◌, map};
ghost use Rattle.std.specs.Option.{option_map};
ghost use Rattle.mz_value.specs.Contents.{content, text_bytes};
ghost use Rattle.mz_operations.specs.Arguments.{arguments, at};
ghost use Rattle.mz_operations.specs.Arguments as place;

use crate::view;
use mz_value::{RangeSet, TextValue, Value};

/// The argument at this place, from 0; `None` where it is undefined or there is none.
#[tactic(auto, unfolding(mz_operations::specs::Arguments::at))]
pub fn argument(args: &[Option<Value>], k: usize) -> Option<&Value>
    ensures { option_map (λ v. content v.now) result ≡ at (arguments args.now) k }
{
    if k < args.len() {
        args[k].as_ref()
    } else {
        None
    }
}

/// The truth value at this place.
#[tactic(auto, unfolding(mz_operations::specs::Arguments::bool_at))]
pub fn bool_at(args: &[Option<Value>], k: usize) -> Option<bool>
    ensures { result ≡ place.bool_at (arguments args.now) k }
{
    let v = argument(args, k)?;
    view::as_bool(v)
}

/// The integer at this place.
#[tactic(auto, unfolding(mz_operations::specs::Arguments::int_at))]
pub fn int_at(args: &[Option<Value>], k: usize) -> Option<i64>
    ensures { result ≡ place.int_at (arguments args.now) k }
{
    let v = argument(args, k)?;
    view::as_int(v)
}

/// The case at this place: its enum's number, and its own.
#[tactic(auto, unfolding(mz_operations::specs::Arguments::case_at))]
pub fn case_at(args: &[Option<Value>], k: usize) -> Option<(u64, i64)>
    ensures { result ≡ place.case_at (arguments args.now) k }
{
    let v = argument(args, k)?;
    view::as_case(v)
}

/// The truth value or case at this place, as a number.
#[tactic(auto, unfolding(mz_operations::specs::Arguments::ordinal_at))]
pub fn ordinal_at(args: &[Option<Value>], k: usize) -> Option<i64>
    ensures { result ≡ place.ordinal_at (arguments args.now) k }
{
    let v = argument(args, k)?;
    view::as_ordinal(v)
}

/// The integer or case at this place, as an element of a set.
#[tactic(auto, unfolding(mz_operations::specs::Arguments::element_at))]
pub fn element_at(args: &[Option<Value>], k: usize) -> Option<i64>
    ensures { result ≡ place.element_at (arguments args.now) k }
{
    let v = argument(args, k)?;
    view::as_element(v)
}

/// The value at this place, absent or of a kind that options have.
#[tactic(auto, unfolding(mz_operations::specs::Arguments::option_at))]
pub fn option_at(args: &[Option<Value>], k: usize) -> Option<&Value>
    ensures { option_map (λ v. content v.now) result ≡ place.option_at (arguments args.now) k }
{
    let v = argument(args, k)?;
    view::as_option(v)
}

/// The set at this place.
#[tactic(auto, unfolding(mz_operations::specs::Arguments::set_at))]
pub fn set_at(args: &[Option<Value>], k: usize) -> Option<&RangeSet>
    ensures { option_map (λ s. s.now) result ≡ place.set_at (arguments args.now) k }
{
    let v = argument(args, k)?;
    view::as_set(v)
}

/// The enum of the case or set at this place.
#[tactic(auto, unfolding(mz_operations::specs::Arguments::enum_at))]
pub fn enum_at(args: &[Option<Value>], k: usize) -> Option<u64>
    ensures { result ≡ place.enum_at (arguments args.now) k }
{
    let v = argument(args, k)?;
    view::enum_of(v)
}

/// The text at this place.
#[tactic(auto, unfolding(mz_operations::specs::Arguments::text_at))]
pub fn text_at(args: &[Option<Value>], k: usize) -> Option<&TextValue>
    ensures { option_map (λ t. text_bytes t.now) result ≡ place.text_at (arguments args.now) k }
{
    let v = argument(args, k)?;
    view::as_text(v)
}

/// The elements of the array at this place.
#[tactic(auto, unfolding(mz_operations::specs::Arguments::items_at))]
pub fn items_at(args: &[Option<Value>], k: usize) -> Option<&[Value]>
    ensures { option_map (λ xs. map content xs.now) result ≡ place.items_at (arguments args.now) k }
{
    let v = argument(args, k)?;
    view::as_items(v)
}

/// The elements of the array of one dimension at this place.
#[tactic(auto, unfolding(mz_operations::specs::Arguments::row_at))]
pub fn row_at(args: &[Option<Value>], k: usize) -> Option<&[Value]>
    ensures { option_map (λ xs. map content xs.now) result ≡ place.row_at (arguments args.now) k }
{
    let v = argument(args, k)?;
    view::as_row(v)
}

/// The index ranges of the array at this place.
#[tactic(auto, unfolding(mz_operations::specs::Arguments::index_at))]
pub fn index_at(args: &[Option<Value>], k: usize) -> Option<&[(i64, i64)]>
    ensures { option_map (λ rs. rs.now) result ≡ place.index_at (arguments args.now) k }
{
    let v = argument(args, k)?;
    view::as_index(v)
}

/// The first two arguments: two truth values, two integers, or two cases of one enum.
#[tactic(auto, unfolding(mz_operations::specs::Arguments::pair))]
pub fn pair(args: &[Option<Value>]) -> Option<(i64, i64)>
    ensures { result ≡ place.pair (arguments args.now) }
{
    let v = argument(args, 0)?;
    let w = argument(args, 1)?;
    view::as_pair(v, w)
}
