// The equality of options, and the cases beside a case.

ghost use Rattle.std.specs.Prelude.{◌≡◌, None, Some, if◌then◌else◌};
ghost use Rattle.std.specs.Option.{option_map};
ghost use Rattle.std.specs.Ordering.{int_eq};
ghost use Rattle.mz_value.specs.Contents.{content};
ghost use Rattle.mz_operations.specs.Views as views;
ghost use Rattle.mz_operations.specs.Sets as sets;
ghost use Rattle.mz_operations.specs.Numbers as numbers;
ghost use Rattle.mz_operations.specs.Values as values;

use crate::number::beside;
use mz_builtin_arguments::{as_pair, contains, is_absent, is_number};
use mz_operations::Side;
use mz_value::{RangeSet, Value};

/// Whether two values that occur are equal; `None` where they are of two kinds.
fn same_values(x: &Value, y: &Value) -> Option<bool>
    ensures { result ≡ option_map (λ p. int_eq p.0 p.1) (views.as_pair (content x.now) (content y.now)) }
{
    let p = as_pair(x, y)?;
    Some(p.0 == p.1)
}

/// Whether two options are equal: both absent, or both there with equal values.
#[tactic(auto, unfolding(mz_operations::specs::Values::equality))]
pub(crate) fn equality(x: &Value, y: &Value) -> Option<bool>
    ensures { result ≡ values.equality (content x.now) (content y.now) }
{
    if is_absent(x) {
        Some(is_absent(y))
    } else if is_absent(y) {
        Some(false)
    } else {
        same_values(x, y)
    }
}

/// The number one less or one greater, where the set has it.
pub(crate) fn beside_in(side: Side, s: &RangeSet, k: i64) -> Option<i64>
    ensures { result ≡ (if sets.contains s.now (numbers.beside side k) then Some (numbers.beside side k) else None) }
{
    let _ranges = s.ranges();
    let n = beside(side, k);
    if !is_number(n) {
        return None;
    }
    let m = n as i64;
    if contains(s, m) { Some(m) } else { None }
}
