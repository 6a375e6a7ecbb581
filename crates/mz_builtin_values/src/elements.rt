// The elements of sets, as values.

ghost use Rattle.std.specs.Prelude.{◌≡◌, ◌++◌, ◌∷◌, [], ◌≤ℤ◌, IfOk, OnOk, map};
ghost use Rattle.mz_value.specs.Contents.{content};
ghost use Rattle.mz_value.specs.Ranges.{AreCanonical};
ghost use Rattle.mz_value.specs.Shown.{elements, range_elements};
ghost use Rattle.mz_operations.specs.Arrays.{element_of};

use crate::building::element_value;
use mz_value::{RangeSet, Value};
use std::alloc::{AllocError, Global};

/// The elements of a set, ascending, as integers or as cases of this enum.
pub(crate) fn element_values(
    alloc: Global,
    of: Option<u64>,
    s: &RangeSet,
) -> Result<Vec<Value>, AllocError>
    ensures { IfOk result (λ all. map content all.items ≡ map (element_of of) (elements s.now)) }
{
    let mut all = Vec::new(alloc);
    push_ranges(&mut all, of, s.ranges())?;
    Ok(all)
}

fn push_ranges(
    all: &mut Vec<Value>,
    of: Option<u64>,
    ranges: &[(i64, i64)],
) -> Result<(), AllocError>
    requires { AreCanonical ranges.now }
    ensures { OnOk result (map content all.new.items ≡ map content all.old.items ++ map (element_of of) (elements ranges.now)) }
{
    for r in ranges {
        push_range(all, of, *r)?;
    }
    Ok(())
}

fn push_range(all: &mut Vec<Value>, of: Option<u64>, r: (i64, i64)) -> Result<(), AllocError>
    requires { r.0 ≤ℤ r.1 }
    ensures { OnOk result (map content all.new.items ≡ map content all.old.items ++ map (element_of of) (range_elements r)) }
{
    let mut n = r.0;
    push_element(all, of, n)?;
    while n < r.1 {
        n += 1;
        push_element(all, of, n)?;
    }
    Ok(())
}

fn push_element(all: &mut Vec<Value>, of: Option<u64>, n: i64) -> Result<(), AllocError>
    ensures { OnOk result (map content all.new.items ≡ map content all.old.items ++ element_of of n ∷ []) }
{
    let x = element_value(of, n);
    all.push(x)?;
    Ok(())
}
