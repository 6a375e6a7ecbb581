// What rows give of values.

ghost use Rattle.std.specs.Prelude.{◌≡◌, true};
ghost use Rattle.mz_value.specs.Shown.{Names};
ghost use Rattle.mz_operations.specs.Arguments.{arguments};
ghost use Rattle.mz_operations.specs.Answers.{answer, limited};
ghost use Rattle.mz_operations.specs.Values.{value};
ghost use Rattle.mz_builtin_apply.specs.Applied.{Answers, IsApplied, is_applied};

use crate::faults::{is_mismatched, negative};
use crate::limits::{limited_scalar, limited_value};
use mz_base::{Fault, Kind, Span, Stop};
use mz_builtin_values::{bounding, made, scalar};
use mz_operations::{BoundingRow, MadeRow, Row};
use mz_value::Value;
use std::alloc::Global;

fn made_row(
    alloc: Global,
    row: MadeRow,
    args: &[Option<Value>],
    at: Span,
) -> Result<Option<Value>, Stop>
    ensures { (names : Names) → Answers result at (limited (value names (Row.Made row) (arguments args.now))) }
{
    let v = made(alloc, row, args)?;
    limited_value(v, at)
}

fn bounding_row(
    alloc: Global,
    row: BoundingRow,
    args: &[Option<Value>],
    at: Span,
) -> Result<Option<Value>, Stop>
    ensures { (names : Names) → Answers result at (limited (value names (Row.Bounding row) (arguments args.now))) }
{
    let v = bounding(alloc, row, args)?;
    limited_value(v, at)
}

/// The row's value, where no computed integer leaves the limit.
fn given(alloc: Global, row: Row, args: &[Option<Value>], at: Span) -> Result<Option<Value>, Stop>
    requires { is_applied row ≡ true }
    ensures { (names : Names) → Answers result at (limited (value names row (arguments args.now))) }
{
    match row {
        Row::Scalar(r) => limited_scalar(scalar(r, args), at),
        Row::Made(r) => made_row(alloc, r, args, at),
        Row::Bounding(r) => bounding_row(alloc, r, args, at),
        Row::Show => unreachable!(),
        Row::ShowArray => unreachable!(),
    }
}

/// What a row gives of these arguments, of which each is undefined or a value: `None` where it is
/// undefined, a Boolean row too. The row is no `show`, and no `assert` whose condition is false; the
/// arguments of `lb`, `ub`, `dom`, `lb_array`, `ub_array`, `is_fixed` and `fix` are par here.
///
/// Refused IndexMismatch where index sets that are given to an array don't fit it; NegativeArgument
/// where an exponent is negative, the base may be undefined then; Bounds where the value is an
/// integer outside -2^61..2^61, with this integer, which for a sum, a product and a power is the
/// first partial result outside. The arguments may be of any kinds: where the row takes no such
/// arguments it is undefined.
pub fn apply_row(
    alloc: Global,
    row: Row,
    args: &[Option<Value>],
    at: Span,
) -> Result<Option<Value>, Stop>
    requires { IsApplied row (arguments args.now) }
    ensures { (names : Names) → Answers result at (answer names row (arguments args.now)) }
{
    if is_mismatched(alloc, row, args)? {
        return Err(Stop::Refused(Fault::at(Kind::IndexMismatch, at)));
    }
    match negative(row, args) {
        Some(k) => Err(Stop::Refused(Fault {
            kind: Kind::NegativeArgument,
            span: at,
            number: k as i128,
        })),
        None => given(alloc, row, args, at),
    }
}
