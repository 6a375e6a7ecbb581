// The rows by their numbers.

ghost use Rattle.std.specs.Prelude.{◌≡◌};
ghost use Rattle.mz_core.specs.Types as types;
ghost use Rattle.mz_meaning.specs.Operations as operations;

use mz_core::Base;
use mz_operations::{Row, ScalarRow, row_of};

fn is_set(b: Base) -> bool
    ensures { result ≡ types.is_set b }
{
    match b {
        Base::SetInt => true,
        Base::SetEnum(_) => true,
        Base::SetBottom => true,
        _ => false,
    }
}

/// `=` and `!=` of sets are rows of their own.
fn of_sets(row: Row) -> Row
    ensures { result ≡ operations.of_sets row }
{
    match row {
        Row::Scalar(ScalarRow::Equal) => Row::Scalar(ScalarRow::SetEqual),
        Row::Scalar(ScalarRow::Unequal) => Row::Scalar(ScalarRow::SetUnequal),
        _ => row,
    }
}

/// The row of the table's line with this number, whose arguments have this base; `None` of a number
/// that no operator or built-in has. Takes no memory.
pub fn row_at(number: u32, base: Base) -> Option<Row>
    ensures { result ≡ operations.row_at number base }
{
    let row = row_of(number)?;
    if is_set(base) {
        Some(of_sets(row))
    } else {
        Some(row)
    }
}
