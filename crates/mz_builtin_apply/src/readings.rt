// The row of a line as it is read with its arguments.

ghost use Rattle.std.specs.Prelude.{◌≡◌, is_some, if◌then◌else◌};
ghost use Rattle.mz_operations.specs.Arguments.{arguments, set_at};
ghost use Rattle.mz_builtin_apply.specs.Applied.{read_as};

use mz_builtin_arguments::set_at;
use mz_operations::{Row, ScalarRow};
use mz_value::Value;

/// `=` and `!=` of sets are rows of their own, told by the first argument.
#[tactic(auto, unfolding(crate::specs::Applied::read_as))]
pub fn read_as(row: Row, args: &[Option<Value>]) -> Row
    ensures { result ≡ read_as row (arguments args.now) }
{
    match row {
        Row::Scalar(ScalarRow::Equal) => equality(ScalarRow::SetEqual, ScalarRow::Equal, args),
        Row::Scalar(ScalarRow::Unequal) => {
            equality(ScalarRow::SetUnequal, ScalarRow::Unequal, args)
        }
        _ => row,
    }
}

/// The first where the first argument is a set, else the second.
fn equality(of_sets: ScalarRow, of_others: ScalarRow, args: &[Option<Value>]) -> Row
    ensures { result ≡ (if is_some (set_at (arguments args.now) 0) then Row.Scalar of_sets else Row.Scalar of_others) }
{
    if set_at(args, 0).is_some() {
        Row::Scalar(of_sets)
    } else {
        Row::Scalar(of_others)
    }
}
