// The rows: each is a call of its function.

ghost use Rattle.std.specs.Prelude.{◌≡◌};
ghost use Rattle.std.specs.Option.{option_map};
ghost use Rattle.mz_operations.specs.Arguments.{arguments};
ghost use Rattle.mz_operations.specs.Values.{scalar_value};
ghost use Rattle.mz_builtin_values.specs.Scalars.{scalar_content};

use crate::arithmetic::{
    arith, count, extreme_of_array, fold, length, ordinal, sign, to_the_power,
};
use crate::logic::{
    absent, assertion, clause, connective, equal, negation, occurs, order, quantifier, unequal,
};
use crate::outcome::Scalar;
use crate::sets::{card, extreme_of_set, member, neighbour, set_equal, set_unequal};
use mz_operations::ScalarRow;
use mz_value::Value;

/// What a row gives of these arguments, of which each is undefined or a value: a truth value, an
/// integer without a limit, or a case; `None` where it is undefined. Takes no memory.
pub fn scalar(row: ScalarRow, args: &[Option<Value>]) -> Option<Scalar>
    ensures { option_map scalar_content result ≡ scalar_value row (arguments args.now) }
{
    match row {
        ScalarRow::Logic(op) => connective(op, args),
        ScalarRow::Not => negation(args),
        ScalarRow::Order(op) => order(op, args),
        ScalarRow::Equal => equal(args),
        ScalarRow::Unequal => unequal(args),
        ScalarRow::SetEqual => set_equal(args),
        ScalarRow::SetUnequal => set_unequal(args),
        ScalarRow::In => member(args),
        ScalarRow::Arith(op) => arith(op, args),
        ScalarRow::Sign(op) => sign(op, args),
        ScalarRow::Power => to_the_power(args),
        ScalarRow::Fold(op) => fold(op, args),
        ScalarRow::Extreme(side) => extreme_of_array(side, args),
        ScalarRow::SetExtreme(side) => extreme_of_set(side, args),
        ScalarRow::Quantified(op) => quantifier(op, args),
        ScalarRow::Count => count(args),
        ScalarRow::Clause => clause(args),
        ScalarRow::Ordinal => ordinal(args),
        ScalarRow::Card => card(args),
        ScalarRow::Length => length(args),
        ScalarRow::Occurs => occurs(args),
        ScalarRow::Absent => absent(args),
        ScalarRow::Beside(side) => neighbour(side, args),
        ScalarRow::Assert => assertion(args),
    }
}
