// The limit of computed integers.

ghost use Rattle.std.specs.Prelude.{◌≡◌, Some};
ghost use Rattle.std.specs.Option.{option_map};
ghost use Rattle.mz_value.specs.Contents.{content, int};
ghost use Rattle.mz_builtin_values.specs.Scalars.{scalar_content};
ghost use Rattle.mz_operations.specs.Answers.{limited};
ghost use Rattle.mz_builtin_apply.specs.Applied.{Answers};
ghost use Rattle.mz_builtin_apply.specs.StepsLimits.{unless_outside};

use mz_base::{Fault, Kind, Span, Stop};
use mz_builtin_arguments::{as_int, is_number};
use mz_builtin_values::Scalar;
use mz_value::Value;

/// A computed integer, where it lies in the limit.
#[tactic(auto, unfolding(mz_operations::specs::Answers::limited))]
fn limited_number(n: i128, at: Span) -> Result<Option<Value>, Stop>
    ensures { Answers result at (limited (Some (int n))) }
{
    if is_number(n) {
        Ok(Some(Value::Int(n as i64)))
    } else {
        Err(Stop::Refused(Fault {
            kind: Kind::Bounds,
            span: at,
            number: n,
        }))
    }
}

/// What a row gives, where it is no integer outside the limit.
#[tactic(auto, unfolding(mz_operations::specs::Answers::limited))]
pub(crate) fn limited_scalar(v: Option<Scalar>, at: Span) -> Result<Option<Value>, Stop>
    ensures { Answers result at (limited (option_map scalar_content v)) }
{
    match v {
        None => Ok(None),
        Some(Scalar::Truth(b)) => Ok(Some(Value::Bool(b))),
        Some(Scalar::Number(n)) => limited_number(n, at),
        Some(Scalar::Case(e, k)) => Ok(Some(Value::Enum(e, k))),
    }
}

/// An integer outside the limit.
fn integer_outside(v: &Value) -> Option<i64>
    ensures { limited (Some (content v.now)) ≡ unless_outside result (Some (content v.now)) }
{
    match as_int(v) {
        Some(n) if !is_number(n as i128) => Some(n),
        _ => None,
    }
}

/// The same of a value that is made.
#[tactic(auto, unfolding(mz_operations::specs::Answers::limited))]
pub(crate) fn limited_value(v: Option<Value>, at: Span) -> Result<Option<Value>, Stop>
    ensures { Answers result at (limited (option_map content v)) }
{
    let Some(value) = v else {
        return Ok(None);
    };
    match integer_outside(&value) {
        Some(n) => Err(Stop::Refused(Fault {
            kind: Kind::Bounds,
            span: at,
            number: n as i128,
        })),
        None => Ok(Some(value)),
    }
}
