// Arguments that are constants, or the same.

ghost use Rattle.std.specs.Prelude.{◌≡◌, IfSome, true};
ghost use Rattle.fz_program.specs.Arguments.{bool, int, plain, var};
ghost use Rattle.flat_reif_rows.specs.NodeRows.{IsFactor};

use fz_program::Arg;
use mz_arena::NodeKind;

// The number that an argument is.
fn number_in(a: &Arg) -> Option<i64>
    ensures { IfSome result (λ n. plain a.now ≡ int n) }
{
    match a {
        Arg::Int(n) => Some(*n),
        Arg::Bool(_) => None,
        Arg::Set(_) => None,
        Arg::Var(_) => None,
        Arg::Array(_) => None,
    }
}

/// The number that a factor of a product is.
pub(crate) fn factor(kind: NodeKind, a: &Arg) -> Option<i64>
    ensures { IfSome result (IsFactor kind (plain a.now)) }
{
    match kind {
        NodeKind::Mul => number_in(a),
        _ => None,
    }
}

/// The truth value that an argument is.
pub(crate) fn truth_in(a: &Arg) -> Option<bool>
    ensures { IfSome result (λ b. plain a.now ≡ bool b) }
{
    match a {
        Arg::Bool(b) => Some(*b),
        Arg::Int(_) => None,
        Arg::Set(_) => None,
        Arg::Var(_) => None,
        Arg::Array(_) => None,
    }
}

/// Whether two arguments are told to be one: the same variable or the same number.
pub(crate) fn are_one(a: &Arg, b: &Arg) -> bool
    ensures { result ≡ true → plain a.now ≡ plain b.now }
{
    match a {
        Arg::Var(j) => is_variable(b, *j),
        Arg::Int(m) => is_number(b, *m),
        Arg::Bool(_) => false,
        Arg::Set(_) => false,
        Arg::Array(_) => false,
    }
}

// Whether an argument is this variable.
fn is_variable(a: &Arg, j: u64) -> bool
    ensures { result ≡ true → var j ≡ plain a.now }
{
    match a {
        Arg::Var(k) => *k == j,
        Arg::Bool(_) => false,
        Arg::Int(_) => false,
        Arg::Set(_) => false,
        Arg::Array(_) => false,
    }
}

// Whether an argument is this number.
fn is_number(a: &Arg, m: i64) -> bool
    ensures { result ≡ true → int m ≡ plain a.now }
{
    match a {
        Arg::Int(n) => *n == m,
        Arg::Bool(_) => false,
        Arg::Set(_) => false,
        Arg::Var(_) => false,
        Arg::Array(_) => false,
    }
}
