// A truth value, an integer or a case.

ghost use Rattle.std.specs.Prelude.{◌≡◌};
ghost use Rattle.mz_operations.specs.Arrays.{element_of};
ghost use Rattle.mz_builtin_values.specs.Scalars.{scalar_content};

/// A truth value, an integer without a limit, or a case of an enum, with the enum's number and its
/// own.
#[derive(Clone, Copy)]
pub enum Scalar {
    Truth(bool),
    Number(i128),
    Case(u64, i64),
}

/// An integer, or a case of this enum.
pub fn given(of: Option<u64>, n: i64) -> Scalar
    ensures { scalar_content result ≡ element_of of n }
{
    match of {
        None => Scalar::Number(n as i128),
        Some(e) => Scalar::Case(e, n),
    }
}
