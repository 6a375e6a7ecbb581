// Connectives of truth values, of which some are constant.

ghost use Rattle.std.specs.Prelude.{◌≡◌};
ghost use Rattle.fz_program.specs.Arguments.{plain};
ghost use Rattle.flat_reif_rows.specs.Folds.{conjoined, disjoined, equated, truth_in};

use crate::fold::Fold;
use fz_program::Arg;

// The truth value that an argument is.
pub(crate) fn truth_in(a: &Arg) -> Option<bool>
    ensures { result ≡ truth_in (plain a.now) }
{
    match a {
        Arg::Bool(b) => Some(*b),
        Arg::Int(_) => None,
        Arg::Set(_) => None,
        Arg::Var(_) => None,
        Arg::Array(_) => None,
    }
}

pub(crate) fn conjoined(a: Option<bool>, b: Option<bool>) -> Fold
    ensures { result ≡ conjoined a b }
{
    match a {
        Some(true) => Fold::Second,
        Some(false) => Fold::Truth(false),
        None => match b {
            Some(true) => Fold::First,
            Some(false) => Fold::Truth(false),
            None => Fold::Row,
        },
    }
}

pub(crate) fn disjoined(a: Option<bool>, b: Option<bool>) -> Fold
    ensures { result ≡ disjoined a b }
{
    match a {
        Some(true) => Fold::Truth(true),
        Some(false) => Fold::Second,
        None => match b {
            Some(true) => Fold::Truth(true),
            Some(false) => Fold::First,
            None => Fold::Row,
        },
    }
}

pub(crate) fn equated(a: Option<bool>, b: Option<bool>) -> Fold
    ensures { result ≡ equated a b }
{
    match a {
        Some(true) => Fold::Second,
        Some(false) => match b {
            Some(c) => Fold::Truth(!c),
            None => Fold::Row,
        },
        None => match b {
            Some(true) => Fold::First,
            Some(false) => Fold::Row,
            None => Fold::Row,
        },
    }
}
