// What is left out by name, where no candidate accepts.

ghost use Rattle.std.specs.Prelude.{◌≡◌, ◌∷◌, [], not, map, IfOk};
ghost use Rattle.mz_core.specs.Types.{plain_type};
ghost use Rattle.mz_builtin.specs.Views.{plain_numbered};
ghost use Rattle.mz_check_meaning.specs.Calls.{is_order, is_equality, is_power, is_option, is_text_type, par, is_empty, would_fit, is_left_out_of, is_left_out};
ghost use Rattle.mz_check_calls.specs.StepsLeftOut.{is_range, is_compared, is_range_if_par, is_power_if_par};

use mz_base::Memory;
use mz_builtin::fitting;
use mz_check_forms::{is_scalar, is_set_type};
use mz_core::{Base, Signature, TypeInst, copy_type, make_type};
use std::alloc::Global;

fn is_order(name: &str) -> bool
    ensures { result ≡ is_order name.now }
{
    name == "<" || name == "<=" || name == ">" || name == ">="
}

fn is_equality(name: &str) -> bool
    ensures { result ≡ is_equality name.now }
{
    name == "=" || name == "!="
}

fn is_power(name: &str) -> bool
    ensures { result ≡ is_power name.now }
{
    name == "^" || name == "pow"
}

fn is_range(name: &str) -> bool
    ensures { result ≡ is_range name.now }
{
    name == ".."
}

#[tactic(auto, unfolding(mz_core::specs::Types::plain_type))]
fn is_option(t: &TypeInst) -> bool
    ensures { result ≡ is_option (plain_type t.now) }
{
    t.opt && is_scalar(t)
}

#[tactic(auto, unfolding(mz_core::specs::Types::plain_type))]
fn is_text_type(t: &TypeInst) -> bool
    ensures { result ≡ is_text_type (plain_type t.now) }
{
    match t.base {
        Base::Text => is_scalar(t),
        _ => false,
    }
}

/// Whether arrays are compared, or sets or options are ordered, or texts are tested for equality.
fn is_compared(name: &str, t: &TypeInst, u: &TypeInst) -> bool
    ensures { result ≡ is_compared name.now (plain_type t.now) (plain_type u.now) }
{
    let order = is_order(name);
    ((order || is_equality(name)) && (!is_scalar(t) && !is_scalar(u)))
        || ((order && ((is_set_type(t) && is_set_type(u)) || (is_option(t) || is_option(u))))
            || (name == "=" && (is_text_type(t) && is_text_type(u))))
}

#[tactic(auto, unfolding(mz_core::specs::Types::plain_type))]
fn par(alloc: Global, t: &TypeInst) -> Result<TypeInst, Memory>
    ensures { IfOk result (λ u. plain_type u ≡ par (plain_type t.now)) }
{
    make_type(alloc, false, t.opt, t.base, t.dims.as_slice())
}

fn is_some_row(rows: &[(u32, Signature)]) -> bool
    ensures { result ≡ not (is_empty (map plain_numbered rows.now)) }
{
    match rows {
        [] => false,
        [_first, _more @ ..] => true,
    }
}

/// Whether the library has a row of this name that accepts two arguments of these types.
fn would_fit(alloc: Global, name: &str, t: TypeInst, u: TypeInst) -> Result<bool, Memory>
    ensures { IfOk result (λ b. b ≡ would_fit name.now (plain_type t ∷ plain_type u ∷ [])) }
{
    let args = vec![in alloc; t, u]?;
    let rows = fitting(alloc, name, args.as_slice())?;
    Ok(is_some_row(rows.as_slice()))
}

/// Whether a range would fit if its ends were par.
fn is_range_if_par(alloc: Global, name: &str, t: &TypeInst, u: &TypeInst) -> Result<bool, Memory>
    ensures { IfOk result (λ b. b ≡ is_range_if_par name.now (plain_type t.now) (plain_type u.now)) }
{
    if !is_range(name) {
        return Ok(false);
    }
    let first = par(alloc, t)?;
    let second = par(alloc, u)?;
    would_fit(alloc, name, first, second)
}

/// Whether a power would fit if its exponent were par.
fn is_power_if_par(alloc: Global, name: &str, t: &TypeInst, u: &TypeInst) -> Result<bool, Memory>
    ensures { IfOk result (λ b. b ≡ is_power_if_par name.now (plain_type t.now) (plain_type u.now)) }
{
    if !is_power(name) {
        return Ok(false);
    }
    let first = copy_type(alloc, t)?;
    let second = par(alloc, u)?;
    would_fit(alloc, name, first, second)
}

#[tactic(auto, using(crate::proofs::Disjunctions::in_three_parts))]
fn is_left_out_of(alloc: Global, name: &str, t: &TypeInst, u: &TypeInst) -> Result<bool, Memory>
    ensures { IfOk result (λ b. b ≡ is_left_out_of name.now (plain_type t.now) (plain_type u.now)) }
{
    let range = is_range_if_par(alloc, name, t, u)?;
    let power = is_power_if_par(alloc, name, t, u)?;
    Ok(is_compared(name, t, u) || (range || power))
}

/// Whether an operator or a call of this name, which no candidate accepts with arguments of these types, is left out: comparisons of
/// arrays, orders of sets and of options, `=` of texts; and a range with an end that is var and a power with an exponent that is,
/// which would fit if it were par.
#[tactic(auto, unfolding(mz_check_meaning::specs::Calls::is_left_out))]
pub(crate) fn is_left_out(alloc: Global, name: &str, args: &[TypeInst]) -> Result<bool, Memory>
    ensures { IfOk result (λ b. b ≡ is_left_out name.now (map plain_type args.now)) }
{
    match args {
        [] => Ok(false),
        [t, rest @ ..] => match rest {
            [] => Ok(false),
            [u, rest @ ..] => match rest {
                [] => is_left_out_of(alloc, name, t, u),
                [_third, _more @ ..] => Ok(false),
            },
        },
    }
}
