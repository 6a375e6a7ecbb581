// The tests of names, in their order.

ghost use Rattle.std.specs.Prelude.{◌≡◌, IfOk};
ghost use Rattle.mz_scope.specs.Tests.{known_in, solve_fault, refusal, refusal_after_solves, first_unknown_of, first_missing_of, AreNamed};

use crate::{
    bound_names, declared_names, first_misfit, first_missing, first_repeated, first_reserved,
    first_unknown, listed_names, valued_names,
};
use mz_base::{Fault, Kind, Memory, Names, Span};
use mz_scope_names::Occurrence;
use std::alloc::Global;

/// Where a solve item is missing, or a second one stands.
fn solve_fault(end: Span, solves: &[Span]) -> Option<Span>
    ensures { result ≡ solve_fault end solves.now }
{
    match solves {
        [] => Some(end),
        [_] => None,
        [_, second, ..] => Some(*second),
    }
}

/// What the tests of names refuse, of a model whose file ends at `end` and whose solve items have the places `solves`: a
/// reserved name, a second declaration or value of a name, a missing or a second solve item, an unknown name, data that doesn't
/// fit an enum, and a declaration or an enum that lacks its value, in this order, each over the whole in the order of the text.
pub(crate) fn refusal(
    alloc: Global,
    names: &Names,
    end: Span,
    solves: &[Span],
    os: &[Occurrence],
) -> Result<Option<Fault>, Memory>
    requires { AreNamed names.now os.now }
    ensures { IfOk result (λ found. found ≡ refusal names.now (known_in names.now) end solves.now os.now) }
{
    if let Some(span) = first_reserved(names, os) {
        return Ok(Some(Fault::at(Kind::ReservedName, span)));
    }
    if let Some(span) = first_repeated(alloc, os)? {
        return Ok(Some(Fault::at(Kind::DuplicateName, span)));
    }
    if let Some(span) = solve_fault(end, solves) {
        return Ok(Some(Fault::at(Kind::SolveItems, span)));
    }
    after_solves(alloc, names, os)
}

/// What the tests after the one of solve items refuse.
fn after_solves(alloc: Global, names: &Names, os: &[Occurrence]) -> Result<Option<Fault>, Memory>
    requires { AreNamed names.now os.now }
    ensures { IfOk result (λ found. found ≡ refusal_after_solves (known_in names.now) os.now) }
{
    if let Some(span) = unknown(alloc, names, os)? {
        return Ok(Some(Fault::at(Kind::UnknownName, span)));
    }
    if let Some(span) = first_misfit(os) {
        return Ok(Some(Fault::at(Kind::DataForm, span)));
    }
    if let Some(span) = missing(alloc, os)? {
        return Ok(Some(Fault::at(Kind::MissingData, span)));
    }
    Ok(None)
}

/// The first name that is used or given a value, and that nothing declares.
fn unknown(alloc: Global, names: &Names, os: &[Occurrence]) -> Result<Option<Span>, Memory>
    requires { AreNamed names.now os.now }
    ensures { IfOk result (λ found. found ≡ first_unknown_of (known_in names.now) os.now) }
{
    let bound = bound_names(alloc, os)?;
    let declared = declared_names(alloc, os)?;
    Ok(first_unknown(names, &bound, &declared, os))
}

/// The first par declaration without a value, or enum without cases.
fn missing(alloc: Global, os: &[Occurrence]) -> Result<Option<Span>, Memory>
    ensures { IfOk result (λ found. found ≡ first_missing_of os.now) }
{
    let valued = valued_names(alloc, os)?;
    let listed = listed_names(alloc, os)?;
    Ok(first_missing(&valued, &listed, os))
}
