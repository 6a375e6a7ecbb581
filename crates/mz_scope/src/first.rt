// The first occurrence that a test finds.

ghost use Rattle.std.specs.Prelude.{◌≡◌, ◌<◌, length};
ghost use Rattle.mz_scope.specs.Tests.{begins_reserved, is_reserved, known_in, is_unknown, misfits, is_misfit, is_missing, first, AreNamed};

use crate::spaces::introduces;
use mz_base::{Names, Span};
use mz_builtin::known;
use mz_scope_names::{NameSet, Occurrence, Role};

fn begins_reserved(text: &[u8]) -> bool
    ensures { result ≡ begins_reserved text.now }
{
    text.starts_with(b"X_")
}

fn is_reserved(names: &Names, o: &Occurrence) -> bool
    requires { o.now.name < length names.now }
    ensures { result ≡ is_reserved names.now o.now }
{
    introduces(o.role) && begins_reserved(names.text(o.name).as_bytes())
}

/// The first top-level name that begins with `X_`.
#[tactic(auto, unfolding(crate::specs::Tests::first))]
pub fn first_reserved(names: &Names, os: &[Occurrence]) -> Option<Span>
    requires { AreNamed names.now os.now }
    ensures { result ≡ first (is_reserved names.now) os.now }
{
    for o in os {
        if is_reserved(names, o) {
            return Some(o.span);
        }
    }
    None
}

fn is_unknown(names: &Names, bound: &NameSet, declared: &NameSet, o: &Occurrence) -> bool
    requires { o.now.name < length names.now }
    ensures { result ≡ is_unknown (known_in names.now) bound.now declared.now o.now }
{
    match o.role {
        Role::Used => !bound.has(o.name) && !known(names.text(o.name)),
        Role::Valued => !declared.has(o.name),
        _ => false,
    }
}

/// The first name that is used, that nothing declares, and that is no operator, built-in or global; or that is given a value, and
/// that isn't declared at top level.
#[tactic(auto, unfolding(crate::specs::Tests::first))]
pub fn first_unknown(
    names: &Names,
    bound: &NameSet,
    declared: &NameSet,
    os: &[Occurrence],
) -> Option<Span>
    requires { AreNamed names.now os.now }
    ensures { result ≡ first (is_unknown (known_in names.now) bound.now declared.now) os.now }
{
    for o in os {
        if is_unknown(names, bound, declared, o) {
            return Some(o.span);
        }
    }
    None
}

fn misfits(role: Role) -> bool
    ensures { result ≡ misfits role }
{
    match role {
        Role::Misfit => true,
        _ => false,
    }
}

/// The first data for an enum that is no set or list of identifiers.
#[tactic(auto, unfolding(crate::specs::Tests::first))]
pub fn first_misfit(os: &[Occurrence]) -> Option<Span>
    ensures { result ≡ first is_misfit os.now }
{
    for o in os {
        if misfits(o.role) {
            return Some(o.span);
        }
    }
    None
}

fn is_missing(valued: &NameSet, listed: &NameSet, o: &Occurrence) -> bool
    ensures { result ≡ is_missing valued.now listed.now o.now }
{
    match o.role {
        Role::Lacking => true,
        Role::Wanting => !valued.has(o.name),
        Role::Caseless => !listed.has(o.name),
        _ => false,
    }
}

/// The first par declaration without a value, or enum without cases.
#[tactic(auto, unfolding(crate::specs::Tests::first))]
pub fn first_missing(valued: &NameSet, listed: &NameSet, os: &[Occurrence]) -> Option<Span>
    ensures { result ≡ first (is_missing valued.now listed.now) os.now }
{
    for o in os {
        if is_missing(valued, listed, o) {
            return Some(o.span);
        }
    }
    None
}
