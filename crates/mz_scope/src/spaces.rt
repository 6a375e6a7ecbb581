// The names that have a role, as sets.

ghost use Rattle.std.specs.Prelude.{◌≡◌, ℕ, IfOk};
ghost use Rattle.mz_scope_names.specs.Sets.{holds};
ghost use Rattle.mz_scope.specs.Spaces.{declares, introduces, binds, gives, lists, names_with};
ghost use Rattle.mz_scope.specs.StepsSpaces.{asked_by};

use mz_base::Memory;
use mz_scope_names::{NameSet, Occurrence, Role};
use std::alloc::Global;

/// Which names are asked for.
enum Asked {
    Bound,
    Declared,
    Valued,
    Listed,
}

/// Whether a variable, an enum, a case or a function without parameters is declared.
fn declares(role: Role) -> bool
    ensures { result ≡ declares role }
{
    match role {
        Role::Declared => true,
        _ => false,
    }
}

/// Whether a name at top level is declared, of either space.
pub(crate) fn introduces(role: Role) -> bool
    ensures { result ≡ introduces role }
{
    match role {
        Role::Declared => true,
        Role::Overloaded => true,
        _ => false,
    }
}

/// Whether a name is declared, at top level or locally.
fn binds(role: Role) -> bool
    ensures { result ≡ binds role }
{
    match role {
        Role::Declared => true,
        Role::Overloaded => true,
        Role::Local => true,
        _ => false,
    }
}

/// Whether a name gets its value.
fn gives(role: Role) -> bool
    ensures { result ≡ gives role }
{
    match role {
        Role::Valued => true,
        _ => false,
    }
}

/// Whether data lists the cases of an enum.
fn lists(role: Role) -> bool
    ensures { result ≡ lists role }
{
    match role {
        Role::Listed => true,
        _ => false,
    }
}

/// Whether a role counts for what is asked.
fn counts(asked: &Asked, role: Role) -> bool
    ensures { result ≡ asked_by asked.now role }
{
    match asked {
        Asked::Bound => binds(role),
        Asked::Declared => declares(role),
        Asked::Valued => gives(role),
        Asked::Listed => lists(role),
    }
}

/// The names that have a role that is asked for.
fn names_asked(alloc: Global, asked: &Asked, os: &[Occurrence]) -> Result<NameSet, Memory>
    ensures { IfOk result (λ set. (n : ℕ) → holds n set ≡ holds n (names_with (asked_by asked.now) os.now)) }
{
    let mut names = Vec::new(alloc);
    for o in os {
        if counts(asked, o.role) {
            names.push(o.name)?;
        }
    }
    let set = NameSet::of(alloc, names.as_slice())?;
    Ok(set)
}

/// The names that something declares, at top level or locally.
pub fn bound_names(alloc: Global, os: &[Occurrence]) -> Result<NameSet, Memory>
    ensures { IfOk result (λ set. (n : ℕ) → holds n set ≡ holds n (names_with binds os.now)) }
{
    let set = names_asked(alloc, &Asked::Bound, os)?;
    Ok(set)
}

/// The names that share the space of variables.
pub fn declared_names(alloc: Global, os: &[Occurrence]) -> Result<NameSet, Memory>
    ensures { IfOk result (λ set. (n : ℕ) → holds n set ≡ holds n (names_with declares os.now)) }
{
    let set = names_asked(alloc, &Asked::Declared, os)?;
    Ok(set)
}

/// The names that get a value.
pub fn valued_names(alloc: Global, os: &[Occurrence]) -> Result<NameSet, Memory>
    ensures { IfOk result (λ set. (n : ℕ) → holds n set ≡ holds n (names_with gives os.now)) }
{
    let set = names_asked(alloc, &Asked::Valued, os)?;
    Ok(set)
}

/// The enums whose cases data lists.
pub fn listed_names(alloc: Global, os: &[Occurrence]) -> Result<NameSet, Memory>
    ensures { IfOk result (λ set. (n : ℕ) → holds n set ≡ holds n (names_with lists os.now)) }
{
    let set = names_asked(alloc, &Asked::Listed, os)?;
    Ok(set)
}
