// The first name that is declared, or given a value, a second time.

ghost use Rattle.std.specs.Prelude.{◌≡◌, [], IfOk, OnOk};
ghost use Rattle.mz_scope_names.specs.declared.occurrence.Occurrence.{Occurrence};
ghost use Rattle.mz_scope_names.specs.Sets.{holds, with_name};
ghost use Rattle.mz_scope.specs.Tests.{is_repeated, first_after};
ghost use Rattle.mz_scope.specs.StepsTests.{repeated_in, declared_after, valued_after};

use mz_base::{Memory, Name, Span};
use mz_scope_names::{NameSet, Occurrence, Role};
use std::alloc::Global;

/// Adds a name, and says whether it was there.
fn repeats(set: &mut NameSet, name: Name) -> Result<bool, Memory>
    ensures was { IfOk result (λ r. r ≡ holds name set.old) }
    ensures added { OnOk result (set.new ≡ with_name set.old name) }
{
    let was = set.has(name);
    set.add(name)?;
    Ok(was)
}

/// Whether an occurrence declares a name, or gives it a value, a second time.
fn is_repeated(declared: &mut NameSet, valued: &mut NameSet, o: &Occurrence) -> Result<bool, Memory>
    ensures repeated { IfOk result (λ r. r ≡ repeated_in o.now.role declared.old valued.old o.now.name) }
    ensures declared { OnOk result (declared.new ≡ declared_after o.now.role declared.old o.now.name) }
    ensures valued { OnOk result (valued.new ≡ valued_after o.now.role valued.old o.now.name) }
{
    match o.role {
        Role::Declared => repeats(declared, o.name),
        Role::Valued => repeats(valued, o.name),
        _ => Ok(false),
    }
}

/// The first name that is declared, or given a value, a second time.
pub fn first_repeated(alloc: Global, os: &[Occurrence]) -> Result<Option<Span>, Memory>
    ensures { IfOk result (λ found. found ≡ first_after is_repeated [] os.now) }
{
    let mut declared = NameSet::new(alloc);
    let mut valued = NameSet::new(alloc);
    for o in os {
        if is_repeated(&mut declared, &mut valued, o)? {
            return Ok(Some(o.span));
        }
    }
    Ok(None)
}
