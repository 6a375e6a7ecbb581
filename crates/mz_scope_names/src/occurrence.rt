// One occurrence of a name.

ghost use Rattle.std.specs.Prelude.{◌≡◌, [], ◌∷◌, ◌++◌, OnOk};
ghost use Rattle.mz_scope_names.specs.Roles.{occurs};

use mz_base::{Memory, Name, Span};

/// What a name is there for, at one place.
#[derive(Clone, Copy)]
pub enum Role {
    /// A variable, an enum, a case or a function without parameters is declared.
    Declared,
    /// A function with parameters is declared.
    Overloaded,
    /// The name gets its value: by its declaration, by an assignment or by data.
    Valued,
    /// The name is used.
    Used,
    /// The name is local from here on.
    Local,
    /// A par declaration of a `let` has no value.
    Lacking,
    /// A par declaration at top level has no value of its own.
    Wanting,
    /// The item of an enum lists no cases.
    Caseless,
    /// Data lists the cases of the enum.
    Listed,
    /// The enum has data that is no set or list of identifiers.
    Misfit,
}

/// A name at a place, and what it is there for.
#[derive(Clone, Copy)]
pub struct Occurrence {
    pub role: Role,
    pub name: Name,
    pub span: Span,
}

/// Notes one more occurrence.
pub(crate) fn note(
    out: &mut Vec<Occurrence>,
    role: Role,
    name: Name,
    span: Span,
) -> Result<(), Memory>
    ensures { OnOk result (out.new.items ≡ out.old.items ++ occurs role name span ∷ []) }
{
    out.push(Occurrence { role, name, span })?;
    Ok(())
}
