// Uses of names, added to a list where the names aren't hidden.

ghost use Rattle.std.specs.Prelude.{◌≡◌, ◌++◌, OnOk};
ghost use Rattle.mz_scope_names.specs.Uses.{mention, applied};

use crate::{NameSet, NameUse};
use mz_base::{Memory, Name};

/// Adds a mention, where the name isn't hidden.
pub(crate) fn mention(out: &mut Vec<NameUse>, hidden: &NameSet, name: Name) -> Result<(), Memory>
    ensures { OnOk result (out.new.items ≡ out.old.items ++ mention hidden.now name) }
{
    if !hidden.has(name) {
        out.push(NameUse::Mention(name))?;
    }
    Ok(())
}

/// Adds a call, or a mention where there are no arguments.
pub(crate) fn applied(
    out: &mut Vec<NameUse>,
    hidden: &NameSet,
    name: Name,
    empty: bool,
) -> Result<(), Memory>
    ensures { OnOk result (out.new.items ≡ out.old.items ++ applied hidden.now name empty) }
{
    if empty {
        mention(out, hidden, name)
    } else {
        out.push(NameUse::Call(name))?;
        Ok(())
    }
}
