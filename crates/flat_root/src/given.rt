// Arguments for what is needed.

ghost use Rattle.std.specs.Prelude.{IfOk};
ghost use Rattle.flat_reif.specs.States.{state};
ghost use Rattle.flat_root.specs.Keeps.{FlattenedFor, IsReadyState};
ghost use Rattle.flat_root.specs.Marks.{AreTotalIds};

use crate::marks::needed_for;
use flat_reif::Flat;
use mz_arena::Id;
use mz_base::Memory;
use std::alloc::Global;

// Gives these ids their arguments, and all choices a variable.
pub(crate) fn flatten_for(alloc: Global, flat: &mut Flat, ids: &[Id]) -> Result<(), Memory>
    requires ready { IsReadyState (state flat.old) }
    requires total { AreTotalIds (state flat.old).es ids.now }
    ensures { IfOk result (λ _. FlattenedFor (state flat.old) (state flat.new) ids.now) }
{
    let need = given!(needed_for(alloc, flat.arena(), ids));
    let count = flat.arena().len();
    flat.flatten_below(count, &need)
}
