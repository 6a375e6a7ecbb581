// The names of declarations or functions, and the place of each.

ghost use Rattle.std.specs.Prelude.{◌≡◌, [], map, IfOk, OnOk};
ghost use Rattle.mz_scope_names.specs.Sketches.{sketch};
ghost use Rattle.mz_scope_order.specs.StepsPlaces.{if_in, names_in};

use mz_base::Memory;
use mz_scope_names::{NameSet, Sketch};
use std::alloc::Global;

/// Adds the name of one that is in this space: of functions with parameters, or of all else.
fn add_if(places: &mut NameSet, o: &Sketch, applied: bool) -> Result<(), Memory>
    ensures { OnOk result (places.new ≡ if_in applied places.old (sketch o.now)) }
{
    if o.applied == applied {
        places.add(o.name)?;
    }
    Ok(())
}

/// The names of those in one space, in source order.
pub(crate) fn names_in(alloc: Global, sketches: &[Sketch], applied: bool) -> Result<NameSet, Memory>
    ensures { IfOk result (λ p. p ≡ names_in applied [] (map sketch sketches.now)) }
{
    let mut places = NameSet::new(alloc);
    for o in sketches {
        add_if(&mut places, o, applied)?;
    }
    Ok(places)
}
