// The items of the data that are not of enums.

ghost use Rattle.std.specs.Prelude.{◌≡◌, IfOk, map};
ghost use Rattle.std.specs.List.{flat_map};
ghost use Rattle.mz_tree.specs.Data.{given};
ghost use Rattle.mz_scope_names.specs.Sets.{holds};
ghost use Rattle.mz_scope_order.specs.Parts.{unless};
ghost use Rattle.mz_scope_order.specs.Scoped.{lent_given};

use crate::scoped::ScopedEnum;
use mz_base::{Memory, Name};
use mz_scope_names::NameSet;
use mz_tree::DataItem;
use std::alloc::Global;

fn names_of(alloc: Global, enums: &[ScopedEnum]) -> Result<Vec<Name>, Memory>
    ensures { IfOk result (λ out. out.items ≡ map (λ e. e.name) enums.now) }
{
    let mut out = Vec::new(alloc);
    for e in enums {
        out.push(e.name)?;
    }
    Ok(out)
}

/// The items of the data whose names are not in the set.
fn items_besides<'a>(
    alloc: Global,
    names: &NameSet,
    items: &'a [DataItem],
) -> Result<Vec<&'a DataItem>, Memory>
    ensures { IfOk result (λ out. map lent_given out.items ≡ flat_map (λ d. unless (holds d.name names.now) (given d)) items.now) }
{
    let mut out = Vec::new(alloc);
    for d in items {
        if !names.has(d.name) {
            out.push(d)?;
        }
    }
    Ok(out)
}

/// The items of the data for other names than those of these enums.
pub(crate) fn given_of<'a>(
    alloc: Global,
    enums: &[ScopedEnum],
    items: &'a [DataItem],
) -> Result<Vec<&'a DataItem>, Memory>
    ensures { IfOk result (λ out. map lent_given out.items ≡ flat_map (λ d. unless (holds d.name (map (λ e. e.name) enums.now)) (given d)) items.now) }
{
    let names = names_of(alloc, enums)?;
    let set = NameSet::of(alloc, names.as_slice())?;
    let out = items_besides(alloc, &set, items)?;
    Ok(out)
}
