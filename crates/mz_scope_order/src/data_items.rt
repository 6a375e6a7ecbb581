// The items of the data by their names.

ghost use Rattle.std.specs.Prelude.{◌≡◌, ℕ, IfOk, map};
ghost use Rattle.std.specs.Option.{option_map};
ghost use Rattle.mz_tree.specs.Data.{given};
ghost use Rattle.mz_scope_order.specs.StepsTables.{item_found, first_given};

use crate::first_places::Places;
use mz_base::{Memory, Name};
use mz_tree::DataItem;
use std::alloc::Global;

/// The items of the data, with the first place of each name.
pub(crate) struct Listing<'a> {
    places: Places,
    items: &'a [DataItem],
}

impl<'a> Drop for Listing<'a> {
    fn drop(self) {
        let Listing {
            places: _places,
            items: _items,
        } = self;
    }
}

impl<'a> Listing<'a> {
    /// The first item of a name.
    pub fn item(&self, name: Name) -> Option<&'a DataItem>
        ensures { option_map (λ d. given d.now) result ≡ item_found self.now name }
    {
        match self.places.place(name) {
            Some(place) => self.items.get(place),
            None => None,
        }
    }
}

fn data_names(alloc: Global, items: &[DataItem]) -> Result<Vec<Name>, Memory>
    ensures { IfOk result (λ out. out.items ≡ map (λ d. d.name) items.now) }
{
    let mut out = Vec::new(alloc);
    for d in items {
        out.push(d.name)?;
    }
    Ok(out)
}

/// The first item of the data for each name.
pub(crate) fn listed_in<'a>(alloc: Global, items: &'a [DataItem]) -> Result<Listing<'a>, Memory>
    ensures { IfOk result (λ table. (n : ℕ) → item_found table n ≡ first_given n (map given items.now)) }
{
    let names = data_names(alloc, items)?;
    let places = Places::of(alloc, names.as_slice())?;
    Ok(Listing { places, items })
}
