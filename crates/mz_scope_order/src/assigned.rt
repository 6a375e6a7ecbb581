// The values that assignment items give.

ghost use Rattle.std.specs.Prelude.{◌≡◌, ℕ, ◌++◌, IfOk, OnOk, map};
ghost use Rattle.std.specs.List.{flat_map};
ghost use Rattle.std.specs.Option.{option_map};
ghost use Rattle.mz_tree.specs.Tree.{maybe};
ghost use Rattle.mz_tree.specs.Views.{tree};
ghost use Rattle.mz_tree.specs.Items.{item as tree_of};
ghost use Rattle.mz_scope_names.specs.StepsWalk.{items_of};
ghost use Rattle.mz_scope_order.specs.Parts.{assigned};
ghost use Rattle.mz_scope_order.specs.StepsTables.{value_found, name_assigned, value_assigned};

use crate::first_places::Places;
use mz_base::{Memory, Name};
use mz_tree::{Expr, Item, SourceFile};
use std::alloc::Global;

/// The values that assignment items give, in the order of the text, with the first place of each name.
pub(crate) struct Assigned<'a> {
    places: Places,
    values: Vec<&'a Expr>,
}

impl<'a> Drop for Assigned<'a> {
    fn drop(self) {
        let Assigned {
            places: _places,
            values: _values,
        } = self;
    }
}

impl<'a> Assigned<'a> {
    /// The first value that an assignment item gives a name.
    pub fn value(&self, name: Name) -> Option<&'a Expr>
        ensures { maybe (option_map (λ e. tree e.now) result) ≡ value_found self.now name }
    {
        match self.places.place(name) {
            Some(place) => match self.values.get(place) {
                Some(value) => Some(*value),
                None => None,
            },
            None => None,
        }
    }
}

fn add_names(out: &mut Vec<Name>, items: &[Item]) -> Result<(), Memory>
    ensures { OnOk result (out.new.items ≡ out.old.items ++ flat_map (λ i. name_assigned (tree_of i)) items.now) }
{
    for item in items {
        if let Item::Assign(name, _, _) = item {
            out.push(*name)?;
        }
    }
    Ok(())
}

/// The names of the assignment items of these files.
fn assigned_names(alloc: Global, files: &[SourceFile]) -> Result<Vec<Name>, Memory>
    ensures { IfOk result (λ out. out.items ≡ flat_map (λ f. flat_map (λ i. name_assigned (tree_of i)) f.items.items) files.now) }
{
    let mut out = Vec::new(alloc);
    for file in files {
        add_names(&mut out, file.items.as_slice())?;
    }
    Ok(out)
}

fn add_values<'a>(out: &mut Vec<&'a Expr>, items: &'a [Item]) -> Result<(), Memory>
    ensures { OnOk result (map (λ e. tree e.now) out.new.items ≡ map (λ e. tree e.now) out.old.items ++ flat_map (λ i. value_assigned (tree_of i)) items.now) }
{
    for item in items {
        if let Item::Assign(_, _, value) = item {
            out.push(value)?;
        }
    }
    Ok(())
}

/// The values of the assignment items of these files.
fn assigned_values<'a>(alloc: Global, files: &'a [SourceFile]) -> Result<Vec<&'a Expr>, Memory>
    ensures { IfOk result (λ out. map (λ e. tree e.now) out.items ≡ flat_map (λ f. flat_map (λ i. value_assigned (tree_of i)) f.items.items) files.now) }
{
    let mut out = Vec::new(alloc);
    for file in files {
        add_values(&mut out, file.items.as_slice())?;
    }
    Ok(out)
}

/// The first value that an assignment item of these files gives each name.
pub(crate) fn assigned_in<'a>(
    alloc: Global,
    files: &'a [SourceFile],
) -> Result<Assigned<'a>, Memory>
    ensures { IfOk result (λ table. (n : ℕ) → value_found table n ≡ assigned n (items_of files.now)) }
{
    let names = assigned_names(alloc, files)?;
    let places = Places::of(alloc, names.as_slice())?;
    let values = assigned_values(alloc, files)?;
    Ok(Assigned { places, values })
}
