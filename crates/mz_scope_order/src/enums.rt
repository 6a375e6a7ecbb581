// The enums of a model, with the cases that their items or the data give.

ghost use Rattle.std.specs.Prelude.{◌≡◌, ◌++◌, IfOk, OnOk, map};
ghost use Rattle.std.specs.List.{flat_map};
ghost use Rattle.std.specs.Option.{option_map};
ghost use Rattle.mz_tree.specs.Data.{given, value};
ghost use Rattle.mz_tree.specs.Items.{item as tree_of};
ghost use Rattle.mz_scope_names.specs.Given.{cases_in};
ghost use Rattle.mz_scope_names.specs.StepsWalk.{items_of};
ghost use Rattle.mz_scope_order.specs.Parts.{cases_at, enums_of};
ghost use Rattle.mz_scope_order.specs.Scoped.{enum_tree};
ghost use Rattle.mz_scope_order.specs.StepsParts.{cases_of_given, own_cases, enum_by};
ghost use Rattle.mz_scope_order.specs.StepsTables.{item_found};

use crate::data_items::{Listing, listed_in};
use crate::scoped::ScopedEnum;
use mz_base::{Memory, Name, Span};
use mz_scope_names::cases_in;
use mz_tree::{DataItem, Item, SourceFile};
use std::alloc::Global;

/// These names, each with the place of the value.
fn placed(alloc: Global, names: &[Name], at: Span) -> Result<Vec<(Name, Span)>, Memory>
    ensures { IfOk result (λ out. out.items ≡ map (λ n. (n, at)) names.now) }
{
    let mut out = Vec::new(alloc);
    for name in names {
        out.push((*name, at))?;
    }
    Ok(out)
}

/// The cases that an item of the data gives, with the place of its value.
fn cases_of_item(alloc: Global, d: &DataItem) -> Result<Vec<(Name, Span)>, Memory>
    ensures { IfOk result (λ out. out.items ≡ cases_at d.now.at (cases_in (value d.now.datum))) }
{
    match cases_in(alloc, &d.datum)? {
        Some(names) => placed(alloc, names.as_slice(), d.at),
        None => Ok(Vec::new(alloc)),
    }
}

/// The cases that the data gives a name.
fn given_cases(alloc: Global, name: Name, table: &Listing<'_>) -> Result<Vec<(Name, Span)>, Memory>
    ensures { IfOk result (λ out. out.items ≡ cases_of_given (item_found table.now name)) }
{
    match table.item(name) {
        Some(d) => cases_of_item(alloc, d),
        None => Ok(Vec::new(alloc)),
    }
}

/// The cases of an enum: those of its item, or else those that the data gives.
fn all_cases(
    alloc: Global,
    name: Name,
    cases: &Option<Vec<(Name, Span)>>,
    table: &Listing<'_>,
) -> Result<Vec<(Name, Span)>, Memory>
    ensures { IfOk result (λ out. out.items ≡ own_cases (option_map (λ v. v.items) cases.now) (cases_of_given (item_found table.now name))) }
{
    match cases {
        Some(own) => {
            let copy = Vec::from_slice(alloc, own.as_slice())?;
            Ok(copy)
        }
        None => given_cases(alloc, name, table),
    }
}

fn add_enums(
    alloc: Global,
    out: &mut Vec<ScopedEnum>,
    table: &Listing<'_>,
    items: &[Item],
) -> Result<(), Memory>
    ensures { OnOk result (map enum_tree out.new.items ≡ map enum_tree out.old.items ++ flat_map (λ i. enum_by (item_found table.now) (tree_of i)) items.now) }
{
    for item in items {
        if let Item::Enum(name, span, listed) = item {
            let cases = all_cases(alloc, *name, listed, table)?;
            out.push(ScopedEnum {
                name: *name,
                span: *span,
                cases,
            })?;
        }
    }
    Ok(())
}

/// The enums of these files, with the cases that their items or the data give.
pub(crate) fn enums_of(
    alloc: Global,
    files: &[SourceFile],
    items: &[DataItem],
) -> Result<Vec<ScopedEnum>, Memory>
    ensures { IfOk result (λ out. map enum_tree out.items ≡ enums_of (items_of files.now) (map given items.now)) }
{
    let table = listed_in(alloc, items)?;
    let mut out = Vec::new(alloc);
    for file in files {
        add_enums(alloc, &mut out, &table, file.items.as_slice())?;
    }
    Ok(out)
}
