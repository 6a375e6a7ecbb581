// The occurrences of names in data, and all occurrences of a model with its data.

ghost use Rattle.std.specs.Prelude.{◌≡◌, ◌++◌, OnOk, IfOk, map};
ghost use Rattle.std.specs.List.{flat_map};
ghost use Rattle.std.specs.Option.{option_map};
ghost use Rattle.mz_tree.specs.Data.{value, values, given};
ghost use Rattle.mz_tree.specs.Items.{item as tree_of};
ghost use Rattle.mz_scope_names.specs.Occurrences.{of_case};
ghost use Rattle.mz_scope_names.specs.Given.{identifier, identifiers, cases_in, enum_of, listed, in_given, occurrences};
ghost use Rattle.mz_scope_names.specs.StepsWalk.{items_of};
ghost use Rattle.mz_scope_names.specs.Sets.{holds};

use crate::items::{in_case, in_files};
use crate::occurrence::{Occurrence, Role, note};
use crate::set::NameSet;
use mz_base::{Memory, Name, Span};
use mz_tree::{Data, DataItem, Datum, Item, SourceFile, Sources};
use std::alloc::Global;

#[tactic(auto, unfolding(mz_tree::specs::Data::value))]
fn identifier(datum: &Datum) -> Option<Name>
    ensures { result ≡ identifier (value datum.now) }
{
    match datum {
        Datum::Ident(name) => Some(*name),
        _ => None,
    }
}

/// The identifiers of a list, or None where something else is in it.
fn identifiers(alloc: Global, list: &[Datum]) -> Result<Option<Vec<Name>>, Memory>
    ensures { IfOk result (λ found. option_map (λ v. v.items) found ≡ identifiers (values (map value list.now))) }
{
    let mut names = Vec::new(alloc);
    for datum in list {
        match identifier(datum) {
            Some(name) => names.push(name)?,
            None => return Ok(None),
        }
    }
    Ok(Some(names))
}

/// The cases that a value gives an enum, or None where it is no set or list of identifiers.
#[tactic(auto, unfolding(crate::specs::Given::cases_in, mz_tree::specs::Data::value))]
pub fn cases_in(alloc: Global, datum: &Datum) -> Result<Option<Vec<Name>>, Memory>
    ensures { IfOk result (λ found. option_map (λ v. v.items) found ≡ cases_in (value datum.now)) }
{
    match datum {
        Datum::Set(list) => identifiers(alloc, list.as_slice()),
        Datum::Array(list) => identifiers(alloc, list.as_slice()),
        _ => Ok(None),
    }
}

/// Adds the cases that data lists.
fn in_listed(out: &mut Vec<Occurrence>, cases: &[Name], at: Span) -> Result<(), Memory>
    ensures { OnOk result (out.new.items ≡ out.old.items ++ flat_map (λ c. of_case (c, at)) cases.now) }
{
    for case in cases {
        in_case(out, *case, at)?;
    }
    Ok(())
}

/// Adds what an item of the data gives an enum.
fn in_cases(alloc: Global, out: &mut Vec<Occurrence>, d: &DataItem) -> Result<(), Memory>
    ensures { OnOk result (out.new.items ≡ out.old.items ++ listed d.now.name d.now.at (cases_in (value d.now.datum))) }
{
    match cases_in(alloc, &d.datum)? {
        Some(cases) => {
            note(out, Role::Listed, d.name, d.at)?;
            in_listed(out, cases.as_slice(), d.at)
        }
        None => note(out, Role::Misfit, d.name, d.at),
    }
}

/// Adds the occurrences of an item of the data.
fn in_given(
    alloc: Global,
    out: &mut Vec<Occurrence>,
    enums: &NameSet,
    d: &DataItem,
) -> Result<(), Memory>
    ensures { OnOk result (out.new.items ≡ out.old.items ++ in_given (holds d.now.name enums.now) (given d.now)) }
{
    note(out, Role::Valued, d.name, d.span)?;
    if enums.has(d.name) {
        in_cases(alloc, out, d)?;
    }
    Ok(())
}

fn in_data(
    alloc: Global,
    out: &mut Vec<Occurrence>,
    enums: &NameSet,
    items: &[DataItem],
) -> Result<(), Memory>
    ensures { OnOk result (out.new.items ≡ out.old.items ++ flat_map (λ d. in_given (holds d.name enums.now) (given d)) items.now) }
{
    for d in items {
        in_given(alloc, out, enums, d)?;
    }
    Ok(())
}

/// Adds the names of the enums among these items.
fn add_enums(out: &mut Vec<Name>, items: &[Item]) -> Result<(), Memory>
    ensures { OnOk result (out.new.items ≡ out.old.items ++ flat_map (λ i. enum_of (tree_of i)) items.now) }
{
    for item in items {
        if let Item::Enum(name, _, _) = item {
            out.push(*name)?;
        }
    }
    Ok(())
}

/// The names of the enums of these files, in the order of the text.
fn enum_names(alloc: Global, files: &[SourceFile]) -> Result<Vec<Name>, Memory>
    ensures { IfOk result (λ out. out.items ≡ flat_map (λ f. flat_map (λ i. enum_of (tree_of i)) f.items.items) files.now) }
{
    let mut out = Vec::new(alloc);
    for file in files {
        add_enums(&mut out, file.items.as_slice())?;
    }
    Ok(out)
}

/// All occurrences of names in a model and its data, in the order of the text: first those of the model's files, then those of
/// the data.
pub fn occurrences(
    alloc: Global,
    sources: &Sources,
    given_data: &Data,
) -> Result<Vec<Occurrence>, Memory>
    ensures { IfOk result (λ out. out.items ≡ occurrences (items_of sources.now.files.items) (map given given_data.now.items.items)) }
{
    let enums = NameSet::of(
        alloc,
        enum_names(alloc, sources.files.as_slice())?.as_slice(),
    )?;
    let mut out = Vec::new(alloc);
    in_files(&mut out, sources.files.as_slice())?;
    in_data(alloc, &mut out, &enums, given_data.items.as_slice())?;
    Ok(out)
}
