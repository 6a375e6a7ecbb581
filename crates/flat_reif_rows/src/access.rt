// Variables for accesses to lists.

ghost use Rattle.std.specs.Prelude.{◌≡◌, IfOk, OnErr, map};
ghost use Rattle.std.specs.List.{list_all};
ghost use Rattle.fz_program.specs.Arguments.{argument, array, plain, plains};
ghost use Rattle.flat_reif_rows.specs.Elements.{AreAccessed, MakesAccess, chosen_row, element_inputs, fixed_row, is_fixed};

use crate::making::defined;
use fz_build::Build;
use fz_program::{Arg, RowName};
use mz_base::Memory;
use std::alloc::Global;

// An array of the elements.
fn array_of(items: Vec<Arg>) -> Arg
    ensures { argument result ≡ array (plains items.items) }
{
    Arg::Array(items)
}

// The index, and the elements in one array.
fn element_inputs(alloc: Global, index: Arg, items: Vec<Arg>) -> Result<Vec<Arg>, Memory>
    ensures { IfOk result (λ all. map argument all.items ≡ element_inputs (argument index) (plains items.items)) }
{
    let list = array_of(items);
    Ok(vec![in alloc; index, list]?)
}

fn is_fixed(a: &Arg) -> bool
    ensures { result ≡ is_fixed (plain a.now) }
{
    match a {
        Arg::Bool(_) => true,
        Arg::Int(_) => true,
        Arg::Set(_) => true,
        Arg::Var(_) => false,
        Arg::Array(_) => false,
    }
}

fn are_fixed(items: &[Arg]) -> bool
    ensures { result ≡ list_all (λ a. is_fixed (plain a)) items.now }
{
    items.iter().all(|a| is_fixed(a))
}

fn fixed_row(name: RowName) -> RowName
    ensures { result ≡ fixed_row name }
{
    match name {
        RowName::ArrayVarIntElement => RowName::ArrayIntElement,
        RowName::ArrayVarBoolElement => RowName::ArrayBoolElement,
        RowName::ArrayVarSetElement => RowName::ArraySetElement,
        name => name,
    }
}

// The row for a list of constants, where these are such.
fn chosen_row(name: RowName, items: &[Arg]) -> RowName
    ensures { result ≡ chosen_row (list_all (λ a. is_fixed (plain a)) items.now) name }
{
    if are_fixed(items) {
        fixed_row(name)
    } else {
        name
    }
}

/// A variable for the element at an index, from 1, of a list that isn't empty.
///
/// The arguments lie within the bounds of an index and of a list of this row's sort, and the index may be
/// a place of the list. Where all elements are constant, the row is the one for such lists.
pub fn made_of_access(
    alloc: Global,
    build: &mut Build,
    name: RowName,
    index: Arg,
    items: Vec<Arg>,
) -> Result<Arg, Memory>
    requires { AreAccessed build.old.vars name (plain index) (plains items.items) }
    ensures makes { IfOk result (λ out. MakesAccess build.old build.new name (plain index) (plains items.items) (plain out)) }
    ensures err { OnErr result (build.new ≡ build.old) }
{
    let row = chosen_row(name, items.as_slice());
    let inputs = given!(element_inputs(alloc, index, items));
    defined(build, row, &inputs)
}
