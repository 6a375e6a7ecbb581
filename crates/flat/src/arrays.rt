// The arrays of the model.

ghost use Rattle.std.specs.Prelude.{◌≡◌, ◌∷◌, ◌++◌, [], IfOk, OnOk, Some, map, string_bytes};
ghost use Rattle.mz_arena.specs.Instances.{model_var, var_cell};
ghost use Rattle.fz_program.specs.Arguments.{plain};
ghost use Rattle.fz_program.specs.Flat.{array_item};
ghost use Rattle.flat_meaning.specs.Front.{HaveNames};
ghost use Rattle.flat_reif.specs.States.{IsState, state};
ghost use Rattle.flat.specs.Arrays.{AreAdded, HasVariable, HaveAllElements, HaveElements, HaveVariables, MayAddArrays};
ghost use Rattle.flat.specs.Arrays.{all_arrays, array_over, arrays_at, arrays_by, as_ids, as_place, occurrence_ids, occurrences_over, option_arrays, place_at, value_ids, values_over};

use crate::label::{occurrence_name, own_name, value_name};
use flat_reif::Flat;
use fz_program::{Arg, FzArray, FzName};
use mz_arena::{Id, ModelVar, VarCell};
use mz_base::{Memory, Names};
use std::alloc::Global;

// The place of the variable that an argument is; 0 of any other.
fn as_place(a: &Arg) -> u64
    ensures { result ≡ as_place (Some (plain a.now)) }
{
    match a {
        Arg::Var(k) => *k,
        _ => 0,
    }
}

// The place of the variable that is the argument of a node.
fn place(flat: &Flat, id: Id) -> Result<u64, Memory>
    requires { HasVariable (state flat.now).args id }
    ensures { IfOk result (λ k. k ≡ place_at (state flat.now).args id) }
{
    let a = given!(flat.arg(id));
    Ok(as_place(&a))
}

// The places of the variables that are these nodes' arguments.
fn places(alloc: Global, flat: &Flat, ids: &[Id]) -> Result<Vec<u64>, Memory>
    requires { HaveVariables (state flat.now).args ids.now }
    ensures { IfOk result (λ ps. ps.items ≡ map (place_at (state flat.now).args) ids.now) }
{
    let mut all = Vec::new(alloc);
    'ids: for id in ids {
        let k = given!(place(flat, *id));
        all.push(k)?;
    }
    Ok(all)
}

// The nodes of the values.
fn value_ids(alloc: Global, cells: &[VarCell]) -> Result<Vec<Id>, Memory>
    ensures { IfOk result (λ ids. ids.items ≡ value_ids (map var_cell cells.now)) }
{
    let mut all = Vec::new(alloc);
    'cells: for c in cells {
        all.push(c.term)?;
    }
    Ok(all)
}

// Adds an id, where there is one.
fn push_some(all: &mut Vec<Id>, o: Option<Id>) -> Result<(), Memory>
    ensures { OnOk result (all.new.items ≡ all.old.items ++ as_ids o) }
{
    match o {
        Some(id) => {
            all.push(id)?;
            Ok(())
        }
        None => Ok(()),
    }
}

// The nodes of the occurrences.
fn occurrence_ids(alloc: Global, cells: &[VarCell]) -> Result<Vec<Id>, Memory>
    ensures { IfOk result (λ ids. ids.items ≡ occurrence_ids (map var_cell cells.now)) }
{
    let mut all = Vec::new(alloc);
    'cells: for c in cells {
        given!(push_some(&mut all, c.occurs));
    }
    Ok(all)
}

// A copy of index ranges.
fn copied_index(alloc: Global, ranges: &[(i64, i64)]) -> Result<Vec<(i64, i64)>, Memory>
    ensures { IfOk result (λ all. all.items ≡ ranges.now) }
{
    let mut all = Vec::new(alloc);
    all.extend_from_slice(ranges)?;
    Ok(all)
}

// An array of the model.
fn array(label: FzName, index: Vec<(i64, i64)>, items: Vec<u64>) -> FzArray
    ensures { array_item result ≡ record { label = string_bytes label.text; index = index.items; items = items.items } }
{
    FzArray {
        label,
        index,
        items,
    }
}

// Adds an array of the variables that are these nodes' arguments.
fn add_array(
    alloc: Global,
    flat: &mut Flat,
    label: FzName,
    ranges: &[(i64, i64)],
    ids: &[Id],
) -> Result<(), Memory>
    requires state { IsState (state flat.old) }
    requires have { HaveVariables (state flat.old).args ids.now }
    requires may { MayAddArrays (state flat.old) (array_over (state flat.old).args (string_bytes label.text) ranges.now ids.now ∷ []) }
    ensures { IfOk result (λ _. AreAdded (state flat.old) (state flat.new) (array_over (state flat.old).args (string_bytes label.text) ranges.now ids.now ∷ [])) }
{
    let index = given!(copied_index(alloc, ranges));
    let items = given!(places(alloc, flat, ids));
    let done = given!(flat.array(array(label, index, items)));
    Ok(done)
}

// Adds the array of the values of cells.
fn add_values(
    alloc: Global,
    flat: &mut Flat,
    label: FzName,
    ranges: &[(i64, i64)],
    cells: &[VarCell],
) -> Result<(), Memory>
    requires state { IsState (state flat.old) }
    requires have { HaveElements (state flat.old).args (map var_cell cells.now) }
    requires may { MayAddArrays (state flat.old) (values_over (state flat.old) (string_bytes label.text) ranges.now (map var_cell cells.now) ∷ []) }
    ensures { IfOk result (λ _. AreAdded (state flat.old) (state flat.new) (values_over (state flat.old) (string_bytes label.text) ranges.now (map var_cell cells.now) ∷ [])) }
{
    let ids = given!(value_ids(alloc, cells));
    let done = given!(add_array(alloc, flat, label, ranges, ids.as_slice()));
    Ok(done)
}

// Adds the array of the occurrences of options.
fn add_occurrences(
    alloc: Global,
    flat: &mut Flat,
    label: FzName,
    ranges: &[(i64, i64)],
    cells: &[VarCell],
) -> Result<(), Memory>
    requires state { IsState (state flat.old) }
    requires have { HaveElements (state flat.old).args (map var_cell cells.now) }
    requires may { MayAddArrays (state flat.old) (occurrences_over (state flat.old) (string_bytes label.text) ranges.now (map var_cell cells.now) ∷ []) }
    ensures { IfOk result (λ _. AreAdded (state flat.old) (state flat.new) (occurrences_over (state flat.old) (string_bytes label.text) ranges.now (map var_cell cells.now) ∷ [])) }
{
    let ids = given!(occurrence_ids(alloc, cells));
    let done = given!(add_array(alloc, flat, label, ranges, ids.as_slice()));
    Ok(done)
}

// Adds the array of the occurrences and that of the values of options.
fn add_option_arrays(
    alloc: Global,
    flat: &mut Flat,
    x: &str,
    ranges: &[(i64, i64)],
    cells: &[VarCell],
) -> Result<(), Memory>
    requires state { IsState (state flat.old) }
    requires have { HaveElements (state flat.old).args (map var_cell cells.now) }
    requires may { MayAddArrays (state flat.old) (option_arrays (state flat.old) x.now ranges.now (map var_cell cells.now)) }
    ensures { IfOk result (λ _. AreAdded (state flat.old) (state flat.new) (option_arrays (state flat.old) x.now ranges.now (map var_cell cells.now))) }
{
    let occurrence = given!(occurrence_name(alloc, x));
    given!(add_occurrences(alloc, flat, occurrence, ranges, cells));
    let value = given!(value_name(alloc, x));
    let done = given!(add_values(alloc, flat, value, ranges, cells));
    Ok(done)
}

// Adds the arrays of a variable with index ranges.
fn add_indexed(
    alloc: Global,
    flat: &mut Flat,
    x: &str,
    opt: bool,
    ranges: &[(i64, i64)],
    cells: &[VarCell],
) -> Result<(), Memory>
    requires state { IsState (state flat.old) }
    requires have { HaveElements (state flat.old).args (map var_cell cells.now) }
    requires may { MayAddArrays (state flat.old) (arrays_by (state flat.old).args (Some ranges.now) opt x.now (map var_cell cells.now)) }
    ensures { IfOk result (λ _. AreAdded (state flat.old) (state flat.new) (arrays_by (state flat.old).args (Some ranges.now) opt x.now (map var_cell cells.now))) }
{
    if opt {
        add_option_arrays(alloc, flat, x, ranges, cells)
    } else {
        let label = given!(own_name(alloc, x));
        let done = given!(add_values(alloc, flat, label, ranges, cells));
        Ok(done)
    }
}

// Adds the arrays of a variable.
fn add_var_arrays(alloc: Global, flat: &mut Flat, x: &str, m: &ModelVar) -> Result<(), Memory>
    requires state { IsState (state flat.old) }
    requires have { HaveElements (state flat.old).args (model_var m.now).cells }
    requires may { MayAddArrays (state flat.old) (arrays_at (state flat.old).args x.now (model_var m.now)) }
    ensures { IfOk result (λ _. AreAdded (state flat.old) (state flat.new) (arrays_at (state flat.old).args x.now (model_var m.now))) }
{
    match &m.index {
        None => Ok(()),
        Some(ranges) => {
            let cells = m.cells.as_slice();
            let done = given!(add_indexed(alloc, flat, x, m.opt, ranges.as_slice(), cells));
            Ok(done)
        }
    }
}

/// Adds the arrays of these variables of the model, in order.
pub(crate) fn add_arrays(
    alloc: Global,
    flat: &mut Flat,
    names: &Names,
    vars: &[ModelVar],
) -> Result<(), Memory>
    requires state { IsState (state flat.old) }
    requires names { HaveNames names.now (map model_var vars.now) }
    requires have { HaveAllElements (state flat.old).args (map model_var vars.now) }
    requires may { MayAddArrays (state flat.old) (all_arrays (state flat.old).args names.now (map model_var vars.now)) }
    ensures { IfOk result (λ _. AreAdded (state flat.old) (state flat.new) (all_arrays (state flat.old).args names.now (map model_var vars.now))) }
{
    'vars: for m in vars {
        let x = names.text(m.name);
        given!(add_var_arrays(alloc, flat, x, m));
    }
    Ok(())
}
