// The variables of the model, cell by cell.

ghost use Rattle.std.specs.Prelude.{◌≡◌, IfOk, false, is_some, map, string_bytes, true};
ghost use Rattle.mz_arena.specs.Instances.{model_var, var_cell};
ghost use Rattle.mz_instance.specs.Instance.{AreModelVars, AreOccurring};
ghost use Rattle.fz_program.specs.Flat.{variable};
ghost use Rattle.flat_meaning.specs.Front.{HaveNames};
ghost use Rattle.flat_reif.specs.States.{IsState, state};
ghost use Rattle.flat.specs.Declaring.{AreCellsDeclared, AreVarsDeclared, IsCellDeclared, IsOneDeclared, MayDeclareCell, MayDeclareCells, MayDeclareOne, MayDeclareVars};
ghost use Rattle.flat.specs.Declaring.{occurrence_variable, value_variable};

use crate::domain::value_domain;
use crate::label::{occurrence_label, value_label};
use flat_reif::Flat;
use fz_program::{Domain, FzName, FzVar};
use mz_arena::{Id, ModelVar, VarCell};
use mz_base::{Memory, Names};
use std::alloc::Global;

// A variable of the model.
fn front_variable(label: FzName, domain: Domain, scalar: bool) -> FzVar
    ensures { variable result ≡ record { label = string_bytes label.text; domain = domain; introduced = false; defined = false; output = scalar } }
{
    FzVar {
        label,
        domain,
        introduced: false,
        defined: false,
        output: scalar,
    }
}

// Declares the argument of a node.
fn declare_one(flat: &mut Flat, id: Id, var: FzVar) -> Result<(), Memory>
    requires state { IsState (state flat.old) }
    requires may { MayDeclareOne (state flat.old) id (variable var) }
    ensures { IfOk result (λ _. IsOneDeclared (state flat.old) (state flat.new) id (variable var)) }
{
    let done = given!(flat.declare(id, var));
    Ok(done)
}

// The occurrence of an option.
fn occurrence_variable(alloc: Global, m: &ModelVar, x: &str, k: u64) -> Result<FzVar, Memory>
    ensures { IfOk result (λ v. variable v ≡ occurrence_variable (model_var m.now) x.now k) }
{
    let scalar = m.index.is_none();
    let label = given!(occurrence_label(alloc, scalar, k, x));
    Ok(front_variable(label, Domain::Bool, scalar))
}

// The value of a cell.
fn value_variable(
    alloc: Global,
    m: &ModelVar,
    x: &str,
    k: u64,
    c: &VarCell,
) -> Result<FzVar, Memory>
    ensures { IfOk result (λ v. variable v ≡ value_variable (model_var m.now) x.now k (var_cell c.now)) }
{
    let scalar = m.index.is_none();
    let label = given!(value_label(alloc, scalar, m.opt, k, x));
    let domain = given!(value_domain(alloc, &m.base, &c.domain));
    Ok(front_variable(label, domain, scalar))
}

// Declares the occurrence of an option.
fn declare_occurrence(
    alloc: Global,
    flat: &mut Flat,
    m: &ModelVar,
    x: &str,
    k: u64,
    id: Id,
) -> Result<(), Memory>
    requires state { IsState (state flat.old) }
    requires may { MayDeclareOne (state flat.old) id (occurrence_variable (model_var m.now) x.now k) }
    ensures { IfOk result (λ _. IsOneDeclared (state flat.old) (state flat.new) id (occurrence_variable (model_var m.now) x.now k)) }
{
    let var = given!(occurrence_variable(alloc, m, x, k));
    let done = given!(declare_one(flat, id, var));
    Ok(done)
}

// Declares the value of a cell.
fn declare_value(
    alloc: Global,
    flat: &mut Flat,
    m: &ModelVar,
    x: &str,
    k: u64,
    c: &VarCell,
) -> Result<(), Memory>
    requires state { IsState (state flat.old) }
    requires may { MayDeclareOne (state flat.old) c.now.term (value_variable (model_var m.now) x.now k (var_cell c.now)) }
    ensures { IfOk result (λ _. IsOneDeclared (state flat.old) (state flat.new) c.now.term (value_variable (model_var m.now) x.now k (var_cell c.now))) }
{
    let var = given!(value_variable(alloc, m, x, k, c));
    let done = given!(declare_one(flat, c.term, var));
    Ok(done)
}

// Declares the occurrence and the value of an option.
fn declare_option(
    alloc: Global,
    flat: &mut Flat,
    m: &ModelVar,
    x: &str,
    k: u64,
    c: &VarCell,
) -> Result<(), Memory>
    requires state { IsState (state flat.old) }
    requires opt { m.now.opt ≡ true }
    requires occurs { is_some c.now.occurs ≡ m.now.opt }
    requires may { MayDeclareCell (state flat.old) (model_var m.now) x.now k (var_cell c.now) }
    ensures { IfOk result (λ _. IsCellDeclared (state flat.old) (state flat.new) (model_var m.now) x.now k (var_cell c.now)) }
{
    match c.occurs {
        Some(id) => {
            given!(declare_occurrence(alloc, flat, m, x, k, id));
            let done = given!(declare_value(alloc, flat, m, x, k, c));
            Ok(done)
        }
        None => unreachable!(),
    }
}

// Declares the variables of a cell at the place `k`, from 1.
fn declare_cell(
    alloc: Global,
    flat: &mut Flat,
    m: &ModelVar,
    x: &str,
    k: u64,
    c: &VarCell,
) -> Result<(), Memory>
    requires state { IsState (state flat.old) }
    requires occurs { is_some c.now.occurs ≡ m.now.opt }
    requires may { MayDeclareCell (state flat.old) (model_var m.now) x.now k (var_cell c.now) }
    ensures { IfOk result (λ _. IsCellDeclared (state flat.old) (state flat.new) (model_var m.now) x.now k (var_cell c.now)) }
{
    if m.opt {
        declare_option(alloc, flat, m, x, k, c)
    } else {
        let done = given!(declare_value(alloc, flat, m, x, k, c));
        Ok(done)
    }
}

// Declares the variables of all cells.
fn declare_cells(
    alloc: Global,
    flat: &mut Flat,
    m: &ModelVar,
    x: &str,
    cells: &[VarCell],
) -> Result<(), Memory>
    requires state { IsState (state flat.old) }
    requires occurring { AreOccurring m.now.opt (map var_cell cells.now) }
    requires may { MayDeclareCells (state flat.old) (model_var m.now) x.now (map var_cell cells.now) }
    ensures { IfOk result (λ _. AreCellsDeclared (state flat.old) (state flat.new) (model_var m.now) x.now (map var_cell cells.now)) }
{
    let mut k = 1;
    'cells: for c in cells {
        given!(declare_cell(alloc, flat, m, x, k, c));
        k += 1;
    }
    Ok(())
}

/// Declares the variables of these variables of the model, in order.
pub(crate) fn declare_vars(
    alloc: Global,
    flat: &mut Flat,
    names: &Names,
    vars: &[ModelVar],
) -> Result<(), Memory>
    requires state { IsState (state flat.old) }
    requires names { HaveNames names.now (map model_var vars.now) }
    requires sound { AreModelVars (map model_var vars.now) }
    requires may { MayDeclareVars (state flat.old) names.now (map model_var vars.now) }
    ensures { IfOk result (λ _. AreVarsDeclared (state flat.old) (state flat.new) names.now (map model_var vars.now)) }
{
    'vars: for m in vars {
        let x = names.text(m.name);
        given!(declare_cells(alloc, flat, m, x, m.cells.as_slice()));
    }
    Ok(())
}
