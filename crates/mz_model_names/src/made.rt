// The next name, by the form of its declaration.

ghost use Rattle.std.specs.Prelude.{◌≡◌, IfOk, false, true};
ghost use Rattle.mz_core.specs.Types.{plain_type};
ghost use Rattle.mz_eval_cells.specs.Views.{seen};
ghost use Rattle.mz_model_state.specs.Names.{par_held};
ghost use Rattle.mz_model_names.specs.declared.forms.Form.TheVariants as form;
ghost use Rattle.mz_model_names.specs.Named.{IsLabelOf, IsNameOver, held_name};

use crate::Form;
use crate::arrays::many_name;
use crate::types::{HeldName, Kind, Label};
use crate::variables::one_name;
use mz_base::{Memory, Name};
use mz_core::TypeInst;
use mz_eval_cells::Known;
use mz_model_state::{names_are_added, roots_tell_values};
use mz_symbol::Run;
use mz_value::RangeSet;
use std::alloc::Global;

/// A par name with this cell.
fn par_name(alloc: Global, label: Label, k: Known) -> HeldName
    ensures label { result.label ≡ label }
    ensures name { held_name result ≡ par_held label.slot (λ r. seen r k) }
{
    HeldName {
        label,
        kind: Kind::Par,
        cell: k,
        value: None,
        roots: Vec::new(alloc),
    }
}

/// What the values of names of a type are.
#[tactic(auto, unfolding(mz_core::specs::Types::plain_type))]
fn label_of(slot: u64, name: Name, t: &TypeInst) -> Label
    ensures { IsLabelOf slot name (plain_type t.now) result }
{
    Label {
        slot,
        name,
        base: t.base,
        opt: t.opt,
    }
}

#[tactic(auto, unfolding(mz_core::specs::Types::plain_type))]
fn is_var(t: &TypeInst) -> bool
    ensures { result ≡ (plain_type t.now).var }
{
    t.var
}

#[tactic(auto, unfolding(mz_core::specs::Types::plain_type))]
fn is_par(t: &TypeInst) -> bool
    ensures { result ≡ false → (plain_type t.now).var ≡ true }
{
    !t.var
}

fn of_par(
    alloc: Global,
    run: &Run,
    label: Label,
    t: &TypeInst,
    k: Known,
) -> Result<HeldName, Memory>
    ensures label { IfOk result (λ h. h.label ≡ label) }
    ensures name { IfOk result (λ h. IsNameOver (plain_type t.now) (form.Par k) run.now run.now (held_name h)) }
{
    names_are_added();
    roots_tell_values();
    if is_var(t) {
        return Err(Memory);
    }
    Ok(par_name(alloc, label, k))
}

fn of_one(
    alloc: Global,
    run: &mut Run,
    number: u64,
    label: Label,
    t: &TypeInst,
    set: RangeSet,
    value: Option<Known>,
) -> Result<HeldName, Memory>
    requires { IsLabelOf label.slot label.name (plain_type t.now) label }
    ensures label { IfOk result (λ h. h.label ≡ label) }
    ensures name { IfOk result (λ h. IsNameOver (plain_type t.now) (form.One set value) run.old run.new (held_name h)) }
{
    names_are_added();
    if is_par(t) {
        return Err(Memory);
    }
    let h = one_name(alloc, run, number, label, set, value)?;
    Ok(h)
}

fn of_many(
    alloc: Global,
    run: &mut Run,
    number: u64,
    label: Label,
    t: &TypeInst,
    parts: (Vec<(i64, i64)>, Vec<RangeSet>),
    value: Option<Known>,
) -> Result<HeldName, Memory>
    requires { IsLabelOf label.slot label.name (plain_type t.now) label }
    ensures label { IfOk result (λ h. h.label ≡ label) }
    ensures name { IfOk result (λ h. IsNameOver (plain_type t.now) (form.Many parts.0 parts.1 value) run.old run.new (held_name h)) }
{
    names_are_added();
    if is_par(t) {
        return Err(Memory);
    }
    let (index, sets) = parts;
    let h = many_name(alloc, run, number, label, index, sets, value)?;
    Ok(h)
}

/// The name of this form, the next one, where the names so far have this number of parts: with its
/// places, which are the next variables of the run, its cell and its roots.
///
/// Out of memory too where a variable may not have its domain, and where its value can't be compared
/// with it: where it is of another base, has other index ranges, or alone is an option. So also where
/// a par name has the form of a variable, or a variable that of a par name.
pub fn held(
    alloc: Global,
    run: &mut Run,
    number: u64,
    slot: u64,
    name: Name,
    t: &TypeInst,
    form: Form,
) -> Result<HeldName, Memory>
    ensures label { IfOk result (λ h. IsLabelOf slot name (plain_type t.now) h.label) }
    ensures name { IfOk result (λ h. IsNameOver (plain_type t.now) form run.old run.new (held_name h)) }
{
    let label = label_of(slot, name, t);
    match form {
        Form::Par(k) => of_par(alloc, run, label, t, k),
        Form::One(set, value) => of_one(alloc, run, number, label, t, set, value),
        Form::Many(index, sets, value) => {
            of_many(alloc, run, number, label, t, (index, sets), value)
        }
    }
}
