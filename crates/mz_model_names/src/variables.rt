// Variables that are no arrays.

ghost use Rattle.std.specs.Prelude.{◌≡◌, IfOk};
ghost use Rattle.mz_meaning.specs.Domains.{Scalar};
ghost use Rattle.mz_model_roots.specs.Placed.{place_over};
ghost use Rattle.mz_model_names.specs.Named.{IsVarOver, held_name};

use crate::roots::one_roots;
use crate::types::{HeldName, Kind, Label};
use mz_base::Memory;
use mz_eval_cells::Known;
use mz_model_roots::{one_place, place_cell};
use mz_symbol::Run;
use mz_value::RangeSet;
use std::alloc::Global;

/// The next name, a variable over this set, where the names so far have this number of parts.
#[tactic(auto, using(crate::proofs::VarNames::one_var))]
pub(crate) fn one_name(
    alloc: Global,
    run: &mut Run,
    number: u64,
    label: Label,
    set: RangeSet,
    value: Option<Known>,
) -> Result<HeldName, Memory>
    ensures label { IfOk result (λ h. h.label ≡ label) }
    ensures var { IfOk result (λ h. IsVarOver (Scalar (place_over label.base label.opt set)) value run.old run.new (held_name h)) }
{
    let place = one_place(run, number, label.base, label.opt, set)?;
    let cell = place_cell(alloc, run, &place)?;
    let roots = one_roots(alloc, run, &place, &value)?;
    Ok(HeldName {
        label,
        kind: Kind::One(place),
        cell,
        value,
        roots,
    })
}
