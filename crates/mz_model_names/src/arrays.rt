// Arrays of variables.

ghost use Rattle.std.specs.Prelude.{◌≡◌, IfOk, map};
ghost use Rattle.mz_meaning.specs.Domains.{Places};
ghost use Rattle.mz_model_roots.specs.Placed.{place_over};
ghost use Rattle.mz_model_names.specs.Named.{IsVarOver, held_name};

use crate::roots::many_roots;
use crate::types::{HeldName, Kind, Label};
use mz_base::Memory;
use mz_eval_cells::Known;
use mz_model_roots::array_cell;
use mz_symbol::Run;
use mz_value::RangeSet;
use std::alloc::Global;

/// The next name, an array of variables with these index ranges over these sets, where the names so
/// far have this number of parts.
#[tactic(auto, using(crate::proofs::VarNames::many_var))]
pub(crate) fn many_name(
    alloc: Global,
    run: &mut Run,
    number: u64,
    label: Label,
    index: Vec<(i64, i64)>,
    sets: Vec<RangeSet>,
    value: Option<Known>,
) -> Result<HeldName, Memory>
    ensures label { IfOk result (λ h. h.label ≡ label) }
    ensures var { IfOk result (λ h. IsVarOver (Places index.items (map (place_over label.base label.opt) sets.items)) value run.old run.new (held_name h)) }
{
    let ranges = Vec::from_slice(alloc, &index)?;
    let (cell, places) = array_cell(alloc, run, number, label.base, label.opt, ranges, sets)?;
    let roots = many_roots(alloc, run, &index, &places, label.base, &value)?;
    Ok(HeldName {
        label,
        kind: Kind::Many(index, places),
        cell,
        value,
        roots,
    })
}
