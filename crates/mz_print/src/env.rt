// The cells of top-level names for a solution.

ghost use Rattle.std.specs.Prelude.{◌≡◌, ℕ, IfOk, OnOk, length, map};
ghost use Rattle.mz_value.specs.Contents.{content};
ghost use Rattle.mz_meaning.specs.Cells.{Par, bind};
ghost use Rattle.mz_eval_cells.specs.Views.{cell_of};
ghost use Rattle.mz_eval_scopes.specs.Views.{env_cells};
ghost use Rattle.mz_print.specs.Output.{output_cell, variable_slots};
ghost use Rattle.mz_print.specs.Lines.{value_at};
ghost use Rattle.mz_print.specs.Names.{cells_for, place_in, top_name, top_names};

use crate::names::TopName;
use mz_base::Memory;
use mz_eval::Env;
use mz_eval_cells::{Known, copied_cell, share, undefined};
use mz_value::Value;
use std::alloc::Global;

fn value_cell(alloc: Global, place: Option<usize>, values: &[Value]) -> Result<Known, Memory>
    ensures { IfOk result (λ k. cell_of k ≡ Par (value_at (map content values.now) place)) }
{
    let Some(place) = place else {
        return Ok(undefined());
    };
    if place < values.len() {
        Ok(copied_cell(alloc, &values[place])?)
    } else {
        Ok(undefined())
    }
}

/// The cell of a name: its own, or the value of a decision variable, which has this place in a solution.
fn name_cell(
    alloc: Global,
    name: &TopName,
    place: Option<usize>,
    values: &[Value],
) -> Result<Known, Memory>
    ensures { IfOk result (λ k. cell_of k ≡ output_cell (top_name name.now).fixed (value_at (map content values.now) place)) }
{
    match &name.fixed {
        Some(k) => Ok(share(k)?),
        None => value_cell(alloc, place, values),
    }
}

/// Gives a name its cell.
fn set_name(
    alloc: Global,
    env: &mut Env,
    name: &TopName,
    place: Option<usize>,
    values: &[Value],
) -> Result<(), Memory>
    ensures { OnOk result ((n : ℕ) → env_cells env.new n ≡ bind (top_name name.now).slot (output_cell (top_name name.now).fixed (value_at (map content values.now) place)) (env_cells env.old) n) }
{
    let cell = name_cell(alloc, name, place, values)?;
    env.set_cell(name.slot, cell)?;
    Ok(())
}

/// The cells of all names for a solution's values, by the place of each name among the decision variables.
pub(crate) fn output_env(
    alloc: Global,
    names: &[TopName],
    places: &[Option<usize>],
    values: &[Value],
) -> Result<Env, Memory>
    requires many { length places.now ≡ length names.now }
    requires placed { places.now ≡ map (place_in (variable_slots (top_names names.now))) (top_names names.now) }
    ensures { IfOk result (λ env. (k : ℕ) → env_cells env k ≡ cells_for names.now values.now k) }
{
    let mut env = Env::new(alloc);
    let count = names.len();
    for turn in 0..count {
        // of two names with one slot the first counts
        let k = count - 1 - turn;
        set_name(alloc, &mut env, &names[k], places[k], values)?;
    }
    Ok(env)
}
