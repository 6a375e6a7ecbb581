// Cells of text literals and of the set of all cases.

ghost use Rattle.std.specs.Prelude.{◌≡◌, IfOk, Some, length, map};
ghost use Rattle.std.specs.Option.{option_map};
ghost use Rattle.mz_value.specs.Contents.{text_bytes};
ghost use Rattle.mz_value.specs.Shown.{names_of};
ghost use Rattle.mz_meaning.specs.Cells.{par_value};
ghost use Rattle.mz_meaning.specs.Forms.{text_at, text_cell, all_cases};
ghost use Rattle.mz_symbol.specs.Readings.{Reading};
ghost use Rattle.mz_eval_cells.specs.Views.{cell_of, seen};
ghost use Rattle.mz_eval_scopes.specs.Seen.{world_seen};
ghost use Rattle.mz_eval_scopes.specs.Views.{text_entry, world_of};

use crate::types::World;
use mz_base::Name;
use mz_builtin_arguments::copied_text;
use mz_eval_cells::{Known, set, text, undefined};
use mz_value::{GREATEST, RangeSet, TextValue};
use std::alloc::{AllocError, Global};

// the text of a name, the first one
fn find_text(texts: &[(Name, TextValue)], n: Name) -> Option<&TextValue>
    ensures { option_map (λ t. text_bytes t.now) result ≡ text_at (map text_entry texts.now) n }
{
    for t in texts {
        if t.0 == n {
            return Some(&t.1);
        }
    }
    None
}

/// The text that the program has under this name; undefined where it has none.
pub fn literal_text(alloc: Global, world: &World, n: Name) -> Result<Known, AllocError>
    ensures of { IfOk result (λ k. cell_of k ≡ text_cell (text_at (world_of world.now).texts n)) }
    ensures seen { IfOk result (λ k. (r : Reading) → seen r k ≡ text_cell (text_at (world_seen r world.now).texts n)) }
{
    match find_text(&world.program.texts, n) {
        None => Ok(undefined()),
        Some(t) => copied(alloc, t),
    }
}

fn copied(alloc: Global, t: &TextValue) -> Result<Known, AllocError>
    ensures of { IfOk result (λ k. cell_of k ≡ text_cell (Some (text_bytes t.now))) }
    ensures seen { IfOk result (λ k. (r : Reading) → seen r k ≡ text_cell (Some (text_bytes t.now))) }
{
    let copy = copied_text(alloc, t)?;
    text(alloc, copy)
}

// how many cases an enum has
#[tactic(auto, using(crate::proofs::Counts::count_at, crate::proofs::Counts::no_count_at))]
fn case_count(world: &World, e: u64) -> u64
    ensures { result ≡ length (names_of (world_of world.now).cases e) }
{
    match world.program.cases.names.get(e as usize) {
        None => 0,
        Some(names) => names.len() as u64,
    }
}

/// The set of all cases of the enum with this number.
pub fn all_cases(alloc: Global, world: &World, e: u64) -> Result<Known, AllocError>
    ensures of { IfOk result (λ k. cell_of k ≡ par_value (all_cases (world_of world.now).cases e)) }
    ensures seen { IfOk result (λ k. (r : Reading) → seen r k ≡ par_value (all_cases (world_seen r world.now).cases e)) }
{
    let count = case_count(world, e);
    if count > GREATEST as u64 {
        // that many names take more memory than there can be
        return Err(AllocError);
    }
    let cases = RangeSet::range(alloc, 1, count as i64)?;
    set(alloc, Some(e), cases)
}
