// The cell of a slot.

ghost use Rattle.std.specs.Prelude.{◌≡◌, IfOk, MatchOption, map};
ghost use Rattle.mz_meaning.specs.Cells as meaning;
ghost use Rattle.mz_meaning.specs.Cells.{bind_all};
ghost use Rattle.mz_symbol.specs.Readings.{Reading};
ghost use Rattle.mz_eval_cells.specs.Views.{cell_of, seen};
ghost use Rattle.mz_eval_scopes.specs.Seen.{env_seen};
ghost use Rattle.mz_eval_scopes.specs.Views.{View, env_by, env_of};

use crate::types::{Scope, World};
use mz_eval_cells::{Known, share, undefined};
use std::alloc::AllocError;

// the cell of a slot among these, of which the last of the same slot counts
#[tactic(auto, using(crate::proofs::Searched::next_name, crate::proofs::Searched::this_name, crate::proofs::Slots::all_of_them))]
fn find<'a>(slots: &[u64], cells: &'a [Known], slot: u64) -> Option<&'a Known>
    ensures { MatchOption result
        ((see : View) (env : meaning.Env) → bind_all slots.now (map see cells.now) env slot ≡ env slot)
        (λ k. (see : View) (env : meaning.Env) → bind_all slots.now (map see cells.now) env slot ≡ see k.now) }
{
    let mut n = slots.len().min(cells.len());
    'names: while n > 0 {
        n -= 1;
        if slots[n] == slot {
            return Some(&cells[n]);
        }
    }
    None
}

/// The cell of a slot, the innermost one, however cells are seen; `None` where it is undefined because
/// nothing has set it. Takes no memory.
pub fn seek<'a>(world: &'a World<'a>, scope: &'a Scope<'a>, slot: u64) -> Option<&'a Known>
    ensures { MatchOption result
        ((see : View) → env_by see world.now scope.now slot ≡ meaning.undefined)
        (λ k. (see : View) → env_by see world.now scope.now slot ≡ see k.now) }
{
    match scope {
        Scope::Top => world.env.cell(slot),
        Scope::Bound(s, k, rest) => {
            if slot == *s {
                Some(k)
            } else {
                seek(world, rest, slot)
            }
        }
        Scope::Frame(slots, cells, rest) => match find(slots, cells, slot) {
            Some(k) => Some(k),
            None => seek(world, rest, slot),
        },
    }
}

/// The cell of a slot once more; what is large in it is shared, not copied.
pub fn at_slot(world: &World, scope: &Scope, slot: u64) -> Result<Known, AllocError>
    ensures of { IfOk result (λ k. cell_of k ≡ env_of world.now scope.now slot) }
    ensures seen { IfOk result (λ k. (r : Reading) → seen r k ≡ env_seen r world.now scope.now slot) }
{
    match seek(world, scope, slot) {
        None => Ok(undefined()),
        Some(k) => {
            let same = share(k)?;
            Ok(same)
        }
    }
}
