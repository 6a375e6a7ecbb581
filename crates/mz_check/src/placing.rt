// Declarations in source order, and their places there in the order of evaluation.

ghost use Rattle.std.specs.Prelude.{◌≡◌, map, IsPermutation, IfOk};
ghost use Rattle.std.proofs.Common.{set};
ghost use Rattle.mz_core.specs.TreeViews.{decl};
ghost use Rattle.mz_check_meaning.specs.Checks.{StandInSourceOrder};
ghost use Rattle.mz_check.specs.StepsPlacing.{ArePlaces};

use mz_base::Memory;
use mz_core::CoreDecl;
use std::alloc::Global;

/// Where a declaration stands in the source: its file, and its place in the file; at one place by its slot.
fn source_place(d: &CoreDecl) -> (u64, u64, u64)
    ensures { result ≡ ((decl d.now).span.file, (decl d.now).span.byte, (decl d.now).slot) }
{
    (d.span.file, d.span.byte, d.slot)
}

/// Declarations in source order.
pub(crate) fn in_source_order(mut decls: Vec<CoreDecl>) -> Vec<CoreDecl>
    ensures sorted { StandInSourceOrder (map decl result.items) }
    ensures same { IsPermutation decls.items result.items }
{
    decls.sort_unstable_by_key(|d: &CoreDecl| -> (u64, u64, u64) { source_place(d) });
    decls
}

/// The slot of a declaration.
fn slot_of(d: &CoreDecl) -> u64
    ensures { result ≡ (decl d.now).slot }
{
    d.slot
}

/// Notes that a slot has this place, where there is such a slot.
fn set_place(places: &mut Vec<u64>, slot: u64, place: u64)
    ensures { places.new.items ≡ set places.old.items slot place }
{
    if (slot as usize) < places.len() {
        places[slot as usize] = place;
    }
}

/// For each slot the place of its declaration in the list.
pub(crate) fn places_of(alloc: Global, decls: &[CoreDecl]) -> Result<Vec<u64>, Memory>
    ensures { IfOk result (λ v. ArePlaces (map decl decls.now) v.items) }
{
    let mut places = vec![in alloc; 0u64; decls.len()]?;
    for (k, d) in decls.iter().enumerate() {
        set_place(&mut places, slot_of(d), k as u64);
    }
    Ok(places)
}
