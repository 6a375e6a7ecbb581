// The test that the parts of places have their nodes.

ghost use Rattle.std.specs.Prelude.{◌≡◌, false, true, IfOk, length};
ghost use Rattle.mz_symbol.specs.Symbols.{domain_of, symbol_ids};
ghost use Rattle.mz_symbol.specs.Choices.{domain_parts};
ghost use Rattle.mz_instance.specs.Parts.{IsNode, AreNodes, occurrence};
ghost use Rattle.mz_symbol.specs.StepsChoices.{part_over};
ghost use Rattle.mz_model_state.specs.Placed.{ArePlaced};
ghost use Rattle.mz_model_state.specs.StepsParts.{IsVarKind, IsOption, IsPlace, IsPlacedAt};

use mz_arena::{Arena, Id, Node, NodeKind};
use mz_base::Memory;
use mz_builtin_arguments::same_set;
use mz_core::Base;
use mz_symbol::{Free, Run};
use mz_value::RangeSet;

/// Whether a node is a variable whose values are of a base.
fn has_kind(n: Node, base: Base) -> bool
    ensures { result ≡ true → IsVarKind base n }
{
    match base {
        Base::Bool => match n.kind {
            NodeKind::Var => n.c == 1,
            _ => false,
        },
        Base::SetInt => match n.kind {
            NodeKind::SetVar => true,
            _ => false,
        },
        Base::SetEnum(_) => match n.kind {
            NodeKind::SetVar => true,
            _ => false,
        },
        _ => match n.kind {
            NodeKind::Var => n.c == 0,
            _ => false,
        },
    }
}

/// Whether a node is the variable with this number, of this base and over this set.
#[tactic(auto, using(crate::proofs::PartNodes::const_there, crate::proofs::PartNodes::is_node))]
fn is_part(arena: &Arena, id: Id, number: u64, base: Base, set: &RangeSet) -> bool
    ensures { result ≡ true → IsNode arena.now false number (part_over base set.now) id }
{
    if id >= arena.len() {
        return false;
    }
    let n = arena.node(id);
    if !has_kind(n, base) {
        return false;
    }
    if n.b != number {
        return false;
    }
    same_set(arena.set(n.a), set)
}

/// Whether a node is the variable with this number that tells whether an option is there.
#[tactic(auto, using(crate::proofs::PartNodes::is_occurrence))]
fn is_occurrence(arena: &Arena, id: Id, number: u64) -> bool
    ensures { result ≡ true → IsNode arena.now false number occurrence id }
{
    if id >= arena.len() {
        return false;
    }
    let n = arena.node(id);
    if !has_kind(n, Base::Bool) {
        return false;
    }
    n.b == number
}

fn is_option(arena: &Arena, number: u64, occurs: Id, f: &Free) -> bool
    ensures { result ≡ true → IsOption arena.now number occurs f.now }
{
    if number == u64::MAX {
        return false;
    }
    if !is_occurrence(arena, occurs, number) {
        return false;
    }
    is_part(arena, f.symbol.term, number + 1, f.symbol.base, &f.set)
}

/// Whether the parts of a place have their nodes, the first with this number.
#[tactic(auto, using(crate::proofs::PartNodes::one_part, crate::proofs::PartNodes::two_parts))]
fn is_place(arena: &Arena, number: u64, f: &Free) -> bool
    ensures { result ≡ true → AreNodes arena.now false number (symbol_ids f.now.symbol) (domain_parts (domain_of f.now)) }
{
    match f.symbol.occurs {
        None => is_part(arena, f.symbol.term, number, f.symbol.base, &f.set),
        Some(o) => is_option(arena, number, o, f),
    }
}

/// How many parts a place has.
fn part_count(f: &Free) -> u64
    ensures { result ≡ length (symbol_ids f.now.symbol) }
{
    match f.symbol.occurs {
        None => 1,
        Some(_) => 2,
    }
}

/// The number after the parts of a place that have their nodes, the first with this number.
fn after_place(arena: &Arena, number: u64, f: &Free) -> Result<u64, Memory>
    ensures { IfOk result (IsPlace arena.now number f.now) }
{
    if !is_place(arena, number, f) {
        return Err(Memory);
    }
    let count = part_count(f);
    if number > u64::MAX - count {
        return Err(Memory);
    }
    Ok(number + count)
}

/// The same of the place at this number, from 0.
fn after_place_at(arena: &Arena, number: u64, places: &[Free], i: usize) -> Result<u64, Memory>
    ensures { IfOk result (IsPlacedAt arena.now number places.now i) }
{
    match places.get(i) {
        None => Err(Memory),
        Some(f) => {
            let n = after_place(arena, number, f)?;
            Ok(n)
        }
    }
}

/// The test that the parts of a name's places have their nodes, the first with this number; gives the
/// number after them. One pass over the places and their sets.
///
/// Out of memory too where it isn't so. No walk comes to that.
#[tactic(auto, using(crate::proofs::PartNodes::placed_none))]
pub fn test_places(run: &Run, number: u64, places: &[Free]) -> Result<u64, Memory>
    ensures { IfOk result (ArePlaced run.now number places.now) }
{
    let arena = run.arena();
    let mut next = number;
    for i in 0..places.len() {
        next = after_place_at(arena, next, places, i)?;
    }
    Ok(next)
}
