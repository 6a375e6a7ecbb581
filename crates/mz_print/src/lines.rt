// Which variables have a line in the default text, and where their values stand in a solution.

ghost use Rattle.std.specs.Prelude.{◌≡◌, ◌++◌, ◌<◌, IfOk, OnOk, length, map, nat_eq, not, slice_index};
ghost use Rattle.mz_core.specs.TreeViews.{decl};
ghost use Rattle.mz_meaning.specs.Cells.{is_there};
ghost use Rattle.mz_print.specs.Output.{is_shown};
ghost use Rattle.mz_print.specs.Lines.{line_of, lines_of, place_of};

use mz_base::{Memory, Name};
use mz_core::CoreDecl;
use std::alloc::Global;

/// A line of the default text: a variable's name, and the place of its value in a solution.
#[derive(Clone, Copy, Debug)]
pub struct Line {
    pub name: Name,
    pub value: usize,
}

fn is_at(slots: &[u64], k: usize, slot: u64) -> bool
    requires { k < length slots.now }
    ensures { result ≡ nat_eq (slice_index slots.now k) slot }
{
    slots[k] == slot
}

/// The first place of a slot among these.
pub fn place_of(slot: u64, slots: &[u64]) -> Option<usize>
    ensures { result ≡ place_of slot slots.now }
{
    for k in 0..slots.len() {
        if is_at(slots, k, slot) {
            return Some(k);
        }
    }
    None
}

#[tactic(auto, unfolding(mz_core::specs::Types::plain_type))]
fn is_var(d: &CoreDecl) -> bool
    ensures { result ≡ (decl d.now).ty.ty.var }
{
    d.ty.ty.var
}

fn has_no_value(d: &CoreDecl) -> bool
    ensures { result ≡ not (is_there (decl d.now).value) }
{
    match &d.value {
        None => true,
        Some(_value) => false,
    }
}

fn is_shown(d: &CoreDecl) -> bool
    ensures { result ≡ is_shown (decl d.now) }
{
    is_var(d) && has_no_value(d)
}

fn push_line(d: &CoreDecl, slots: &[u64], lines: &mut Vec<Line>) -> Result<(), Memory>
    ensures { OnOk result (lines.new.items ≡ lines.old.items ++ line_of slots.now (decl d.now)) }
{
    if is_shown(d) {
        if let Some(value) = place_of(d.slot, slots) {
            lines.push(Line {
                name: d.name,
                value,
            })?;
        }
    }
    Ok(())
}

/// The lines of the default text, in the order of the declarations. `slots` has the slot of each value of a solution.
pub fn lines_of(alloc: Global, decls: &[CoreDecl], slots: &[u64]) -> Result<Vec<Line>, Memory>
    ensures { IfOk result (λ lines. lines.items ≡ lines_of slots.now (map decl decls.now)) }
{
    let mut lines = Vec::new(alloc);
    for d in decls {
        push_line(d, slots, &mut lines)?;
    }
    Ok(lines)
}
