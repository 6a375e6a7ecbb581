// The lines of the bytes that are held, up to the first that gives an event or is bad.

ghost use Rattle.std.specs.Prelude.{◌≡◌, ◌<◌, ◌≤◌, ◌+◌, ◌-◌, ◌^◌, [], length};
ghost use Rattle.fz_items.specs.Forms.{forms, outputs_from};
ghost use Rattle.soln_reader.specs.Stream.{line_len};
ghost use Rattle.fz_items.specs.Tables.{Finds};
ghost use Rattle.soln_reader.specs.StepsUndo.{Restores};
ghost use Rattle.soln_reader.specs.StepsWalk.{Follows, IsUntouched, is_short};
ghost use Rattle.soln_reader.specs.Views.{block_of};

use crate::block::Given;
use crate::next::Mark;
use crate::step::{Step, first_step};
use crate::undo::{note, restore};
use fz_items::{Slot, Table};
use mz_value::{Assign, Shape};
use std::alloc::Global;

/// Where a walk over lines ends.
#[derive(Drop)]
pub(crate) enum Stop {
    Solved(Assign),
    Marked(Mark),
    Bad,
    NoLine,
    Memory,
}

/// A walk over lines: where it ends, how many bytes it took, and how many lines stand before the rest.
#[derive(Drop)]
pub(crate) struct Walk {
    pub stop: Stop,
    pub taken: usize,
    pub lines: u32,
}

impl Stop {
    fn is_short(&self) -> bool
        ensures { result ≡ is_short self.now }
    {
        match self {
            Stop::Memory => true,
            Stop::Solved(_) => false,
            Stop::Marked(_) => false,
            Stop::Bad => false,
            Stop::NoLine => false,
        }
    }
}

/// Goes over lines, and gives the slots that they filled too. The first `seen` bytes are known to have no newline.
fn pass_lines(
    alloc: Global,
    shapes: &[Shape],
    table: &Table,
    ended: bool,
    bytes: &[u8],
    seen: usize,
    lines: u32,
    block: &mut Option<Vec<Given>>,
) -> (Walk, Vec<Slot>)
    requires table { Finds table.now (outputs_from 0 (forms shapes.now)) }
    requires seen { seen ≤ line_len bytes.now }
    requires few { lines + length bytes.now < 2 ^ 32 }
    ensures walks { Follows (forms shapes.now) ended lines (block_of block.old) bytes.now (block_of block.new) result.0 (Restores result.1.items (block_of block.old) (block_of block.new)) }
    ensures within { result.0.taken ≤ length bytes.now }
    ensures few { result.0.lines + (length bytes.now - result.0.taken) ≤ lines + length bytes.now }
{
    let mut slots = Vec::new(alloc);
    let mut at = 0;
    let mut passed = lines;
    let mut known = seen;
    'lines: loop {
        match first_step(alloc, shapes, table, ended, &bytes[at..], known, block) {
            Step::Passed(filled, n) => {
                at += n;
                passed += 1;
                known = 0;
                if !note(block, &mut slots, filled) {
                    let walk = Walk {
                        stop: Stop::Memory,
                        taken: at,
                        lines: passed,
                    };
                    return (walk, slots);
                }
            }
            Step::Solved(a, n) => {
                let walk = Walk {
                    stop: Stop::Solved(a),
                    taken: at + n,
                    lines: passed + 1,
                };
                return (walk, slots);
            }
            Step::Marked(m, n) => {
                let walk = Walk {
                    stop: Stop::Marked(m),
                    taken: at + n,
                    lines: passed + 1,
                };
                return (walk, slots);
            }
            Step::Bad(n) => {
                let walk = Walk {
                    stop: Stop::Bad,
                    taken: at + n,
                    lines: passed + 1,
                };
                return (walk, slots);
            }
            Step::NoLine => {
                let walk = Walk {
                    stop: Stop::NoLine,
                    taken: at,
                    lines: passed,
                };
                return (walk, slots);
            }
            Step::Memory => {
                let walk = Walk {
                    stop: Stop::Memory,
                    taken: at,
                    lines: passed,
                };
                return (walk, slots);
            }
        }
    }
}

/// Goes over lines. Where memory runs out, nothing is taken and the block is as before.
pub(crate) fn walk_lines(
    alloc: Global,
    shapes: &[Shape],
    table: &Table,
    ended: bool,
    bytes: &[u8],
    seen: usize,
    lines: u32,
    block: &mut Option<Vec<Given>>,
) -> Walk
    requires table { Finds table.now (outputs_from 0 (forms shapes.now)) }
    requires seen { seen ≤ line_len bytes.now }
    requires few { lines + length bytes.now < 2 ^ 32 }
    ensures walks { Follows (forms shapes.now) ended lines (block_of block.old) bytes.now (block_of block.new) result (IsUntouched (block_of block.old) (block_of block.new) lines result) }
    ensures within { result.taken ≤ length bytes.now }
    ensures few { result.lines + (length bytes.now - result.taken) ≤ lines + length bytes.now }
{
    let was_open = block.is_some();
    let (found, mut slots) = pass_lines(alloc, shapes, table, ended, bytes, seen, lines, block);
    if found.stop.is_short() {
        restore(block, was_open, &mut slots);
        return Walk {
            stop: Stop::Memory,
            taken: 0,
            lines,
        };
    }
    found
}
