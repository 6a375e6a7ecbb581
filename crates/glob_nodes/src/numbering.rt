// Elements beside their indices.

ghost use Rattle.std.specs.Prelude.{◌≡◌, ◌+ℤ◌, IfOk, pos};
ghost use Rattle.mz_symbol.specs.Makes.{GoesOnBy};
ghost use Rattle.glob_nodes.specs.Places.{AreNumbered};

use crate::Numbers;
use crate::numbers::constant;
use mz_arena::Id;
use mz_base::Memory;
use mz_symbol::Run;
use std::alloc::Global;

/// Each element of an array beside the node of its index. Out of memory too where an index lies
/// outside the limit.
pub fn places_of(alloc: Global, run: &mut Run, xs: &Numbers) -> Result<Vec<(Id, Id)>, Memory>
    ensures goes { GoesOnBy 0 run.old run.new }
    ensures numbered { IfOk result (λ ps. AreNumbered run.old run.new xs.now.first xs.now.items.items ps.items) }
{
    numbered(alloc, run, xs.first, &xs.items)
}

/// Each element beside the node of its index, of which this is the first.
fn numbered(alloc: Global, run: &mut Run, first: i64, items: &[Id]) -> Result<Vec<(Id, Id)>, Memory>
    ensures goes { GoesOnBy 0 run.old run.new }
    ensures numbered { IfOk result (λ ps. AreNumbered run.old run.new first items.now ps.items) }
{
    let mut ps = Vec::new(alloc);
    let mut index = first;
    let mut k = 0;
    while k < items.len() {
        let id = constant(run, index)?;
        ps.push((id, items[k]))?;
        index = after(index)?;
        k += 1;
    }
    Ok(ps)
}

fn after(i: i64) -> Result<i64, Memory>
    ensures { IfOk result (λ j. j ≡ i +ℤ pos 1) }
{
    if i < i64::MAX { Ok(i + 1) } else { Err(Memory) }
}
