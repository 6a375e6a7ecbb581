// A conjunction's node taken apart into those of its operands.

ghost use Rattle.std.specs.Prelude.{◌≡◌, IfOk, reverse, ℕ};
ghost use Rattle.mz_arena.specs.Values.{Term, is_true};
ghost use Rattle.mz_symbol.specs.Runs.{ReadsNodes};
ghost use Rattle.mz_model_roots.specs.StepsOperands.{IsSame, all_true};

use mz_arena::{Arena, Id};
use mz_base::Memory;
use mz_eval_symbols::{Pair, is_false, pair_at};
use std::alloc::Global;

/// Operands that are taken off, from the last on, and the node of those before.
#[derive(Drop)]
struct Split {
    taken: Vec<Id>,
    before: Id,
}

/// One operand more is taken off. The constant false has itself as an operand; else a node that is no
/// conjunction has none.
fn with_operand(nodes: &Arena, s: Split) -> Result<Split, Memory>
    ensures { IfOk result (λ x. IsSame nodes.now s.taken.items s.before x.taken.items x.before) }
{
    let Split { taken, before } = s;
    let mut more = taken;
    let Some(p) = pair_at(nodes, Pair::And, before) else {
        return without(nodes, more, before);
    };
    more.push(p.1)?;
    Ok(Split {
        taken: more,
        before: p.0,
    })
}

/// The constant false once more.
fn without(nodes: &Arena, taken: Vec<Id>, before: Id) -> Result<Split, Memory>
    ensures { IfOk result (λ x. IsSame nodes.now taken.items before x.taken.items x.before) }
{
    if !is_false(nodes, before) {
        return Ok(Split { taken, before });
    }
    let mut more = taken;
    more.push(before)?;
    Ok(Split {
        taken: more,
        before,
    })
}

fn turned(all: Vec<Id>) -> Vec<Id>
    ensures { result.items ≡ reverse all.items }
{
    let mut ids = all;
    ids.reverse();
    ids
}

/// The operands of a conjunction of so many, as they were joined from the first on. Of the constant
/// false they are it, so many times; where a node before is no conjunction they are fewer.
pub(crate) fn operands_of(
    alloc: Global,
    nodes: &Arena,
    id: Id,
    count: u64,
) -> Result<Vec<Id>, Memory>
    ensures { IfOk result (λ ids. (t : ℕ → Term) → ReadsNodes t nodes.now → all_true t ids.items ≡ is_true (t id)) }
{
    let none = Vec::new(alloc);
    let mut s = Split {
        taken: none,
        before: id,
    };
    for _turn in 1..count {
        s = with_operand(nodes, s)?;
    }
    let Split { taken, before } = s;
    let mut all = taken;
    all.push(before)?;
    Ok(turned(all))
}
