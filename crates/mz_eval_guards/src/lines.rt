// The elements of var arrays.

ghost use Rattle.std.specs.Prelude.{◌≡◌, IfOk, length};
ghost use Rattle.mz_eval_guards.specs.StepsLines.{HasItems};

use mz_arena::Id;
use mz_base::Memory;
use mz_symbol::{Line, Run, Symbol};
use std::alloc::{AllocError, Global};

fn symbols_of(alloc: Global, l: &Line) -> Result<Vec<Symbol>, AllocError>
    ensures { IfOk result (λ v. v.items ≡ l.now.items.items) }
{
    Vec::from_slice(alloc, &l.items)
}

/// The node that is 1 where a var array is defined, and its elements once more. Out of memory too
/// where it hasn't so many.
#[tactic(auto, using(crate::proofs::LineLaws::items_told))]
pub(crate) fn line_items(
    alloc: Global,
    run: &Run,
    line: u64,
    count: u64,
) -> Result<(Id, Vec<Symbol>), Memory>
    ensures items { IfOk result (λ p. HasItems run.now line p.0 p.1.items) }
    ensures count { IfOk result (λ p. length p.1.items ≡ count) }
{
    let Some(l) = run.line(line) else {
        return Err(Memory);
    };
    let items = symbols_of(alloc, l)?;
    if items.len() as u64 != count {
        return Err(Memory);
    }
    Ok((l.defined, items))
}
