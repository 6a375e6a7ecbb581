// Lists of numbers, one for each node.

ghost use Rattle.std.specs.Prelude.{◌≡◌, ◌<◌, ◌∷◌, ◌++◌, [], length, IfOk, OnOk, slice_set, replicate};
ghost use Rattle.mz_graph.specs.Graph.{heads, graph_of};

use std::alloc::{AllocError, Global};
use std::mem;

/// `count` empty lists.
pub fn empty_rows(alloc: Global, count: usize) -> Result<Vec<Vec<usize>>, AllocError>
    ensures { IfOk result (λ v. graph_of v.items ≡ replicate count []) }
{
    let mut rows = Vec::new(alloc);
    for _ in 0..count {
        rows.push(Vec::new(alloc))?;
    }
    Ok(rows)
}

/// Appends `x` to the list of the node `at`.
pub fn append_to(rows: &mut Vec<Vec<usize>>, at: usize, x: usize) -> Result<(), AllocError>
    requires { at < length (graph_of rows.old.items) }
    ensures { OnOk result (graph_of rows.new.items ≡ slice_set (graph_of rows.old.items) at (heads (graph_of rows.old.items) at ++ x ∷ [])) }
{
    let row = &mut rows[at];
    row.push(x)?;
    Ok(())
}

/// Hands out the list of the node `at`, and leaves an empty one.
pub(crate) fn take_row(alloc: Global, rows: &mut Vec<Vec<usize>>, at: usize) -> Vec<usize>
    requires { at < length (graph_of rows.old.items) }
    ensures row { result.items ≡ heads (graph_of rows.old.items) at }
    ensures rest { graph_of rows.new.items ≡ slice_set (graph_of rows.old.items) at [] }
{
    mem::replace(&mut rows[at], Vec::new(alloc))
}
