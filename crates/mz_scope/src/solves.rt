// The solve items of a model.

ghost use Rattle.std.specs.Prelude.{◌≡◌, ◌++◌, [], OnOk, IfOk};
ghost use Rattle.std.specs.List.{flat_map};
ghost use Rattle.mz_tree.specs.Items.{item as tree_of};
ghost use Rattle.mz_scope.specs.Tests.{solve_in, end_of};

use mz_base::{Memory, Span};
use mz_tree::{Item, SourceFile};
use std::alloc::Global;

/// Adds the places of the solve items.
fn add_solves(out: &mut Vec<Span>, items: &[Item]) -> Result<(), Memory>
    ensures { OnOk result (out.new.items ≡ out.old.items ++ flat_map (λ i. solve_in (tree_of i)) items.now) }
{
    for item in items {
        if let Item::Solve(span, _) = item {
            out.push(*span)?;
        }
    }
    Ok(())
}

/// The places of the solve items of these files, in the order of the text.
pub fn solves_of(alloc: Global, files: &[SourceFile]) -> Result<Vec<Span>, Memory>
    ensures { IfOk result (λ out. out.items ≡ flat_map (λ f. flat_map (λ i. solve_in (tree_of i)) f.items.items) files.now) }
{
    let mut out = Vec::new(alloc);
    for file in files {
        add_solves(&mut out, file.items.as_slice())?;
    }
    Ok(out)
}

/// The end of the model's file, which is the first one.
pub fn end_of(files: &[SourceFile]) -> Span
    ensures { result ≡ end_of files.now }
{
    match files {
        [] => Span::start(0),
        [file, ..] => file.end,
    }
}
