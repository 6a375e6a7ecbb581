// The declarations of a model, with the values that assignment items give them.

ghost use Rattle.std.specs.Prelude.{◌≡◌, ◌++◌, IfOk, OnOk, map};
ghost use Rattle.std.specs.List.{flat_map};
ghost use Rattle.std.specs.Option.{option_map};
ghost use Rattle.mz_tree.specs.Tree.{maybe};
ghost use Rattle.mz_tree.specs.Views.{tree, declaration};
ghost use Rattle.mz_tree.specs.Items.{item as tree_of};
ghost use Rattle.mz_scope_names.specs.StepsWalk.{items_of};
ghost use Rattle.mz_scope_order.specs.Parts.{decls_of};
ghost use Rattle.mz_scope_order.specs.Scoped.{scoped_decl};
ghost use Rattle.mz_scope_order.specs.StepsParts.{filled_by, own_or, filled_in};
ghost use Rattle.mz_scope_order.specs.StepsTables.{value_found};

use crate::assigned::{Assigned, assigned_in};
use crate::scoped::ScopedDecl;
use mz_base::Memory;
use mz_tree::{Decl, Expr, Item, SourceFile};
use std::alloc::Global;

/// A declaration's own value, or else the assigned one.
#[tactic(auto, unfolding(mz_tree::specs::Views::declaration, mz_tree::specs::Views::tree))]
fn value_of<'a>(d: &'a Decl, table: &Assigned<'a>) -> Option<&'a Expr>
    ensures { maybe (option_map (λ e. tree e.now) result) ≡ own_or (value_found table.now) (declaration d.now) }
{
    match &d.value {
        Some(value) => Some(value),
        None => table.value(d.name),
    }
}

/// A declaration, with its value.
#[tactic(auto, unfolding(mz_tree::specs::Views::declaration, mz_tree::specs::Views::tree, mz_tree::specs::Views::written))]
fn filled<'a>(d: &'a Decl, table: &Assigned<'a>) -> ScopedDecl<'a>
    ensures { scoped_decl result ≡ filled_by (value_found table.now) (declaration d.now) }
{
    let value = value_of(d, table);
    ScopedDecl { decl: d, value }
}

fn add_decls<'a>(
    out: &mut Vec<ScopedDecl<'a>>,
    table: &Assigned<'a>,
    items: &'a [Item],
) -> Result<(), Memory>
    ensures { OnOk result (map scoped_decl out.new.items ≡ map scoped_decl out.old.items ++ flat_map (λ i. filled_in (value_found table.now) (tree_of i)) items.now) }
{
    for item in items {
        if let Item::Decl(d) = item {
            out.push(filled(d, table))?;
        }
    }
    Ok(())
}

/// The declarations of these files, each with its own or the assigned value.
pub(crate) fn decls_of<'a>(
    alloc: Global,
    files: &'a [SourceFile],
) -> Result<Vec<ScopedDecl<'a>>, Memory>
    ensures { IfOk result (λ out. map scoped_decl out.items ≡ decls_of (items_of files.now)) }
{
    let table = assigned_in(alloc, files)?;
    let mut out = Vec::new(alloc);
    for file in files {
        add_decls(&mut out, &table, file.items.as_slice())?;
    }
    Ok(out)
}
