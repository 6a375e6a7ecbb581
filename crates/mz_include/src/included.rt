// The files that a file includes.

ghost use Rattle.std.specs.Prelude.{◌<◌, length, map, OnOk, All};
ghost use Rattle.std.specs.List.{flat_map};
ghost use Rattle.mz_base.specs.Names.{Grows, text_of};
ghost use Rattle.mz_tree.specs.Items.{include, item as tree_of};
ghost use Rattle.mz_include.specs.Naming.{included_by};
ghost use Rattle.mz_include.specs.Trees.{IsIncludeKnown};
ghost use Rattle.mz_include.specs.Views.{Notes, IsKnown};

use crate::joining::joined;
use crate::library::is_library;
use crate::queue::{Mention, Queue};
use mz_base::{Memory, Name, Names, Span};
use mz_tree::Item;
use std::alloc::Global;

/// Notes that the file `owner` includes the file that it writes as `written` at that place, unless
/// it is one of the built-in library.
fn note_name(
    alloc: Global,
    written: Name,
    span: Span,
    owner: Name,
    names: &mut Names,
    queue: &mut Queue,
) -> Result<(), Memory>
    requires written { written < length names.old }
    requires owner { owner < length names.old }
    requires known { All (IsKnown names.old) queue.old }
    ensures noted { OnOk result (Notes names.old names.new queue.old queue.new (included_by names.old (text_of names.old owner) (include written span))) }
    ensures known { OnOk result (All (IsKnown names.new) queue.new) }
    ensures grows { Grows names.old names.new }
{
    if is_library(names.text(written)) {
        return Ok(());
    }
    let path = joined(alloc, names.text(owner), names.text(written))?;
    let name = names.intern(path.as_str())?;
    queue.add(Mention { name, span, owner })
}

/// Notes the file that an item of the file `owner` includes, if it includes one.
fn note_item(
    alloc: Global,
    owner: Name,
    item: &Item,
    names: &mut Names,
    queue: &mut Queue,
) -> Result<(), Memory>
    requires owner { owner < length names.old }
    requires item { IsIncludeKnown names.old (tree_of item.now) }
    requires known { All (IsKnown names.old) queue.old }
    ensures noted { OnOk result (Notes names.old names.new queue.old queue.new (included_by names.old (text_of names.old owner) (tree_of item.now))) }
    ensures known { OnOk result (All (IsKnown names.new) queue.new) }
    ensures grows { Grows names.old names.new }
{
    match item {
        Item::Include(written, span) => note_name(alloc, *written, *span, owner, names, queue),
        _ => Ok(()),
    }
}

/// Notes the files that the file `owner` with these items includes, in order.
pub fn note_included(
    alloc: Global,
    owner: Name,
    items: &[Item],
    names: &mut Names,
    queue: &mut Queue,
) -> Result<(), Memory>
    requires owner { owner < length names.old }
    requires items { All (λ i. IsIncludeKnown names.old (tree_of i)) items.now }
    requires known { All (IsKnown names.old) queue.old }
    ensures noted { OnOk result (Notes names.old names.new queue.old queue.new (flat_map (included_by names.old (text_of names.old owner)) (map tree_of items.now))) }
    ensures known { OnOk result (All (IsKnown names.new) queue.new) }
    ensures grows { Grows names.old names.new }
{
    for item in items {
        note_item(alloc, owner, item, names, queue)?;
    }
    Ok(())
}
