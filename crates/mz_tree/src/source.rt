// The files of a model.

ghost use Rattle.std.specs.Prelude.{◌≤◌};
ghost use Rattle.mz_tree.specs.declared.height.TheConstants.{HEIGHT_LIMIT};
ghost use Rattle.mz_tree.specs.Items.{items_height};

use crate::item::Item;
use mz_base::{Name, Span};

/// A file of the model: its name as it was fetched, its items in order, and the place of its end.
///
/// Expressions are nested at most `HEIGHT_LIMIT` deep.
#[derive(Debug, Drop)]
pub struct SourceFile {
    pub name: Name,
    pub items: Vec<Item>,
    pub end: Span,
    pub ghost bounded: { items_height items.items ≤ HEIGHT_LIMIT },
}

/// The model and its included files, in the order in which they were first named.
#[derive(Debug, Drop)]
pub struct Sources {
    pub files: Vec<SourceFile>,
}
