// What holds of nodes whatever their arguments are.

ghost use Rattle.flat_reif_rows.specs.Laws.{KindsTell};

/// The law that the term and the bounds of a node that has children are told by its kind and those of its
/// children.
pub fn nodes_are_told_by_kind()
    ensures { KindsTell }
{}
