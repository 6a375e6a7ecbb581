// Laws of the order of types and of typed trees, for callers' proofs.

ghost use Rattle.mz_core.specs.Coercions.{IsPartialOrder};
ghost use Rattle.mz_core.specs.TreeViews.{TreesAreReadByLayers};

/// Each type is below itself, what is below a type below a third is below that one, and two types
/// that are below each other are equal. So two types have at most one join.
pub fn types_are_ordered()
    ensures { IsPartialOrder }
{}

/// The tree that an expression stands for has its place and its type, and its outermost layer is
/// that of the expression's form, with the trees of its parts.
pub fn trees_are_read_by_layers()
    ensures { TreesAreReadByLayers }
{}
