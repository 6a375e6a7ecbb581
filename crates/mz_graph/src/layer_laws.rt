// Laws of the order of evaluation.

ghost use Rattle.std.specs.Prelude.{ℕ, ◌+◌, ◌∷◌, ◌++◌, List, length};
ghost use Rattle.mz_graph.specs.Graph.{Graph, Edge, IsGraph, IsIn, AreComponents};
ghost use Rattle.mz_graph.specs.Order.{IsOrder};
ghost use Rattle.mz_graph.specs.Depends.{DependsOn, AllBelow};
ghost use Rattle.mz_graph.specs.StepsLayers.{AreLayers, decls_in};

/// The order of one graph of the functions, then their components, then the declarations, is the order of the declarations, where
/// all but the declarations is left out.
pub fn layered_order()
    ensures { (calls mentions decl_calls decl_mentions all : Graph) (of order : List ℕ) (count n : ℕ) → IsGraph calls → AllBelow decl_calls (length calls) → AreComponents calls count of → AreLayers calls mentions decl_calls decl_mentions of (length calls) count n all → IsOrder (Edge all) (length all) order → IsOrder (DependsOn calls mentions decl_calls decl_mentions) n (decls_in (length calls + count) order) }
{}

/// In an order of evaluation all that a declaration depends on comes before it.
pub fn needed_first()
    ensures { (calls mentions decl_calls decl_mentions : Graph) (before after : List ℕ) (n d e : ℕ) → IsOrder (DependsOn calls mentions decl_calls decl_mentions) n (before ++ d ∷ after) → DependsOn calls mentions decl_calls decl_mentions d e → IsIn e before }
{}
