// Laws of orders and of components.

ghost use Rattle.std.specs.Prelude.{◌≡◌, ◌<◌, ℕ, List, length};
ghost use Rattle.mz_graph.specs.Graph.{Graph, Edge, Path, IsGraph, AreComponents, number_of};
ghost use Rattle.mz_graph.specs.Order.{IsOrder};

/// There is at most one order.
pub fn at_most_one_order()
    ensures { (g : Graph) (count : ℕ) (a b : List ℕ) → IsOrder (Edge g) count a → IsOrder (Edge g) count b → a ≡ b }
{}

/// Nodes that reach each other have the same number.
pub fn together_in_a_component()
    ensures { (g : Graph) (count : ℕ) (of : List ℕ) (x y : ℕ) → IsGraph g → AreComponents g count of → x < length g → Path g x y → Path g y x → number_of of x ≡ number_of of y }
{}

/// An edge to a node that doesn't lead back goes to a lower number: numbers of components are a measure.
pub fn component_falls()
    ensures { (g : Graph) (count : ℕ) (of : List ℕ) (x y : ℕ) → IsGraph g → AreComponents g count of → x < length g → Edge g x y → (Path g y x → ⊥) → number_of of y < number_of of x }
{}
