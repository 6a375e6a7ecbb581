// What the graphs of dependencies say of the uses that they are made from.

ghost use Rattle.std.specs.Prelude.{◌≡◌, ℕ, ◌+◌, ◌<◌, List, length};
ghost use Rattle.mz_graph.specs.Graph.{Graph, IsGraph, AreComponents, number_of};
ghost use Rattle.mz_graph.specs.Order.{IsOrder, IsComplete};
ghost use Rattle.mz_graph.specs.Depends.{DependsOn, IsOnCycle, AreUses, IsWholeOrder, IsCyclicAt, NoneOnCycle, IsFirstOnCycle, HaveComponents};
ghost use Rattle.mz_scope_names.specs.Sketches.{Sketch};
ghost use Rattle.mz_scope_order.specs.Dependencies.{Depends, LeadsBack, AreRanks, AreDeclarations, IsSequence, IsStuckAt, IsBackAt};
ghost use Rattle.mz_scope_order.specs.StepsFaithful.{AreFaithful, AreTypes};
ghost use Rattle.mz_scope_order.specs.StepsGraphs.{node_of, base_of, AreGraphs};

/// The order by the graphs is the order by the uses.
pub fn order_by_uses()
    ensures { (decls functions : List Sketch) (node : ℕ → ℕ) (calls mentions decl_calls decl_mentions : Graph) (order : List ℕ) → AreFaithful decls functions node calls mentions decl_calls decl_mentions → IsOrder (DependsOn calls mentions decl_calls decl_mentions) (length decls) order → IsOrder (Depends decls functions) (length decls) order }
{}

/// A function is on a cycle of the graph of types exactly where its types lead back to it.
pub fn cycle_by_uses()
    ensures back { (decls functions : List Sketch) (node : ℕ → ℕ) (base f : ℕ) (types : Graph) → AreTypes decls functions node base types → f < length functions → IsOnCycle types f → LeadsBack decls functions f }
    ensures cycle { (decls functions : List Sketch) (node : ℕ → ℕ) (base f : ℕ) (types : Graph) → AreTypes decls functions node base types → f < length functions → LeadsBack decls functions f → IsOnCycle types f }
{}

/// Where all declarations have their turn and no function's types lead back to it, the numbers of the components of the graph of
/// types are ranks.
pub fn types_are_ranked()
    ensures { (decls functions : List Sketch) (node : ℕ → ℕ) (base count : ℕ) (types : Graph) (of order : List ℕ) → AreTypes decls functions node base types → IsGraph types → length types ≡ base + length decls → AreComponents types count of → IsOrder (Depends decls functions) (length decls) order → IsComplete (length decls) order → ((f : ℕ) → f < length functions → LeadsBack decls functions f → ⊥) → AreRanks decls functions (λ d. number_of of (base + d)) (λ f. number_of of f) }
{}

/// The graphs of dependencies hold what the uses say.
pub fn graphs_are_faithful()
    ensures calls { (decls functions : List Sketch) (calls mentions decl_calls decl_mentions types : Graph) → AreDeclarations decls → AreGraphs decls functions calls mentions decl_calls decl_mentions types → AreFaithful decls functions (node_of functions) calls mentions decl_calls decl_mentions }
    ensures types { (decls functions : List Sketch) (calls mentions decl_calls decl_mentions types : Graph) → AreDeclarations decls → AreGraphs decls functions calls mentions decl_calls decl_mentions types → AreTypes decls functions (node_of functions) (base_of functions) types }
{}

/// The graphs of dependencies lead only to what there is.
pub fn graphs_are_closed()
    ensures uses { (decls functions : List Sketch) (calls mentions decl_calls decl_mentions types : Graph) → AreDeclarations decls → AreGraphs decls functions calls mentions decl_calls decl_mentions types → AreUses calls mentions decl_calls decl_mentions }
    ensures types { (decls functions : List Sketch) (calls mentions decl_calls decl_mentions types : Graph) → AreDeclarations decls → AreGraphs decls functions calls mentions decl_calls decl_mentions types → IsGraph types }
{}

/// What the graphs' order and cycles answer is the answer by the uses.
pub fn answers_by_uses()
    ensures sequence { (decls functions : List Sketch) (calls mentions decl_calls decl_mentions types : Graph) (order : List ℕ) → AreDeclarations decls → AreGraphs decls functions calls mentions decl_calls decl_mentions types → IsWholeOrder (DependsOn calls mentions decl_calls decl_mentions) (length decl_mentions) order → NoneOnCycle types 0 (length functions) → HaveComponents types → IsSequence decls functions order }
    ensures stuck { (decls functions : List Sketch) (calls mentions decl_calls decl_mentions types : Graph) (d : ℕ) → AreDeclarations decls → AreGraphs decls functions calls mentions decl_calls decl_mentions types → IsCyclicAt (DependsOn calls mentions decl_calls decl_mentions) (length decl_mentions) d → IsStuckAt decls functions d }
    ensures back { (decls functions : List Sketch) (calls mentions decl_calls decl_mentions types : Graph) (order : List ℕ) (f : ℕ) → AreDeclarations decls → AreGraphs decls functions calls mentions decl_calls decl_mentions types → IsWholeOrder (DependsOn calls mentions decl_calls decl_mentions) (length decl_mentions) order → IsFirstOnCycle types 0 (length functions) f → IsBackAt decls functions f }
{}
