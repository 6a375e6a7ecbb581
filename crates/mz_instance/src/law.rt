// What holds of the values of an instance's nodes.

ghost use Rattle.mz_instance.specs.Laws.{NodesHaveTheirNumbers, PartsMakeTheArena, NumbersTellTheArena};

/// Does nothing: its contract says how the values that parts have by their numbers, and the values
/// that nodes have by their ids, go together in an instance.
pub fn values_by_number_are_values_by_ids()
    ensures nodes { NodesHaveTheirNumbers }
    ensures fit { PartsMakeTheArena }
    ensures agree { NumbersTellTheArena }
{}
