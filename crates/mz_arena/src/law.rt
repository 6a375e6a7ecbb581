// What holds of arenas.

ghost use Rattle.mz_arena.specs.Arenas.{GrewBoth};

/// An arena that goes on from one that goes on from a third goes on from the third.
pub fn growth_is_transitive()
    ensures { GrewBoth }
{}
