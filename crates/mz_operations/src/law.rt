// What holds of the bounds and of the limit.

ghost use Rattle.mz_operations.specs.Laws.{ArithEncloses, SignEncloses, FoldEncloses, PowerEncloses, ExtremeEncloses, CountEncloses, HullEncloses, UnionEncloses, CardEncloses, SetEncloses, ArrayUnionEncloses, ArrayIntersectEncloses, BesideEncloses, HaveOneLimit};

/// Values in bounds give a value in bounds.
pub fn values_lie_in_bounds()
    ensures arith { ArithEncloses }
    ensures sign { SignEncloses }
    ensures fold { FoldEncloses }
    ensures power { PowerEncloses }
    ensures extreme { ExtremeEncloses }
    ensures count { CountEncloses }
    ensures card { CardEncloses }
    ensures hull { HullEncloses }
    ensures union { UnionEncloses }
    ensures beside { BesideEncloses }
    ensures set { SetEncloses }
    ensures array_union { ArrayUnionEncloses }
    ensures array_intersect { ArrayIntersectEncloses }
{}

/// The greatest integer of a literal, of a set and of bounds is one, and so is the least.
pub fn one_limit()
    ensures { HaveOneLimit }
{}
