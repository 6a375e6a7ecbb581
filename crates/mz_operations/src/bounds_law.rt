// What holds of the bounds of all operations.

ghost use Rattle.mz_operations.specs.Monotone.{ArithIsMonotone, CardIsMonotone, ExtremeIsMonotone, HullIsMonotone, HullOfSetIsMonotone, SetIsMonotone, SignIsMonotone, UnionIsMonotone};

/// Bounds of operands within others give bounds within. Where a divisor is 0 alone, or a domain is
/// empty, the bounds are 0..0 for want of a value: these cases are left out.
pub fn bounds_are_monotone()
    ensures arith { ArithIsMonotone }
    ensures sign { SignIsMonotone }
    ensures extreme { ExtremeIsMonotone }
    ensures hull { HullIsMonotone }
    ensures card { CardIsMonotone }
    ensures domain { HullOfSetIsMonotone }
    ensures set { SetIsMonotone }
    ensures union { UnionIsMonotone }
{}
