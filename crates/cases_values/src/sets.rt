// Sets of integers.

use cases::Page;
use mz_base::Memory;
use mz_value::RangeSet;
use std::alloc::Global;

pub fn sets(alloc: Global, page: &mut Page) -> Result<(), Memory> {
    page.line("# sets of integers, as ranges that don't touch");
    let all = RangeSet::of(alloc, &[5, 1, 2, 1])?;
    page.case("5, 1, 2 and 1", all.ranges());
    page.case("  elements", all.card());
    page.case("  has 5", all.contains(5));
    page.case("  has 3", all.contains(3));
    let none = RangeSet::range(alloc, 1, 0)?;
    page.case("1..0", none.ranges());
    page.case("  elements", none.card());
    Ok(())
}

pub fn operations(alloc: Global, page: &mut Page) -> Result<(), Memory> {
    page.line("# unions, differences and intersections");
    let one_two = RangeSet::of(alloc, &[1, 2])?;
    let five = RangeSet::of(alloc, &[5])?;
    let two = RangeSet::of(alloc, &[2])?;
    let difference = one_two.union(alloc, &five)?.diff(alloc, &two)?;
    page.case("({1, 2} union {5}) diff {2}", difference.ranges());
    let low = RangeSet::range(alloc, 1, 3)?;
    let high = RangeSet::range(alloc, 2, 9)?;
    page.case("1..3 intersect 2..9", low.intersect(alloc, &high)?.ranges());
    page.case("1..3 union 2..9", low.union(alloc, &high)?.ranges());
    Ok(())
}
