// The places of an array's elements.

use cases::Page;
use mz_base::{INTEGER_LIMIT, Memory};
use mz_index::{IndexSets, count_in, place_in, places_are_distinct};
use std::alloc::Global;

pub fn in_row_order(alloc: Global, page: &mut Page) -> Result<(), Memory> {
    page.line("# places run in row order");
    line(alloc, page)?;
    table(alloc, page)?;
    cube(alloc, page)?;
    places_are_distinct();
    Ok(())
}

fn line(alloc: Global, page: &mut Page) -> Result<(), Memory> {
    let line = IndexSets::new(alloc, &[(-3, 3)])?;
    page.case("places of -3..3", line.len());
    for at in [-4, -3, 0, 3, 4] {
        page.put("  at ");
        page.put(at);
        page.case("", line.place(&[at]));
    }
    Ok(())
}

fn table(alloc: Global, page: &mut Page) -> Result<(), Memory> {
    let table = IndexSets::new(alloc, &[(0, 1), (1, 3)])?;
    page.case("places of 0..1, 1..3", table.len());
    for at in [
        [0, 1],
        [0, 2],
        [1, 1],
        [1, 3],
        [-1, 1],
        [2, 1],
        [0, 0],
        [0, 4],
    ] {
        page.put("  at ");
        page.show(at);
        page.case("", table.place(&at));
    }
    Ok(())
}

fn cube(alloc: Global, page: &mut Page) -> Result<(), Memory> {
    let cube = IndexSets::new(alloc, &[(-1, 0), (5, 6), (-2, 2)])?;
    page.case("places of -1..0, 5..6, -2..2", cube.len());
    for at in [
        [-1, 5, -2],
        [-1, 5, 2],
        [-1, 6, -2],
        [0, 5, -2],
        [0, 6, 2],
        [1, 5, 0],
        [0, 7, 0],
        [0, 6, -3],
    ] {
        page.put("  at ");
        page.show(at);
        page.case("", cube.place(&at));
    }
    Ok(())
}

pub fn in_empty_ranges(alloc: Global, page: &mut Page) -> Result<(), Memory> {
    page.line("# an empty range leaves no place");
    let sets = IndexSets::new(
        alloc,
        &[
            (-INTEGER_LIMIT, INTEGER_LIMIT),
            (-INTEGER_LIMIT, INTEGER_LIMIT),
            (1, 0),
        ],
    )?;
    page.case("places of -2^61..2^61, -2^61..2^61, 1..0", sets.len());
    for at in [
        [INTEGER_LIMIT, INTEGER_LIMIT, 1],
        [INTEGER_LIMIT, INTEGER_LIMIT, 0],
    ] {
        page.put("  at ");
        page.show(at);
        page.case("", sets.place(&at));
    }
    Ok(())
}

pub fn in_great_ranges(page: &mut Page) {
    page.line("# places in slices, told as at most the greatest u64");
    let whole = (i64::MIN, i64::MAX);
    page.case(
        "count of all of i64, thrice",
        count_in(&[whole, whole, whole]),
    );
    page.case("count of no range", count_in(&[]));
    page.case("count of all of i64 and 1..0", count_in(&[whole, (1, 0)]));
    page.case("the last of all of i64", place_in(&[whole], &[i64::MAX]));
    page.case(
        "the first of all of i64, twice",
        place_in(&[whole, whole], &[i64::MIN, i64::MIN]),
    );
    page.case(
        "the last of all of i64, twice",
        place_in(&[whole, whole], &[i64::MAX, i64::MAX]),
    );
    page.case("two indices for one range", place_in(&[(1, 3)], &[1, 2]));
    page.case(
        "one index for two ranges",
        place_in(&[(1, 3), (1, 3)], &[2]),
    );
    page.case("no index for no range", place_in(&[], &[]));
}
