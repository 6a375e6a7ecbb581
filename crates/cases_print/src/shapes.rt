// The shapes that the cases are read by.

use mz_base::Memory;
use mz_value::{RangeSet, Shape, ShapeBase, TextValue};
use std::alloc::Global;

/// A shape of no array.
fn scalar(
    alloc: Global,
    label: &str,
    opt: bool,
    base: ShapeBase,
    domain: RangeSet,
) -> Result<Shape, Memory> {
    let mut domains = Vec::new(alloc);
    domains.push(domain)?;
    Ok(Shape {
        label: TextValue {
            text: String::from_str(alloc, label)?,
        },
        opt,
        base,
        index: None,
        domains,
    })
}

/// A shape of an array.
fn array(
    alloc: Global,
    label: &str,
    opt: bool,
    index: &[(i64, i64)],
    domains: Vec<RangeSet>,
) -> Result<Shape, Memory> {
    Ok(Shape {
        label: TextValue {
            text: String::from_str(alloc, label)?,
        },
        opt,
        base: ShapeBase::Int,
        index: Some(Vec::from_slice(alloc, index)?),
        domains,
    })
}

/// The same domain, from 0 to 9, some times.
fn digits(alloc: Global, count: usize) -> Result<Vec<RangeSet>, Memory> {
    let mut domains = Vec::new(alloc);
    for _ in 0..count {
        domains.push(RangeSet::range(alloc, 0, 9)?)?;
    }
    Ok(domains)
}

/// `x` in `{1, 2, 3, 7}`, and an option `o` in `2..5`.
fn small(alloc: Global) -> Result<Vec<Shape>, Memory> {
    let mut shapes = Vec::new(alloc);
    let domain = RangeSet::range(alloc, 1, 3)?.union(alloc, &RangeSet::range(alloc, 7, 7)?)?;
    shapes.push(scalar(alloc, "x", false, ShapeBase::Int, domain)?)?;
    let domain = RangeSet::range(alloc, 2, 5)?;
    shapes.push(scalar(alloc, "o", true, ShapeBase::Int, domain)?)?;
    Ok(shapes)
}

/// A Boolean `b`, a case `c` of the enum 0 with three cases, a set `s` within `{1, 2, 4, 5}`, and a set `t` of cases.
fn scalars(alloc: Global, shapes: &mut Vec<Shape>) -> Result<(), Memory> {
    let domain = RangeSet::range(alloc, 0, 1)?;
    shapes.push(scalar(alloc, "b", false, ShapeBase::Bool, domain)?)?;
    let domain = RangeSet::range(alloc, 1, 3)?;
    shapes.push(scalar(alloc, "c", false, ShapeBase::Enum(0), domain)?)?;
    let domain = RangeSet::range(alloc, 1, 2)?.union(alloc, &RangeSet::range(alloc, 4, 5)?)?;
    shapes.push(scalar(alloc, "s", false, ShapeBase::SetInt, domain)?)?;
    let domain = RangeSet::range(alloc, 1, 3)?;
    shapes.push(scalar(alloc, "t", false, ShapeBase::SetEnum(0), domain)?)?;
    Ok(())
}

/// An array `a` over `1..2, 0..2`, an array `p` of options over `1..3`, and an array `e` without elements; all in `0..9`.
fn arrays(alloc: Global, shapes: &mut Vec<Shape>) -> Result<(), Memory> {
    let domains = digits(alloc, 6)?;
    shapes.push(array(alloc, "a", false, &[(1, 2), (0, 2)], domains)?)?;
    let domains = digits(alloc, 3)?;
    shapes.push(array(alloc, "p", true, &[(1, 3)], domains)?)?;
    let domains = digits(alloc, 0)?;
    shapes.push(array(alloc, "e", false, &[(1, 0)], domains)?)?;
    Ok(())
}

/// The shapes that a title names first: all of them for `full`, else the two of `small`.
pub fn shapes_of(alloc: Global, title: &str) -> Result<Vec<Shape>, Memory> {
    let mut shapes = small(alloc)?;
    if title.starts_with("full") {
        scalars(alloc, &mut shapes)?;
        arrays(alloc, &mut shapes)?;
    }
    Ok(shapes)
}
