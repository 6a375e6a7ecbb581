// Values of an item: an array with its index sets, or a single element.

ghost use Rattle.std.specs.Prelude.{◌≡◌, [], None, Some};
ghost use Rattle.fz_items.specs.Forms.{form};
ghost use Rattle.fz_items.specs.Items.{element_at, next_at, more_at, elements_at, is_index, dimension_at, index_at, array_at, filled_array_at, scalar_at, value_at};
ghost use Rattle.fz_items.specs.Gives.{Gives, Pushes, with_rest};
ghost use Rattle.fz_items.specs.Views.{elements};
ghost use Rattle.fz_items.specs.Contents.{contents_of};

use crate::element::{Element, read_element};
use crate::miss::Miss;
use crate::outputs::Part;
use crate::set::set;
use crate::token::expect;
use mz_value::{RangeSet, Shape, ShapeBase};
use std::alloc::Global;

/// The elements of a value, with an array's index ranges.
#[derive(Drop)]
pub struct Elements {
    pub index: Option<Vec<(i64, i64)>>,
    pub items: Vec<Element>,
}

/// Reads an element and puts it last.
fn push_element<'a>(
    alloc: Global,
    part: Part,
    base: ShapeBase,
    domain: &RangeSet,
    bytes: &'a [u8],
    items: &mut Vec<Element>,
) -> Result<&'a [u8], Miss>
    ensures { Pushes (contents_of items.old.items) (contents_of items.new.items) result (element_at part base domain.now bytes.now) }
{
    match read_element(alloc, part, base, domain, bytes) {
        Ok((x, rest)) => match items.push(x) {
            Ok(()) => Ok(rest),
            Err(_) => Err(Miss::Memory),
        },
        Err(miss) => Err(miss),
    }
}

/// Reads a comma and an element, and puts that last.
#[tactic(auto, unfolding(crate::specs::Items::next_at))]
fn push_next<'a>(
    alloc: Global,
    part: Part,
    base: ShapeBase,
    domain: &RangeSet,
    bytes: &'a [u8],
    items: &mut Vec<Element>,
) -> Result<&'a [u8], Miss>
    ensures { Pushes (contents_of items.old.items) (contents_of items.new.items) result (next_at part base domain.now bytes.now) }
{
    match expect(b",", bytes) {
        Ok(rest) => push_element(alloc, part, base, domain, rest, items),
        Err(miss) => Err(miss),
    }
}

/// Reads an element for each domain, each after a comma, and puts them last.
fn push_more<'a>(
    alloc: Global,
    part: Part,
    base: ShapeBase,
    domains: &[RangeSet],
    bytes: &'a [u8],
    items: &mut Vec<Element>,
) -> Result<&'a [u8], Miss>
    ensures { Gives (λ r. (contents_of items.new.items, r.now)) result (more_at part base (contents_of items.old.items) domains.now bytes.now) }
{
    let mut rest = bytes;
    for domain in domains {
        match push_next(alloc, part, base, domain, rest, items) {
            Ok(behind) => rest = behind,
            Err(miss) => return Err(miss),
        }
    }
    Ok(rest)
}

/// An element for each domain, with commas between them.
#[tactic(auto, unfolding(crate::specs::Items::elements_at))]
fn all_elements<'a>(
    alloc: Global,
    part: Part,
    base: ShapeBase,
    domains: &[RangeSet],
    bytes: &'a [u8],
) -> Result<(Vec<Element>, &'a [u8]), Miss>
    ensures { Gives (λ r. (contents_of (r.0).items, (r.1).now)) result (elements_at part base domains.now bytes.now) }
{
    let mut items = Vec::new(alloc);
    match domains {
        [] => Ok((items, bytes)),
        [first, more @ ..] => {
            let rest = push_element(alloc, part, base, first, bytes, &mut items)?;
            let rest = push_more(alloc, part, base, more, rest, &mut items)?;
            Ok((items, rest))
        }
    }
}

/// Whether an index set is the declared range.
fn is_index(s: &RangeSet, declared: (i64, i64)) -> bool
    ensures { result ≡ is_index s.now declared }
{
    match s.ranges() {
        [] => declared.1 < declared.0,
        [only] => only.0 == declared.0 && only.1 == declared.1,
        _ => false,
    }
}

/// A dimension's index set and a comma.
#[tactic(auto, unfolding(crate::specs::Items::dimension_at))]
fn dimension<'a>(alloc: Global, declared: &(i64, i64), bytes: &'a [u8]) -> Result<&'a [u8], Miss>
    ensures { Gives (λ r. r.now) result (dimension_at declared.now bytes.now) }
{
    let (s, rest) = set(alloc, bytes)?;
    if is_index(&s, *declared) {
        expect(b",", rest)
    } else {
        Err(Miss::Unfit)
    }
}

/// Each dimension's index set and a comma.
fn dimensions<'a>(alloc: Global, declared: &[(i64, i64)], bytes: &'a [u8]) -> Result<&'a [u8], Miss>
    ensures { Gives (λ r. r.now) result (index_at declared.now bytes.now) }
{
    let mut rest = bytes;
    for range in declared {
        match dimension(alloc, range, rest) {
            Ok(behind) => rest = behind,
            Err(miss) => return Err(miss),
        }
    }
    Ok(rest)
}

/// The head of an array of `n` dimensions, up to its parenthesis.
#[tactic(auto, unfolding(crate::specs::Items::array_at))]
fn array_head(n: usize, bytes: &[u8]) -> Result<&[u8], Miss>
    ensures { Gives (λ r. r.now) result (array_at n bytes.now) }
{
    if n < 1 || 6 < n {
        return Err(Miss::Unfit);
    }
    let rest = expect(&[b'a', b'r', b'r', b'a', b'y', 48 + n as u8, b'd'], bytes)?;
    expect(b"(", rest)
}

/// An array.
#[tactic(auto, unfolding(crate::specs::Items::filled_array_at))]
fn array<'a>(
    alloc: Global,
    part: Part,
    shape: &Shape,
    declared: &[(i64, i64)],
    bytes: &'a [u8],
) -> Result<(Elements, &'a [u8]), Miss>
    ensures { Gives (with_rest elements) result (filled_array_at part (form shape.now).base declared.now (form shape.now).domains bytes.now) }
{
    let rest = array_head(declared.len(), bytes)?;
    let rest = dimensions(alloc, declared, rest)?;
    let rest = expect(b"[", rest)?;
    let (items, rest) = all_elements(alloc, part, shape.base, &shape.domains, rest)?;
    let rest = expect(b"]", rest)?;
    let rest = expect(b")", rest)?;
    let index = Vec::from_slice(alloc, declared)?;
    Ok((
        Elements {
            index: Some(index),
            items,
        },
        rest,
    ))
}

/// An element by itself.
#[tactic(auto, unfolding(crate::specs::Items::scalar_at))]
fn scalar<'a>(
    alloc: Global,
    part: Part,
    shape: &Shape,
    bytes: &'a [u8],
) -> Result<(Elements, &'a [u8]), Miss>
    ensures { Gives (with_rest elements) result (scalar_at part (form shape.now).base (form shape.now).domains bytes.now) }
{
    let none = RangeSet::range(alloc, 1, 0)?;
    let domain = shape.domains.first().unwrap_or(&none);
    let mut items = Vec::new(alloc);
    let rest = push_element(alloc, part, shape.base, domain, bytes, &mut items)?;
    Ok((Elements { index: None, items }, rest))
}

/// What is written under a name of a shape.
#[tactic(auto, unfolding(crate::specs::Items::value_at))]
pub(crate) fn value<'a>(
    alloc: Global,
    part: Part,
    shape: &Shape,
    bytes: &'a [u8],
) -> Result<(Elements, &'a [u8]), Miss>
    ensures { Gives (with_rest elements) result (value_at part (form shape.now) bytes.now) }
{
    match &shape.index {
        None => scalar(alloc, part, shape, bytes),
        Some(declared) => array(alloc, part, shape, declared, bytes),
    }
}
