// Elements of a value: a truth value, a number or a set within its domain.

ghost use Rattle.std.specs.Prelude.{◌≡◌, None, Some};
ghost use Rattle.fz_items.specs.Contents.{content_of};
ghost use Rattle.fz_items.specs.Items.{has, is_within, truth_in, int_in, set_in, based_at, element_at};
ghost use Rattle.fz_items.specs.Gives.{Gives, with_rest};

use crate::miss::Miss;
use crate::outputs::Part;
use crate::set::set;
use crate::token::{int, truth};
use mz_value::{RangeSet, ShapeBase};
use std::alloc::Global;

/// An element of a value.
#[derive(Drop)]
pub enum Element {
    /// A truth value.
    Truth(bool),
    /// An integer.
    Number(i64),
    /// A case of the enum with this number.
    Case(u64, i64),
    /// A set of integers, or of cases of the enum with this number.
    Set(Option<u64>, RangeSet),
}

fn has(domain: &RangeSet, x: i64) -> bool
    ensures { result ≡ has domain.now x }
{
    domain.contains(x)
}

/// Whether a set has nothing that the domain lacks.
fn is_within(alloc: Global, s: &RangeSet, domain: &RangeSet) -> Result<bool, Miss>
    ensures { Gives (λ b. b) result (Some (is_within s.now domain.now)) }
{
    // That both are canonical, which is what `ranges` tells, is what the proof stands on.
    let (_, _) = (s.ranges(), domain.ranges());
    let lacking = s.diff(alloc, domain)?;
    Ok(lacking.ranges().is_empty())
}

#[tactic(auto, unfolding(crate::specs::Items::truth_in))]
fn truth_in<'a>(domain: &RangeSet, bytes: &'a [u8]) -> Result<(bool, &'a [u8]), Miss>
    ensures { Gives (with_rest (λ b. b)) result (truth_in domain.now bytes.now) }
{
    let (b, rest) = truth(bytes)?;
    if has(domain, if b { 1 } else { 0 }) {
        Ok((b, rest))
    } else {
        Err(Miss::Unfit)
    }
}

#[tactic(auto, unfolding(crate::specs::Items::int_in))]
fn int_in<'a>(domain: &RangeSet, bytes: &'a [u8]) -> Result<(i64, &'a [u8]), Miss>
    ensures { Gives (with_rest (λ x. x)) result (int_in domain.now bytes.now) }
{
    let (x, rest) = int(bytes)?;
    if has(domain, x) {
        Ok((x, rest))
    } else {
        Err(Miss::Unfit)
    }
}

#[tactic(auto, unfolding(crate::specs::Items::set_in))]
fn set_in<'a>(
    alloc: Global,
    domain: &RangeSet,
    bytes: &'a [u8],
) -> Result<(RangeSet, &'a [u8]), Miss>
    ensures { Gives (with_rest (λ s. s)) result (set_in domain.now bytes.now) }
{
    let (s, rest) = set(alloc, bytes)?;
    if is_within(alloc, &s, domain)? {
        Ok((s, rest))
    } else {
        Err(Miss::Unfit)
    }
}

/// An element of a base within its domain.
#[tactic(auto, unfolding(crate::specs::Items::based_at))]
fn based<'a>(
    alloc: Global,
    base: ShapeBase,
    domain: &RangeSet,
    bytes: &'a [u8],
) -> Result<(Element, &'a [u8]), Miss>
    ensures { Gives (with_rest content_of) result (based_at base domain.now bytes.now) }
{
    match base {
        ShapeBase::Bool => {
            let (b, rest) = truth_in(domain, bytes)?;
            Ok((Element::Truth(b), rest))
        }
        ShapeBase::Int => {
            let (x, rest) = int_in(domain, bytes)?;
            Ok((Element::Number(x), rest))
        }
        ShapeBase::Enum(e) => {
            let (x, rest) = int_in(domain, bytes)?;
            Ok((Element::Case(e, x), rest))
        }
        ShapeBase::SetInt => {
            let (s, rest) = set_in(alloc, domain, bytes)?;
            Ok((Element::Set(None, s), rest))
        }
        ShapeBase::SetEnum(e) => {
            let (s, rest) = set_in(alloc, domain, bytes)?;
            Ok((Element::Set(Some(e), s), rest))
        }
    }
}

/// An element of what is written under a name.
#[tactic(auto, unfolding(crate::specs::Items::element_at))]
pub(crate) fn read_element<'a>(
    alloc: Global,
    part: Part,
    base: ShapeBase,
    domain: &RangeSet,
    bytes: &'a [u8],
) -> Result<(Element, &'a [u8]), Miss>
    ensures { Gives (with_rest content_of) result (element_at part base domain.now bytes.now) }
{
    match part {
        Part::Occurs => {
            let (b, rest) = truth(bytes)?;
            Ok((Element::Truth(b), rest))
        }
        Part::Value => based(alloc, base, domain, bytes),
    }
}
