// The open block: what its items gave, and the solution that a whole block is.

ghost use Rattle.std.specs.Prelude.{◌≡◌, [], OnOk, map, Some, None};
ghost use Rattle.std.specs.Option.{option_map};
ghost use Rattle.mz_value.specs.Contents.{content};
ghost use Rattle.fz_items.specs.Contents.{content_of, contents_of};
ghost use Rattle.fz_items.specs.Forms.{form, forms};
ghost use Rattle.fz_items.specs.Items.{is_none};
ghost use Rattle.soln_reader.specs.Blocks.{is_first, is_least, is_false, optional, optional_all, whole, elements_of, solved, solution, put_in, put, given_in, nothing_for};
ghost use Rattle.soln_reader.specs.StepsUndo.{Undo};
ghost use Rattle.fz_items.specs.Views.{elements};
ghost use Rattle.soln_reader.specs.Views.{given, givens, block_of};
ghost use Rattle.fz_items.specs.Gives.{Fits, Gives, Puts};

use fz_items::{Element, Elements, Miss, Part, Slot};
use mz_value::{RangeSet, Shape, Value};
use std::alloc::Global;

/// What the items of a block gave for a shape.
#[derive(Drop)]
pub(crate) struct Given {
    pub occurs: Option<Elements>,
    pub value: Option<Elements>,
}

impl Given {
    /// Puts an item, where nothing stands under its name, and says whether it did.
    #[tactic(auto, unfolding(crate::specs::Blocks::put_in))]
    pub(crate) fn put(&mut self, part: Part, e: Elements) -> bool
        ensures { Fits result (put_in part (elements e) (given self.old)) (given self.new) }
    {
        match part {
            Part::Occurs => {
                if self.occurs.is_some() {
                    return false;
                }
                self.occurs = Some(e);
            }
            Part::Value => {
                if self.value.is_some() {
                    return false;
                }
                self.value = Some(e);
            }
        }
        true
    }
}

/// Whether a number is a domain's least.
fn is_first(x: i64, domain: &RangeSet) -> bool
    ensures { result ≡ is_first x domain.now }
{
    match domain.ranges() {
        [] => false,
        [first, ..] => x == first.0,
    }
}

/// Whether an element is its domain's least.
#[tactic(auto, unfolding(crate::specs::Blocks::is_least))]
fn is_least(v: &Element, domain: &RangeSet) -> bool
    ensures { result ≡ is_least (content_of v.now) domain.now }
{
    match v {
        Element::Truth(b) => is_first(if *b { 1 } else { 0 }, domain),
        Element::Number(x) => is_first(*x, domain),
        Element::Case(_, x) => is_first(*x, domain),
        Element::Set(_, s) => is_none(s),
    }
}

fn is_none(s: &RangeSet) -> bool
    ensures { result ≡ is_none s.now }
{
    match s.ranges() {
        [] => true,
        [_, ..] => false,
    }
}

#[tactic(auto, unfolding(crate::specs::Blocks::is_false))]
fn is_false(v: &Element) -> bool
    ensures { result ≡ is_false (content_of v.now) }
{
    match v {
        Element::Truth(b) => !*b,
        _ => false,
    }
}

/// An element as a value.
fn copied(alloc: Global, v: &Element) -> Result<Value, Miss>
    ensures { Gives content result (Some (content_of v.now)) }
{
    match v {
        Element::Truth(b) => Ok(Value::Bool(*b)),
        Element::Number(x) => Ok(Value::Int(*x)),
        Element::Case(e, x) => Ok(Value::Enum(*e, *x)),
        Element::Set(None, s) => Ok(Value::integers(s.copy(alloc)?)),
        Element::Set(Some(e), s) => Ok(Value::cases(*e, s.copy(alloc)?)),
    }
}

/// An element of an option: absent where it doesn't occur.
fn optional(alloc: Global, domain: &RangeSet, occurs: &Element, v: &Element) -> Result<Value, Miss>
    ensures { Gives content result (optional domain.now (content_of occurs.now) (content_of v.now)) }
{
    if !is_false(occurs) {
        return copied(alloc, v);
    }
    if is_least(v, domain) {
        Ok(Value::Absent)
    } else {
        Err(Miss::Unfit)
    }
}

/// The elements of an option, absent where they don't occur.
fn optional_all(
    alloc: Global,
    domains: &[RangeSet],
    occurs: &[Element],
    items: &[Element],
) -> Result<Vec<Value>, Miss>
    ensures { Gives (λ v. map content v.items) result (optional_all domains.now (contents_of occurs.now) (contents_of items.now)) }
{
    let mut values = Vec::new(alloc);
    let most = domains.len().min(occurs.len()).min(items.len());
    for k in 0..most {
        match optional(alloc, &domains[k], &occurs[k], &items[k]) {
            Ok(v) => values.push(v)?,
            Err(miss) => return Err(miss),
        }
    }
    Ok(values)
}

/// Elements as values.
fn copied_all(alloc: Global, items: &[Element]) -> Result<Vec<Value>, Miss>
    ensures { Gives (λ v. map content v.items) result (Some (contents_of items.now)) }
{
    let mut values = Vec::new(alloc);
    for x in items {
        match copied(alloc, x) {
            Ok(v) => values.push(v)?,
            Err(miss) => return Err(miss),
        }
    }
    Ok(values)
}

/// The value of some elements: an array, or the only element.
fn whole(
    alloc: Global,
    index: &Option<Vec<(i64, i64)>>,
    mut values: Vec<Value>,
) -> Result<Value, Miss>
    ensures { Gives content result (whole (option_map (λ v. v.items) index.now) (map content values.items)) }
{
    match index {
        Some(index) => {
            let index = Vec::from_slice(alloc, index)?;
            Ok(Value::array(index, values))
        }
        None => {
            if values.is_empty() {
                return Err(Miss::Unfit);
            }
            Ok(values.remove(0))
        }
    }
}

/// The elements of a shape's value.
fn values_of(alloc: Global, shape: &Shape, g: &Given, v: &Elements) -> Result<Vec<Value>, Miss>
    ensures { Gives (λ v. map content v.items) result (elements_of (form shape.now) (given g.now) (elements v.now)) }
{
    if !shape.opt {
        return copied_all(alloc, &v.items);
    }
    match &g.occurs {
        Some(o) => optional_all(alloc, &shape.domains, &o.items, &v.items),
        None => Err(Miss::Unfit),
    }
}

/// A shape's value, where all that is written under its names is given.
#[tactic(auto, unfolding(crate::specs::Blocks::solved))]
fn solved(alloc: Global, shape: &Shape, g: &Given) -> Result<Value, Miss>
    ensures { Gives content result (solved (form shape.now) (given g.now)) }
{
    match &g.value {
        Some(v) => {
            let values = values_of(alloc, shape, g, v)?;
            whole(alloc, &v.index, values)
        }
        None => Err(Miss::Unfit),
    }
}

/// A value for each shape, in the shapes' order.
fn solution(alloc: Global, shapes: &[Shape], gs: &[Given]) -> Result<Vec<Value>, Miss>
    ensures { Gives (λ v. map content v.items) result (solution (forms shapes.now) (givens gs.now)) }
{
    let mut values = Vec::new(alloc);
    for k in 0..shapes.len() {
        if gs.len() <= k {
            return Err(Miss::Unfit);
        }
        match solved(alloc, &shapes[k], &gs[k]) {
            Ok(v) => values.push(v)?,
            Err(miss) => return Err(miss),
        }
    }
    Ok(values)
}

/// What an open block holds where none is open.
fn nothing_for(alloc: Global, shapes: &[Shape]) -> Result<Vec<Given>, Miss>
    ensures { Gives (λ gs. givens gs.items) result (Some (nothing_for (forms shapes.now))) }
{
    let mut gs = Vec::new(alloc);
    for _shape in shapes {
        gs.push(Given {
            occurs: None,
            value: None,
        })?;
    }
    Ok(gs)
}

/// The solution that a block is at its end.
pub(crate) fn solution_of(
    alloc: Global,
    shapes: &[Shape],
    block: &Option<Vec<Given>>,
) -> Result<Vec<Value>, Miss>
    ensures { Gives (λ v. map content v.items) result (solution (forms shapes.now) (given_in (forms shapes.now) (block_of block.now))) }
{
    match block {
        Some(gs) => solution(alloc, shapes, gs),
        None => {
            let gs = nothing_for(alloc, shapes)?;
            solution(alloc, shapes, &gs)
        }
    }
}

/// Puts what an item gave under its name, and says whether nothing stood there.
#[tactic(auto, unfolding(crate::specs::Blocks::put))]
fn put_at(gs: &mut [Given], slot: Slot, e: Elements) -> bool
    ensures { Fits result (put slot (elements e) (givens gs.old)) (givens gs.new) }
{
    if slot.shape < gs.len() {
        gs[slot.shape].put(slot.part, e)
    } else {
        false
    }
}

/// Puts what an item gave into the open block, and opens one where none is.
fn put_in_block(
    alloc: Global,
    shapes: &[Shape],
    slot: Slot,
    e: Elements,
    block: &mut Option<Vec<Given>>,
) -> Result<(), Miss>
    ensures { Puts (block_of block.old) (block_of block.new) result (put slot (elements e) (given_in (forms shapes.now) (block_of block.old))) }
{
    let mut gs = match block.take() {
        Some(gs) => gs,
        None => nothing_for(alloc, shapes)?,
    };
    let fits = put_at(&mut gs, slot, e);
    *block = Some(gs);
    if fits { Ok(()) } else { Err(Miss::Unfit) }
}

/// The same, so that the slot can be cleared again.
pub(crate) fn put(
    alloc: Global,
    shapes: &[Shape],
    slot: Slot,
    e: Elements,
    block: &mut Option<Vec<Given>>,
) -> Result<(), Miss>
    ensures puts { Puts (block_of block.old) (block_of block.new) result (put slot (elements e) (given_in (forms shapes.now) (block_of block.old))) }
    ensures undo { OnOk result (Undo (Some slot) (block_of block.old) (block_of block.new)) }
{
    put_in_block(alloc, shapes, slot, e, block)
}
