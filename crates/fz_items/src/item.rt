// Items of the stream.

ghost use Rattle.fz_items.specs.Forms.{form, forms, outputs_from};
ghost use Rattle.fz_items.specs.Items.{given_at, item_at, item_of, is_empty};
ghost use Rattle.fz_items.specs.Gives.{Gives};
ghost use Rattle.fz_items.specs.Tables.{Finds};
ghost use Rattle.fz_items.specs.Views.{elements};

use crate::miss::Miss;
use crate::outputs::{Part, Slot, Table, slot_named};
use crate::token::{expect, is_empty, name};
use crate::value::{Elements, value};
use mz_value::Shape;
use std::alloc::Global;

/// What is written under a name of a shape, up to the end of the line.
#[tactic(auto, unfolding(crate::specs::Items::given_at))]
fn given(alloc: Global, part: Part, shape: &Shape, bytes: &[u8]) -> Result<Elements, Miss>
    ensures { Gives elements result (given_at part (form shape.now) bytes.now) }
{
    let (v, rest) = value(alloc, part, shape, bytes)?;
    let rest = expect(b";", rest)?;
    if is_empty(rest) {
        Ok(v)
    } else {
        Err(Miss::Unfit)
    }
}

/// What is written under a slot's name.
#[tactic(auto, unfolding(crate::specs::Items::item_at))]
fn item_at(
    alloc: Global,
    shapes: &[Shape],
    slot: Slot,
    bytes: &[u8],
) -> Result<(Slot, Elements), Miss>
    ensures { Gives (λ i. (i.0, elements i.1)) result (item_at (forms shapes.now) slot bytes.now) }
{
    match shapes.get(slot.shape) {
        Some(shape) => {
            let v = given(alloc, slot.part, shape, bytes)?;
            Ok((slot, v))
        }
        None => Err(Miss::Unfit),
    }
}

/// An item, by its line: its slot, and what it gives.
#[tactic(auto, unfolding(crate::specs::Items::item_of))]
pub fn read_item(
    alloc: Global,
    shapes: &[Shape],
    table: &Table,
    line: &[u8],
) -> Result<(Slot, Elements), Miss>
    requires { Finds table.now (outputs_from 0 (forms shapes.now)) }
    ensures { Gives (λ i. (i.0, elements i.1)) result (item_of (forms shapes.now) line.now) }
{
    let (name, rest) = name(line)?;
    let rest = expect(b"=", rest)?;
    let slot = slot_named(table, name)?;
    item_at(alloc, shapes, slot, rest)
}
