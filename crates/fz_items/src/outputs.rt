// The output names of shapes, in a table.

ghost use Rattle.std.specs.Prelude.{◌≡◌, ◌++◌, ◌∷◌, [], IfOk, OnOk, string_bytes};
ghost use Rattle.std.specs.HashMap.{get_by_text};
ghost use Rattle.mz_value.specs.Contents.{text_bytes};
ghost use Rattle.fz_items.specs.Forms.{form, forms, outputs_of, outputs_from};
ghost use Rattle.fz_items.specs.Gives.{Gives};
ghost use Rattle.fz_items.specs.Tables.{Finds, FindsAlso};

use crate::miss::Miss;
use mz_value::{Shape, TextValue};
use std::alloc::{AllocError, Global};
use std::collections::HashMap;

/// What is written under an output name: the occurrence of an option, or a value.
#[derive(Clone, Copy, Debug)]
pub enum Part {
    /// Whether an option occurs.
    Occurs,
    /// A value.
    Value,
}

/// An output name's shape, by its place, and what is written under the name.
#[derive(Clone, Copy, Debug)]
pub struct Slot {
    pub shape: usize,
    pub part: Part,
}

/// The slots of output names.
pub type Table = HashMap<String, Slot>;

/// A text before a label.
fn prefixed(alloc: Global, prefix: &str, label: &TextValue) -> Result<String, AllocError>
    ensures { IfOk result (λ name. string_bytes name ≡ prefix.now ++ text_bytes label.now) }
{
    let mut name = String::from_str(alloc, prefix)?;
    name.push_str(label.text.as_str())?;
    Ok(name)
}

/// Adds a name, where it isn't there yet.
fn add(table: &mut Table, name: String, slot: Slot) -> Result<(), AllocError>
    ensures { OnOk result (FindsAlso table.old table.new ((string_bytes name, slot) ∷ [])) }
{
    match table.get(name.as_str()) {
        Some(_) => Ok(()),
        None => {
            table.insert(name, slot)?;
            Ok(())
        }
    }
}

/// Adds the output names of a shape.
fn add_shape(alloc: Global, table: &mut Table, k: usize, shape: &Shape) -> Result<(), AllocError>
    ensures { OnOk result (FindsAlso table.old table.new (outputs_of k (form shape.now))) }
{
    let value = Slot {
        shape: k,
        part: Part::Value,
    };
    if shape.opt {
        let occurs = Slot {
            shape: k,
            part: Part::Occurs,
        };
        let first = prefixed(alloc, "X_OCC_", &shape.label)?;
        add(table, first, occurs)?;
        let second = prefixed(alloc, "X_VAL_", &shape.label)?;
        add(table, second, value)?;
        return Ok(());
    }
    let label = prefixed(alloc, "", &shape.label)?;
    add(table, label, value)?;
    Ok(())
}

/// The table of shapes' output names. Where two are equal, the first counts.
pub fn table_of(alloc: Global, shapes: &[Shape]) -> Result<Table, AllocError>
    ensures { IfOk result (λ table. Finds table (outputs_from 0 (forms shapes.now))) }
{
    let mut table = HashMap::new(alloc);
    for (k, shape) in shapes.iter().enumerate() {
        add_shape(alloc, &mut table, k, shape)?;
    }
    Ok(table)
}

/// The slot of a name.
pub(crate) fn slot_named(table: &Table, name: &str) -> Result<Slot, Miss>
    ensures { Gives (λ s. s) result (get_by_text table.now name.now) }
{
    match table.get(name) {
        Some(slot) => Ok(*slot),
        None => Err(Miss::Unfit),
    }
}
