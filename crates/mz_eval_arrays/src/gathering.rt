// Lists of cells that are gathered one by one.

ghost use Rattle.std.specs.Prelude.{◌≡◌, ◌++◌, ◌∷◌, [], IfOk, MatchOption, map};
ghost use Rattle.mz_value.specs.Contents.{content};
ghost use Rattle.mz_meaning.specs.Cells.{par_value};
ghost use Rattle.mz_eval_cells.specs.Views.{cell_of, cells_of, item_content};
ghost use Rattle.mz_eval_arrays.specs.Gathered.{gathered};

use mz_eval_cells::{Item, Known, copied_cell};
use mz_value::Value;
use std::alloc::{AllocError, Global};

/// The cells of a list so far: their values alone while each is a truth value, an integer, a case or
/// absent.
#[derive(Drop)]
pub enum Gathered {
    Items(Vec<Value>),
    Cells(Vec<Known>),
}

/// No cell.
pub fn nothing_gathered(alloc: Global) -> Gathered
    ensures { gathered result ≡ [] }
{
    Gathered::Items(Vec::new(alloc))
}

// the value of an item that holds nothing
fn plain_item(i: &Item) -> Option<Value>
    ensures { MatchOption result (Unit {0}) (λ v. content v ≡ item_content i.now) }
{
    match i {
        Item::Bool(b) => Some(Value::Bool(*b)),
        Item::Int(n) => Some(Value::Int(*n)),
        Item::Enum(e, k) => Some(Value::Enum(*e, *k)),
        Item::Absent => Some(Value::Absent),
        Item::Set(_) => None,
        Item::Text(_) => None,
    }
}

fn plain(k: &Known) -> Option<Value>
    ensures { MatchOption result (Unit {0}) (λ v. cell_of k.now ≡ par_value (content v)) }
{
    match k {
        Known::One(i) => plain_item(i),
        _ => None,
    }
}

fn with_cell(mut cells: Vec<Known>, k: Known) -> Result<Gathered, AllocError>
    ensures { IfOk result (λ g. gathered g ≡ cells_of cells.items ++ cell_of k ∷ []) }
{
    cells.push(k)?;
    Ok(Gathered::Cells(cells))
}

fn with_value(mut items: Vec<Value>, v: Value) -> Result<Gathered, AllocError>
    ensures { IfOk result (λ g. gathered g ≡ map (λ x. par_value (content x)) items.items ++ par_value (content v) ∷ []) }
{
    items.push(v)?;
    Ok(Gathered::Items(items))
}

fn all_seen(alloc: Global, items: &[Value]) -> Result<Vec<Known>, AllocError>
    ensures { IfOk result (λ v. cells_of v.items ≡ map (λ x. par_value (content x)) items.now) }
{
    let mut all = Vec::new(alloc);
    for x in items {
        let k = copied_cell(alloc, x)?;
        all.push(k)?;
    }
    Ok(all)
}

fn with_other(alloc: Global, items: Vec<Value>, k: Known) -> Result<Gathered, AllocError>
    ensures { IfOk result (λ g. gathered g ≡ map (λ x. par_value (content x)) items.items ++ cell_of k ∷ []) }
{
    match plain(&k) {
        Some(v) => with_value(items, v),
        None => {
            let all = all_seen(alloc, &items)?;
            with_cell(all, k)
        }
    }
}

/// One cell more.
pub fn gathered_with(alloc: Global, g: Gathered, k: Known) -> Result<Gathered, AllocError>
    ensures { IfOk result (λ x. gathered x ≡ gathered g ++ cell_of k ∷ []) }
{
    match g {
        Gathered::Items(items) => with_other(alloc, items, k),
        Gathered::Cells(cells) => with_cell(cells, k),
    }
}
