// One cell more of a list that is gathered, under each reading.

ghost use Rattle.std.specs.Prelude.{◌≡◌, ◌++◌, ◌∷◌, [], IfOk, MatchOption, map};
ghost use Rattle.mz_value.specs.Contents.{content};
ghost use Rattle.mz_meaning.specs.Cells.{par_value};
ghost use Rattle.mz_symbol.specs.Readings.{Reading};
ghost use Rattle.mz_eval_cells.specs.Views.{all_seen, item_content, seen};
ghost use Rattle.mz_eval_arrays.specs.Gathered.{gathered_by};
ghost use Rattle.mz_eval_comprehensions.specs.Views.{value_cell};

use mz_eval_arrays::Gathered;
use mz_eval_cells::{Item, Known, copied_cell};
use mz_value::Value;
use std::alloc::{AllocError, Global};

// the value of an item that holds nothing
fn plain_item(i: &Item) -> Option<Value>
    ensures { MatchOption result (Unit {0}) (λ v. content v ≡ item_content i.now) }
{
    match i {
        Item::Bool(b) => Some(Value::Bool(*b)),
        Item::Int(n) => Some(Value::Int(*n)),
        Item::Enum(e, k) => Some(Value::Enum(*e, *k)),
        Item::Absent => Some(Value::Absent),
        Item::Set(_) => None,
        Item::Text(_) => None,
    }
}

fn plain(k: &Known) -> Option<Value>
    ensures { MatchOption result (Unit {0}) (λ v. (r : Reading) → seen r k.now ≡ par_value (content v)) }
{
    match k {
        Known::One(i) => plain_item(i),
        _ => None,
    }
}

fn with_cell(mut cells: Vec<Known>, k: Known) -> Result<Gathered, AllocError>
    ensures { IfOk result (λ g. (r : Reading) → gathered_by (seen r) g ≡ all_seen r cells.items ++ seen r k ∷ []) }
{
    cells.push(k)?;
    Ok(Gathered::Cells(cells))
}

fn with_value(mut items: Vec<Value>, v: Value) -> Result<Gathered, AllocError>
    ensures { IfOk result (λ g. (r : Reading) → gathered_by (seen r) g ≡ map value_cell items.items ++ value_cell v ∷ []) }
{
    items.push(v)?;
    Ok(Gathered::Items(items))
}

fn with_copy(alloc: Global, made: Vec<Known>, x: &Value) -> Result<Vec<Known>, AllocError>
    ensures { IfOk result (λ v. (r : Reading) → all_seen r v.items ≡ all_seen r made.items ++ value_cell x.now ∷ []) }
{
    let mut more = made;
    let k = copied_cell(alloc, x)?;
    more.push(k)?;
    Ok(more)
}

fn cells_of(alloc: Global, items: &[Value]) -> Result<Vec<Known>, AllocError>
    ensures { IfOk result (λ v. (r : Reading) → all_seen r v.items ≡ map value_cell items.now) }
{
    let mut all = Vec::new(alloc);
    for x in items {
        all = with_copy(alloc, all, x)?;
    }
    Ok(all)
}

fn with_var(alloc: Global, items: &[Value], k: Known) -> Result<Gathered, AllocError>
    ensures { IfOk result (λ g. (r : Reading) → gathered_by (seen r) g ≡ map value_cell items.now ++ seen r k ∷ []) }
{
    let all = cells_of(alloc, items)?;
    with_cell(all, k)
}

fn with_other(alloc: Global, items: Vec<Value>, k: Known) -> Result<Gathered, AllocError>
    ensures { IfOk result (λ g. (r : Reading) → gathered_by (seen r) g ≡ map value_cell items.items ++ seen r k ∷ []) }
{
    match plain(&k) {
        Some(v) => with_value(items, v),
        None => with_var(alloc, &items, k),
    }
}

/// One cell more.
pub fn gathered_with(alloc: Global, g: Gathered, k: Known) -> Result<Gathered, AllocError>
    ensures { IfOk result (λ x. (r : Reading) → gathered_by (seen r) x ≡ gathered_by (seen r) g ++ seen r k ∷ []) }
{
    match g {
        Gathered::Items(items) => with_other(alloc, items, k),
        Gathered::Cells(cells) => with_cell(cells, k),
    }
}
