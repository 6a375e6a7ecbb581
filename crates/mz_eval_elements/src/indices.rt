// Indices as symbols.

ghost use Rattle.std.specs.Prelude.{◌≡◌, ◌*◌, ◌+◌, IfOk, length};
ghost use Rattle.mz_meaning.specs.Runs.{give};
ghost use Rattle.mz_symbol.specs.Readings.{Reading, Reads, symbol_seen};
ghost use Rattle.mz_symbol.specs.Makes.{GoesOnBy, Means};
ghost use Rattle.mz_eval_symbols.specs.Taken.{cell_value};
ghost use Rattle.mz_eval_arrays.specs.StepsLines.{AreSymbols, OneSymbol};

use mz_base::Stop;
use mz_core::Base;
use mz_eval_arrays::uncounted;
use mz_eval_cells::{Item, Known, Origin, VarValue};
use mz_eval_symbols::symbol_in;
use mz_symbol::{Run, Symbol};
use std::alloc::Global;

fn item_base(i: &Item) -> Base {
    match i {
        Item::Enum(e, _) => Base::Enum(*e),
        _ => Base::Int,
    }
}

fn value_base(v: &VarValue) -> Base {
    match &v.origin {
        Origin::Item(i) => item_base(i),
        _ => Base::Int,
    }
}

/// The base of an index, where its cell tells it; else that of integers.
fn index_base(k: &Known) -> Base {
    match k {
        Known::One(i) => item_base(i),
        Known::Var(v) => value_base(v),
        _ => Base::Int,
    }
}

fn index_symbol(alloc: Global, run: &mut Run, k: &Known) -> Result<Symbol, Stop>
    ensures goes { GoesOnBy 8 run.old run.new }
    ensures means { Means symbol_seen result run.old run.new (λ r. give (cell_value r k.now)) }
{
    let base = index_base(k);
    let s = symbol_in(alloc, run, base, false, k)?;
    let x = uncounted(s)?;
    Ok(x)
}

/// One index more.
fn with_index(
    alloc: Global,
    run: &mut Run,
    k: &Known,
    made: Vec<Symbol>,
) -> Result<Vec<Symbol>, Stop>
    ensures goes { GoesOnBy 8 run.old run.new }
    ensures more { IfOk result (λ v. (r : Reading) → Reads r run.new → OneSymbol symbol_seen r run.old run.new k.now made.items v.items) }
    ensures count { IfOk result (λ v. length v.items ≡ length made.items + 1) }
{
    let s = index_symbol(alloc, run, k)?;
    let mut more = made;
    more.push(s)?;
    Ok(more)
}

/// The symbols of indices.
pub(crate) fn indices_of(alloc: Global, run: &mut Run, at: &[Known]) -> Result<Vec<Symbol>, Stop>
    ensures goes { GoesOnBy (8 * length at.now) run.old run.new }
    ensures made { IfOk result (λ v. (r : Reading) → Reads r run.new → AreSymbols symbol_seen r run.old run.new at.now v.items) }
    ensures count { IfOk result (λ v. length v.items ≡ length at.now) }
{
    let mut made = Vec::new(alloc);
    for k in at {
        made = with_index(alloc, run, k, made)?;
    }
    Ok(made)
}
