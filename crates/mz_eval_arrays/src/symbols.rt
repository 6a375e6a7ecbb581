// Cells one by one → symbols.

ghost use Rattle.std.specs.Prelude.{◌≡◌, ◌*◌, ◌+◌, IfOk, length};
ghost use Rattle.mz_symbol.specs.Readings.{Reading, Reads};
ghost use Rattle.mz_symbol.specs.Makes.{GoesOnBy};
ghost use Rattle.mz_symbol_rows.specs.RowValues.{argument};
ghost use Rattle.mz_eval_arrays.specs.StepsLines.{AreSymbols, OneSymbol};

use mz_base::Stop;
use mz_core::Base;
use mz_eval_cells::Known;
use mz_eval_symbols::symbol_in;
use mz_symbol::{Run, Symbol};
use std::alloc::Global;

/// One symbol more.
fn with_symbol(
    alloc: Global,
    run: &mut Run,
    base: Base,
    opt: bool,
    k: &Known,
    made: Vec<Symbol>,
) -> Result<Vec<Symbol>, Stop>
    ensures goes { GoesOnBy 8 run.old run.new }
    ensures more { IfOk result (λ v. (r : Reading) → Reads r run.new → OneSymbol argument r run.old run.new k.now made.items v.items) }
    ensures count { IfOk result (λ v. length v.items ≡ length made.items + 1) }
{
    let s = symbol_in(alloc, run, base, opt, k)?;
    let mut more = made;
    more.push(s)?;
    Ok(more)
}

/// The symbols of cells, of nodes whose types have this base and are options where `opt` says so.
pub(crate) fn symbols_of(
    alloc: Global,
    run: &mut Run,
    base: Base,
    opt: bool,
    all: &[Known],
) -> Result<Vec<Symbol>, Stop>
    ensures goes { GoesOnBy (8 * length all.now) run.old run.new }
    ensures made { IfOk result (λ v. (r : Reading) → Reads r run.new → AreSymbols argument r run.old run.new all.now v.items) }
    ensures count { IfOk result (λ v. length v.items ≡ length all.now) }
{
    let mut made = Vec::new(alloc);
    for k in all {
        made = with_symbol(alloc, run, base, opt, k, made)?;
    }
    Ok(made)
}
