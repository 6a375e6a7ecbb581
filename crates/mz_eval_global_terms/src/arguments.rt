// The arguments of calls of globals: cells → nodes.

ghost use Rattle.std.specs.Prelude.{◌≡◌, ◌∷◌, [], IfOk, length};
ghost use Rattle.mz_meaning.specs.Operations.{size_of};
ghost use Rattle.mz_symbol.specs.Makes.{GoesOn, GoesOnBy};
ghost use Rattle.mz_eval_cells.specs.Views.{cell_of};
ghost use Rattle.mz_eval_global_terms.specs.Calls.{IsArray, IsLine, IsNumber, IsOneSet, IsRange, IsSets, IsSymbol, IsTruths};

use glob_nodes::{Numbers, integer, numbers_of};
use glob_sets::{set_of_integers, sets_of, truths_of};
use mz_arena::Id;
use mz_base::Memory;
use mz_core::Base;
use mz_eval_cells::Known;
use mz_eval_row_symbols::{drawn_line, size_of};
use mz_eval_symbols::symbol_in;
use mz_symbol::{Run, Symbol};
use std::alloc::Global;

fn one_range(index: &[(i64, i64)]) -> Result<(i64, i64), Memory>
    ensures { IfOk result (λ x. index.now ≡ x ∷ []) }
{
    match index {
        [x] => Ok(*x),
        _ => Err(Memory),
    }
}

/// The index range of an array of one dimension. Out of memory too of other arrays, and of what is no
/// array.
fn range_of(k: &Known) -> Result<(i64, i64), Memory>
    ensures { IfOk result (IsRange k.now) }
{
    match k {
        Known::Undefined => Ok((1, 0)),
        Known::Array(index, _) => {
            let x = one_range(index.as_slice())?;
            Ok(x)
        }
        Known::Row(index, _) => {
            let x = one_range(index.as_slice())?;
            Ok(x)
        }
        Known::Unshaped(_) => Ok((1, 0)),
        _ => Err(Memory),
    }
}

/// Out of memory where an array hasn't as many elements as its cell says.
fn has_size(a: &Numbers, k: &Known) -> Result<(), Memory>
    ensures { IfOk result (λ _. length a.now.items.items ≡ size_of (cell_of k.now)) }
{
    if a.items.len() as u64 != size_of(k) {
        return Err(Memory);
    }
    Ok(())
}

/// The number of the line that an array is. What a line that is made may cost is drawn.
fn line_in(alloc: Global, run: &mut Run, base: Base, k: &Known) -> Result<u64, Memory>
    ensures goes { GoesOn run.old run.new }
    ensures line { IfOk result (IsLine k.now run.old run.new) }
{
    match drawn_line(alloc, run, base, k) {
        Ok(line) => Ok(line),
        Err(_) => Err(Memory),
    }
}

/// An array of integers. What a line that is made may cost is drawn.
pub(crate) fn numbers_in(alloc: Global, k: &Known, run: &mut Run) -> Result<Numbers, Memory>
    ensures goes { GoesOn run.old run.new }
    ensures array { IfOk result (IsArray k.now run.old run.new) }
{
    let x = range_of(k)?;
    let line = line_in(alloc, run, Base::Int, k)?;
    let a = numbers_of(alloc, run, line, x.0, x.1)?;
    has_size(&a, k)?;
    Ok(a)
}

/// Two arrays of integers.
#[tactic(auto, using(mz_symbol_rows::proofs::GoingOn::goes_both))]
pub(crate) fn two_in(
    alloc: Global,
    a: &Known,
    b: &Known,
    run: &mut Run,
) -> Result<(Numbers, Numbers), Memory>
    ensures goes { GoesOn run.old run.new }
    ensures first { IfOk result (λ p. IsArray a.now run.old run.new p.0) }
    ensures second { IfOk result (λ p. IsArray b.now run.old run.new p.1) }
{
    let x = numbers_in(alloc, a, run)?;
    let y = numbers_in(alloc, b, run)?;
    Ok((x, y))
}

/// An array of sets of integers. What a line that is made may cost is drawn.
pub(crate) fn sets_in(alloc: Global, k: &Known, run: &mut Run) -> Result<Numbers, Memory>
    ensures goes { GoesOn run.old run.new }
    ensures sets { IfOk result (IsSets k.now run.old run.new) }
{
    let x = range_of(k)?;
    let line = line_in(alloc, run, Base::SetInt, k)?;
    let a = sets_of(alloc, run, line, x.0, x.1)?;
    has_size(&a, k)?;
    Ok(a)
}

/// An array of Booleans. What a line that is made may cost is drawn.
pub(crate) fn truths_in(alloc: Global, k: &Known, run: &mut Run) -> Result<Numbers, Memory>
    ensures goes { GoesOn run.old run.new }
    ensures truths { IfOk result (IsTruths k.now run.old run.new) }
{
    let x = range_of(k)?;
    let line = line_in(alloc, run, Base::Bool, k)?;
    let a = truths_of(alloc, run, line, x.0, x.1)?;
    has_size(&a, k)?;
    Ok(a)
}

/// The symbol that a cell is.
fn plain_in(alloc: Global, run: &mut Run, base: Base, k: &Known) -> Result<Symbol, Memory>
    ensures goes { GoesOnBy 8 run.old run.new }
    ensures symbol { IfOk result (IsSymbol k.now run.old run.new) }
{
    match symbol_in(alloc, run, base, false, k) {
        Ok(s) => Ok(s),
        Err(_) => Err(Memory),
    }
}

/// An integer.
pub(crate) fn number_in(alloc: Global, k: &Known, run: &mut Run) -> Result<Id, Memory>
    ensures goes { GoesOnBy 8 run.old run.new }
    ensures number { IfOk result (IsNumber k.now run.old run.new) }
{
    let s = plain_in(alloc, run, Base::Int, k)?;
    let id = integer(s)?;
    Ok(id)
}

/// A set of integers.
pub(crate) fn set_in(alloc: Global, k: &Known, run: &mut Run) -> Result<Id, Memory>
    ensures goes { GoesOnBy 8 run.old run.new }
    ensures set { IfOk result (IsOneSet k.now run.old run.new) }
{
    let s = plain_in(alloc, run, Base::SetInt, k)?;
    let id = set_of_integers(s)?;
    Ok(id)
}
