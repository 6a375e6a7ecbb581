// Branches as lines of the run: an undefined branch is no line, until another one has a line.

ghost use Rattle.std.specs.Prelude.{◌≡◌, ◌*◌, ◌+◌, IfOk, None, length, true};
ghost use Rattle.mz_meaning.specs.Runs.{give};
ghost use Rattle.mz_symbol.specs.Makes.{GoesOnBy, Means};
ghost use Rattle.mz_symbol_access.specs.ChosenValues.{chosen_line};
ghost use Rattle.mz_eval_symbols.specs.Taken.{cell_value, count_in, line_seen, ranges_in};
ghost use Rattle.mz_eval_arrays.specs.StepsBranches.{one_value};
ghost use Rattle.mz_eval_branches.specs.BranchLines.{option_seen};

use crate::undefined::has_no_value;
use mz_arena::Id;
use mz_base::{Memory, Stop};
use mz_core::Base;
use mz_eval_cells::{Known, length_of};
use mz_eval_symbols::line_in;
use mz_symbol::{Run, Symbol};
use mz_symbol_access::choose_elements;
use mz_symbol_arrays::lines::defined;
use std::alloc::Global;

fn same_ranges(a: &[(i64, i64)], b: &[(i64, i64)]) -> bool
    ensures { result ≡ true → a.now ≡ b.now }
{
    a == b
}

fn ranges_in(k: &Known) -> &[(i64, i64)]
    ensures { result.now ≡ ranges_in k.now }
{
    match k {
        Known::Array(index, _) => index.as_slice(),
        Known::Row(index, _) => index.as_slice(),
        _ => &[],
    }
}

fn has_ranges(k: &Known, like: &Known) -> bool
    ensures { result ≡ true → ranges_in k.now ≡ ranges_in like.now }
{
    same_ranges(ranges_in(k), ranges_in(like))
}

pub(crate) fn count_in(k: &Known) -> u64
    ensures { result ≡ count_in k.now }
{
    match length_of(k) {
        None => 0,
        Some(n) => n,
    }
}

fn are_so_many(own: u64, count: u64) -> Result<(), Memory>
    ensures { IfOk result (λ _. own ≡ count) }
{
    if own == count { Ok(()) } else { Err(Memory) }
}

/// Out of memory where the index ranges of two cells aren't the same.
fn are_ranges_of(k: &Known, like: &Known) -> Result<(), Memory>
    ensures { IfOk result (λ _. ranges_in k.now ≡ ranges_in like.now) }
{
    if has_ranges(k, like) {
        Ok(())
    } else {
        Err(Memory)
    }
}

/// The line of an array whose index ranges are those of another cell, and that has so many elements.
fn fitting_line(
    alloc: Global,
    run: &mut Run,
    base: Base,
    count: u64,
    like: &Known,
    k: &Known,
) -> Result<u64, Stop>
    ensures goes { GoesOnBy (20 * count) run.old run.new }
    ensures means { Means (line_seen like.now) result run.old run.new (λ r. give (cell_value r k.now)) }
{
    are_ranges_of(k, like)?;
    let own = count_in(k);
    are_so_many(own, count)?;
    let line = line_in(alloc, run, base, k)?;
    Ok(line)
}

/// The line of a branch; none of one that is undefined.
///
/// Out of memory too of what is no array, and where its index ranges aren't those of `like`, or its
/// elements aren't so many.
pub(crate) fn ranged_line(
    alloc: Global,
    run: &mut Run,
    base: Base,
    count: u64,
    like: &Known,
    k: &Known,
) -> Result<Option<u64>, Stop>
    ensures goes { GoesOnBy (20 * count) run.old run.new }
    ensures means { Means (option_seen like.now) result run.old run.new (λ r. give (cell_value r k.now)) }
{
    if has_no_value(k) {
        return Ok(None);
    }
    let line = fitting_line(alloc, run, base, count, like, k)?;
    Ok(Some(line))
}

// ---- one of two

/// The elements of an array, of which there are so many.
fn items_of(alloc: Global, run: &Run, line: u64, count: u64) -> Result<Vec<Symbol>, Memory>
    ensures { IfOk result (λ v. length v.items ≡ count) }
{
    let Some(l) = run.line(line) else {
        return Err(Memory);
    };
    let items = Vec::from_slice(alloc, &l.items)?;
    are_so_many(items.len() as u64, count)?;
    Ok(items)
}

/// An array that isn't defined, with the elements of another one, of which there are so many.
fn blank_line(alloc: Global, run: &mut Run, count: u64, other: u64) -> Result<u64, Stop>
    ensures goes { GoesOnBy (20 * count) run.old run.new }
    ensures means { (like : Known) → Means (line_seen like) result run.old run.new (λ r. give None) }
{
    let items = items_of(alloc, run, other, count)?;
    let no = run.truth_node(false)?;
    let line = run.push_line(no, items)?;
    Ok(line)
}

/// The first of two arrays with so many elements under a condition, else the second.
fn one_line(alloc: Global, run: &mut Run, id: Id, count: u64, p: u64, q: u64) -> Result<u64, Stop>
    ensures goes { GoesOnBy (52 * count + 16) run.old run.new }
    ensures means { Means (λ r. r.line) result run.old run.new (λ r. give (chosen_line r id p q)) }
{
    let found = defined(run, p)?;
    are_so_many(found.1, count)?;
    let one = choose_elements(alloc, run, id, p, q)?;
    let line = run.push_line(one.defined, one.items)?;
    Ok(line)
}

/// The same under the index ranges of a cell.
fn of_both(
    alloc: Global,
    run: &mut Run,
    like: &Known,
    id: Id,
    count: u64,
    p: u64,
    q: u64,
) -> Result<Option<u64>, Stop>
    ensures goes { GoesOnBy (52 * count + 16) run.old run.new }
    ensures means { Means (option_seen like.now) result run.old run.new (λ r. give (one_value r id (line_seen like.now r p) (line_seen like.now r q))) }
{
    let _ranges = like;
    let line = one_line(alloc, run, id, count, p, q)?;
    Ok(Some(line))
}

/// The same where the second is undefined.
#[tactic(auto, using(crate::proofs::LineLaws::goes_blank_alone, crate::proofs::LineLaws::goes_blank_chosen))]
fn of_first(
    alloc: Global,
    run: &mut Run,
    like: &Known,
    id: Id,
    count: u64,
    p: u64,
) -> Result<Option<u64>, Stop>
    ensures goes { GoesOnBy (72 * count + 16) run.old run.new }
    ensures means { Means (option_seen like.now) result run.old run.new (λ r. give (one_value r id (line_seen like.now r p) None)) }
{
    let Ok(none) = blank_line(alloc, run, count, p) else {
        return Err(Stop::Memory);
    };
    let line = of_both(alloc, run, like, id, count, p, none)?;
    Ok(line)
}

/// The same where the first is.
#[tactic(auto, using(crate::proofs::LineLaws::goes_blank_alone, crate::proofs::LineLaws::goes_blank_chosen))]
fn of_second(
    alloc: Global,
    run: &mut Run,
    like: &Known,
    id: Id,
    count: u64,
    q: u64,
) -> Result<Option<u64>, Stop>
    ensures goes { GoesOnBy (72 * count + 16) run.old run.new }
    ensures means { Means (option_seen like.now) result run.old run.new (λ r. give (one_value r id None (line_seen like.now r q))) }
{
    let Ok(none) = blank_line(alloc, run, count, q) else {
        return Err(Stop::Memory);
    };
    let line = of_both(alloc, run, like, id, count, none, q)?;
    Ok(line)
}

/// The same of lines that may be undefined; none where both are.
#[tactic(auto, using(crate::proofs::LineLaws::goes_both_there, crate::proofs::LineLaws::goes_one_there))]
pub(crate) fn one_option(
    alloc: Global,
    run: &mut Run,
    like: &Known,
    id: Id,
    p: Option<u64>,
    q: Option<u64>,
) -> Result<Option<u64>, Stop>
    ensures goes { GoesOnBy (88 * count_in like.now + 16) run.old run.new }
    ensures means { Means (option_seen like.now) result run.old run.new
        (λ r. give (one_value r id (option_seen like.now r p) (option_seen like.now r q))) }
{
    let count = count_in(like);
    match p {
        Some(x) => match q {
            Some(y) => of_both(alloc, run, like, id, count, x, y),
            None => of_first(alloc, run, like, id, count, x),
        },
        None => match q {
            Some(y) => of_second(alloc, run, like, id, count, y),
            None => Ok(None),
        },
    }
}
