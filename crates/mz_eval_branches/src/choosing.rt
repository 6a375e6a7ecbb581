// The cell of an `if` under var conditions, of any type, with its value.

ghost use Rattle.std.specs.Prelude.{◌≡◌, IfOk, None, true};
ghost use Rattle.mz_core.specs.Types.{plain_type};
ghost use Rattle.mz_meaning.specs.Arrays as arrays;
ghost use Rattle.mz_meaning.specs.Runs.{State, give};
ghost use Rattle.mz_symbol.specs.Readings.{Reading};
ghost use Rattle.mz_symbol.specs.Makes.{GoesOn, Means, MeetsAt};
ghost use Rattle.mz_eval_cells.specs.Views.{cell_of, seen};
ghost use Rattle.mz_eval_arrays.specs.Gathered.{pairs_by};
ghost use Rattle.mz_eval_arrays.specs.StepsBranches.{branches_value, with_value};
ghost use Rattle.mz_eval_symbols.specs.Taken.{line_seen};
ghost use Rattle.mz_eval_branches.specs.BranchLines.{has_no_value, option_seen};

use crate::charges::{fold_charge, symbols_charge};
use crate::conditions::{all_settled, are_told};
use crate::folding::chosen_line;
use crate::lines::count_in;
use crate::truths::chosen_truth;
use crate::undefined::{has_missing, has_no_value, no_values, unvalued};
use mz_base::{Span, Stop};
use mz_core::{Base, TypeInst};
use mz_eval_arrays::{branch_cell, branch_cell_in, var_bound};
use mz_eval_cells::{Known, share};
use mz_eval_symbols::{cell_of_line, cell_of_truth};
use mz_symbol::Run;
use std::alloc::{AllocError, Global};

// ---- arrays

/// The cell of a line, with the index ranges and the bounds of a cell without a value.
fn line_cell(alloc: Global, like: &Known, line: u64) -> Result<Known, AllocError>
    ensures { IfOk result (λ x. (r : Reading) → seen r x ≡ with_value (line_seen like.now r line) (cell_of like.now)) }
{
    match like {
        Known::Row(index, xs) => {
            let ranges = index.clone()?;
            cell_of_line(alloc, ranges, xs.bounds.clone()?, line)
        }
        _ => Err(AllocError),
    }
}

/// A cell without a value once more.
fn same_cell(like: &Known) -> Result<Known, AllocError>
    requires { has_no_value like.now ≡ true }
    ensures { IfOk result (λ x. (r : Reading) → seen r x ≡ with_value None (cell_of like.now)) }
{
    let same = share(like)?;
    Ok(same)
}

fn option_cell(alloc: Global, like: &Known, line: Option<u64>) -> Result<Known, AllocError>
    requires { has_no_value like.now ≡ true }
    ensures { IfOk result (λ x. (r : Reading) → seen r x ≡ with_value (option_seen like.now r line) (cell_of like.now)) }
{
    match line {
        None => same_cell(like),
        Some(n) => line_cell(alloc, like, n),
    }
}

fn drawn_line(
    alloc: Global,
    run: &mut Run,
    base: Base,
    like: &Known,
    branches: &[(Known, Known)],
    last: &Known,
) -> Result<Option<u64>, Stop>
    ensures goes { GoesOn run.old run.new }
    ensures means { Means (option_seen like.now) result run.old run.new (λ r. give (branches_value r branches.now last.now)) }
{
    let count = count_in(like);
    let charge = fold_charge(count, branches.len() as u64)?;
    run.draw(charge)?;
    let line = chosen_line(alloc, run, base, like, branches, last)?;
    Ok(line)
}

/// A var array with the value of the chosen branch; `k` is the cell without a value.
fn array_choice(
    alloc: Global,
    run: &mut Run,
    base: Base,
    branches: &[(Known, Known)],
    last: &Known,
    k: &Known,
) -> Result<Known, Stop>
    ensures goes { GoesOn run.old run.new }
    ensures means { Means seen result run.old run.new (λ r. give (with_value (branches_value r branches.now last.now) (cell_of k.now))) }
{
    if !has_no_value(k) {
        return Err(Stop::Memory);
    }
    let line = drawn_line(alloc, run, base, k, branches, last)?;
    let x = option_cell(alloc, k, line)?;
    Ok(x)
}

/// The same; where no branch has a value, it is the cell without one.
fn valued(
    alloc: Global,
    run: &mut Run,
    base: Base,
    branches: &[(Known, Known)],
    last: &Known,
    k: Known,
) -> Result<Known, Stop>
    ensures goes { GoesOn run.old run.new }
    ensures means { Means seen result run.old run.new (λ r. give (with_value (branches_value r branches.now last.now) (cell_of k))) }
{
    if no_values(branches, last) {
        let x = unvalued(k)?;
        return Ok(x);
    }
    array_choice(alloc, run, base, branches, last, &k)
}

/// The bounds of branches of a var type, as a cell without a value.
fn shaped(
    alloc: Global,
    t: &TypeInst,
    at: Span,
    branches: &[(Known, Known)],
    last: &Known,
) -> Result<Known, Stop>
    requires { (plain_type t.now).var ≡ true }
    ensures { (r : Reading) (s : State) → MeetsAt (λ k. with_value (branches_value r branches.now last.now) (cell_of k)) result s
        (arrays.branch_cell r.mode (plain_type t.now) at (pairs_by (seen r) branches.now) (seen r last.now) s) }
{
    let copy = share(last)?;
    let k = branch_cell(alloc, t, at, branches, copy)?;
    Ok(k)
}

// ---- what is no array

fn symbol_choice(
    alloc: Global,
    run: &mut Run,
    t: &TypeInst,
    at: Span,
    branches: &[(Known, Known)],
    last: &Known,
) -> Result<Known, Stop>
    ensures goes { GoesOn run.old run.new }
    ensures means { Means seen result run.old run.new (λ r. arrays.branch_cell r.mode (plain_type t.now) at (pairs_by (seen r) branches.now) (seen r last.now)) }
{
    let copy = share(last)?;
    let charge = symbols_charge(branches.len() as u64)?;
    run.draw(charge)?;
    branch_cell_in(alloc, run, t, at, branches, copy)
}

/// The truth value of the chosen branch, which may be undefined; `k` is the cell without a value.
fn drawn_truth(
    alloc: Global,
    run: &mut Run,
    branches: &[(Known, Known)],
    last: &Known,
    k: &Known,
) -> Result<Known, Stop>
    ensures goes { GoesOn run.old run.new }
    ensures means { Means seen result run.old run.new (λ r. give (with_value (branches_value r branches.now last.now) (cell_of k.now))) }
{
    let bound = var_bound(k)?;
    let charge = symbols_charge(branches.len() as u64)?;
    run.draw(charge)?;
    let nodes = chosen_truth(alloc, run, branches, last)?;
    let x = cell_of_truth(alloc, bound, nodes.0, nodes.1)?;
    Ok(x)
}

fn truth_choice(
    alloc: Global,
    run: &mut Run,
    t: &TypeInst,
    at: Span,
    branches: &[(Known, Known)],
    last: &Known,
) -> Result<Known, Stop>
    requires { (plain_type t.now).var ≡ true }
    ensures goes { GoesOn run.old run.new }
    ensures means { Means seen result run.old run.new (λ r. arrays.branch_cell r.mode (plain_type t.now) at (pairs_by (seen r) branches.now) (seen r last.now)) }
{
    let k = shaped(alloc, t, at, branches, last)?;
    let x = drawn_truth(alloc, run, branches, last, &k)?;
    Ok(x)
}

/// Whether values of a type are Booleans, and no options.
fn are_truths(t: &TypeInst) -> bool {
    match t.base {
        Base::Bool => !t.opt,
        _ => false,
    }
}

/// The cell of branches of a var type that is no array.
fn scalar_choice(
    alloc: Global,
    run: &mut Run,
    t: &TypeInst,
    at: Span,
    branches: &[(Known, Known)],
    last: &Known,
) -> Result<Known, Stop>
    requires { (plain_type t.now).var ≡ true }
    ensures goes { GoesOn run.old run.new }
    ensures means { Means seen result run.old run.new (λ r. arrays.branch_cell r.mode (plain_type t.now) at (pairs_by (seen r) branches.now) (seen r last.now)) }
{
    if are_truths(t) && has_missing(branches, last) {
        return truth_choice(alloc, run, t, at, branches, last);
    }
    symbol_choice(alloc, run, t, at, branches, last)
}

// ---- any type

/// The cell of branches of a var type.
fn open_choice(
    alloc: Global,
    run: &mut Run,
    t: &TypeInst,
    at: Span,
    branches: &[(Known, Known)],
    last: &Known,
) -> Result<Known, Stop>
    requires { (plain_type t.now).var ≡ true }
    ensures goes { GoesOn run.old run.new }
    ensures means { Means seen result run.old run.new (λ r. arrays.branch_cell r.mode (plain_type t.now) at (pairs_by (seen r) branches.now) (seen r last.now)) }
{
    if t.dims.is_empty() && !no_values(branches, last) {
        return scalar_choice(alloc, run, t, at, branches, last);
    }
    let k = shaped(alloc, t, at, branches, last)?;
    let x = valued(alloc, run, t.base, branches, last, k)?;
    Ok(x)
}

/// The same, of branches that it holds.
fn held_choice(
    alloc: Global,
    run: &mut Run,
    t: &TypeInst,
    at: Span,
    branches: Vec<(Known, Known)>,
    last: &Known,
) -> Result<Known, Stop>
    requires { (plain_type t.now).var ≡ true }
    ensures goes { GoesOn run.old run.new }
    ensures means { Means seen result run.old run.new (λ r. arrays.branch_cell r.mode (plain_type t.now) at (pairs_by (seen r) branches.items) (seen r last.now)) }
{
    open_choice(alloc, run, t, at, &branches, last)
}

#[tactic(auto, unfolding(mz_core::specs::Types::plain_type))]
fn is_var(t: &TypeInst) -> bool
    ensures { result ≡ (plain_type t.now).var }
{
    t.var
}

/// The cell of an `if` of this type, as `branch_cell` of `mz_eval_arrays` gives it, with its value: the
/// last branch where the type is par, and else that of the first branch whose condition is true, and
/// else of the last.
///
/// Refused as `branch_cell` is. Where no branch has a value nothing is made. Else what the nodes may
/// cost is drawn from what the run has saved: 48 a branch and 8 of what is no array; of arrays with n
/// elements 108 n + 24 a branch, and 20 n. Out of memory too where less is saved, and where the line of
/// a branch, or the symbol of a branch or a condition, is (`line_in` and `symbol_in` of
/// `mz_eval_symbols`).
pub fn chosen_branch(
    alloc: Global,
    run: &mut Run,
    t: &TypeInst,
    at: Span,
    branches: &[(Known, Known)],
    last: Known,
) -> Result<Known, Stop>
    ensures goes { GoesOn run.old run.new }
    ensures means { Means seen result run.old run.new (λ r. arrays.branch_cell r.mode (plain_type t.now) at (pairs_by (seen r) branches.now) (seen r last)) }
{
    if !is_var(t) {
        return Ok(last);
    }
    if are_told(branches) {
        return open_choice(alloc, run, t, at, branches, &last);
    }
    let all = all_settled(alloc, branches)?;
    held_choice(alloc, run, t, at, all, &last)
}
