// The cells that guards guard: they have their values where the guard holds, and none elsewhere.

ghost use Rattle.std.specs.Prelude.{◌≡◌, ◌*◌, ◌+◌, IfOk, List, None, Option, Some, false, length, map, true, ℕ};
ghost use Rattle.mz_value.specs.Contents as values;
ghost use Rattle.mz_value.specs.Contents.{Content};
ghost use Rattle.mz_value.specs.Ranges.{Range};
ghost use Rattle.mz_core.specs.declared.types.Base.TheVariants as base;
ghost use Rattle.mz_core.specs.Types.{plain_type};
ghost use Rattle.mz_arena.specs.Values.{Term, is_true};
ghost use Rattle.mz_operations.specs.Bounds as bounds;
ghost use Rattle.mz_meaning.specs.Cells as cells;
ghost use Rattle.mz_meaning.specs.Cells.{Bare, Var, held, kept_if, only_if, value_of};
ghost use Rattle.mz_symbol.specs.Makes.{GoesOnBy};
ghost use Rattle.mz_symbol.specs.Readings.{Reading};
ghost use Rattle.mz_symbol.specs.Symbols.{symbol_value};
ghost use Rattle.mz_symbol.specs.Arguments.{as_argument};
ghost use Rattle.mz_eval_symbols.specs.Taken.{array_argument, count_in, ranges_in};
ghost use Rattle.mz_eval_cells.specs.declared.types.Known.TheVariants as known;
ghost use Rattle.mz_eval_cells.specs.Views.{cell_of, known_bound, row_content, seen, truth_by, var_content};
ghost use Rattle.mz_eval_guards.specs.Guards.{IsCell, guard_seen, held_truth};
ghost use Rattle.mz_eval_guards.specs.StepsGuarding.{IsLineKept, IsTruth};

use crate::lines::line_items;
use crate::lying::{same_cell, truth_nodes};
use crate::types::Guard;
use glob_nodes::{Join, joined};
use mz_arena::Id;
use mz_base::Memory;
use mz_core::{Base, TypeInst};
use mz_eval_cells::{
    Bound, Known, Origin, Origins, VarItems, VarValue, row_of, share_bound, to_var, undefined,
    var_value,
};
use mz_eval_symbols::{cell_of_line, cell_of_symbol, cell_of_truth, line_in, symbol_in};
use mz_symbol::{Run, Symbol};
use std::alloc::{AllocError, Global};
use std::rc::Rc;

// ---- symbols

fn is_truth_by(b: Base, occurs: Option<Id>) -> bool
    ensures is { result ≡ true → b ≡ base.Bool }
    ensures plain { result ≡ true → occurs ≡ None }
    ensures no { result ≡ false → (v : Option Content) → as_argument b occurs v ≡ v }
{
    match b {
        Base::Bool => match occurs {
            None => true,
            Some(_) => false,
        },
        _ => false,
    }
}

/// Whether a symbol is a truth value that is no option.
fn is_truth(s: Symbol) -> bool
    ensures yes { result ≡ true → IsTruth s }
    ensures no { result ≡ false → (v : Option Content) → as_argument s.base s.occurs v ≡ v }
{
    is_truth_by(s.base, s.occurs)
}

/// A truth value where another is true, undefined elsewhere.
#[tactic(auto, using(mz_symbol_rows::proofs::GoingOn::goes_most))]
fn truth_kept(alloc: Global, run: &mut Run, bound: Bound, d: Id, x: Id) -> Result<Known, Memory>
    ensures goes { GoesOnBy 6 run.old run.new }
    ensures cell { IfOk result (IsCell run.old run.new (λ r.
        Var (bounds.one (known_bound bound)) (held r.mode (only_if (is_true (r.term d)) (Some (values.bool (is_true (r.term x)))))))) }
{
    let all = joined(run, Join::Both, d, x)?;
    let k = cell_of_truth(alloc, bound, all, d)?;
    Ok(k)
}

/// A value that is no truth value, or an option, where a truth value is true, undefined elsewhere.
#[tactic(auto, using(mz_symbol_rows::proofs::GoingOn::goes_most))]
fn other_kept(alloc: Global, run: &mut Run, bound: Bound, d: Id, s: Symbol) -> Result<Known, Memory>
    requires { (v : Option Content) → as_argument s.base s.occurs v ≡ v }
    ensures goes { GoesOnBy 20 run.old run.new }
    ensures cell { IfOk result (IsCell run.old run.new (λ r. Var (bounds.one (known_bound bound)) (held r.mode (only_if (is_true (r.term d)) (symbol_value r.term s))))) }
{
    let Ok(x) = mz_symbol_rows::options::guarded(run, d, s) else {
        return Err(Memory);
    };
    if is_truth(x) {
        return Err(Memory);
    }
    let k = cell_of_symbol(alloc, bound, x)?;
    Ok(k)
}

#[tactic(auto, using(mz_symbol_rows::proofs::GoingOn::goes_most))]
fn truth_symbol_kept(
    alloc: Global,
    run: &mut Run,
    bound: Bound,
    d: Id,
    s: Symbol,
) -> Result<Known, Memory>
    requires { IsTruth s }
    ensures goes { GoesOnBy 20 run.old run.new }
    ensures cell { IfOk result (IsCell run.old run.new (λ r.
        Var (bounds.one (known_bound bound)) (held r.mode (only_if (is_true (r.term d)) (as_argument s.base s.occurs (symbol_value r.term s)))))) }
{
    let k = truth_kept(alloc, run, bound, d, s.term)?;
    Ok(k)
}

#[tactic(auto, using(crate::proofs::GuardingLaws::other_symbol, mz_symbol_rows::proofs::GoingOn::goes_most))]
fn symbol_kept(
    alloc: Global,
    run: &mut Run,
    bound: Bound,
    d: Id,
    s: Symbol,
) -> Result<Known, Memory>
    ensures goes { GoesOnBy 20 run.old run.new }
    ensures cell { IfOk result (IsCell run.old run.new (λ r.
        Var (bounds.one (known_bound bound)) (held r.mode (only_if (is_true (r.term d)) (as_argument s.base s.occurs (symbol_value r.term s)))))) }
{
    if is_truth(s) {
        truth_symbol_kept(alloc, run, bound, d, s)
    } else {
        other_kept(alloc, run, bound, d, s)
    }
}

/// A truth value that may be undefined.
#[tactic(auto, using(mz_symbol_rows::proofs::GoingOn::goes_both))]
fn partial_kept(
    alloc: Global,
    run: &mut Run,
    bound: Bound,
    d: Id,
    yes: Id,
    defined: Id,
) -> Result<Known, Memory>
    ensures goes { GoesOnBy 12 run.old run.new }
    ensures cell { IfOk result (IsCell run.old run.new (λ r.
        Var (bounds.one (known_bound bound)) (held r.mode (only_if (is_true (r.term d)) (truth_by (is_true (r.term yes)) (is_true (r.term defined))))))) }
{
    let first = joined(run, Join::Both, d, yes)?;
    let second = joined(run, Join::Both, d, defined)?;
    let k = cell_of_truth(alloc, bound, first, second)?;
    Ok(k)
}

// ---- cells

#[tactic(auto, using(mz_symbol_rows::proofs::GoingOn::goes_both, mz_symbol_rows::proofs::GoingOn::goes_most))]
fn plain_kept(
    alloc: Global,
    run: &mut Run,
    base: Base,
    opt: bool,
    bound: Bound,
    d: Id,
    v: &Rc<VarValue>,
) -> Result<Known, Memory>
    ensures goes { GoesOnBy 28 run.old run.new }
    ensures cell { IfOk result (IsCell run.old run.new (λ r.
        Var (bounds.one (known_bound bound)) (held r.mode (only_if (is_true (r.term d)) (held r.mode (var_content r.term v.now.value)))))) }
{
    let k = same_cell(v)?;
    let Ok(s) = symbol_in(alloc, run, base, opt, &k) else {
        return Err(Memory);
    };
    let x = symbol_kept(alloc, run, bound, d, s)?;
    Ok(x)
}

/// Whether nothing tells the value of a var cell.
#[tactic(auto, using(crate::proofs::GuardingLaws::nothing_told))]
fn is_untold(v: &VarValue) -> bool
    ensures { result ≡ true → (t : ℕ → Term) → var_content t v.now ≡ None }
{
    match &v.origin {
        Origin::Nothing => true,
        Origin::Item(_) => false,
        Origin::Symbol(_) => false,
        Origin::Truth(_, _) => false,
    }
}

/// A var cell that is undefined wherever it is read.
fn untold_kept(
    alloc: Global,
    run: &mut Run,
    bound: Bound,
    d: Id,
    v: &Rc<VarValue>,
) -> Result<Known, Memory>
    requires { (t : ℕ → Term) → var_content t v.now.value ≡ None }
    ensures goes { GoesOnBy 28 run.old run.new }
    ensures cell { IfOk result (IsCell run.old run.new (λ r.
        Var (bounds.one (known_bound bound)) (held r.mode (only_if (is_true (r.term d)) (held r.mode (var_content r.term v.now.value)))))) }
{
    let _work = run.work();
    let k = var_value(alloc, bound)?;
    Ok(k)
}

/// A var cell that is no array, but no truth value that may be undefined.
fn whole_kept(
    alloc: Global,
    run: &mut Run,
    base: Base,
    opt: bool,
    bound: Bound,
    d: Id,
    v: &Rc<VarValue>,
) -> Result<Known, Memory>
    ensures goes { GoesOnBy 28 run.old run.new }
    ensures cell { IfOk result (IsCell run.old run.new (λ r.
        Var (bounds.one (known_bound bound)) (held r.mode (only_if (is_true (r.term d)) (held r.mode (var_content r.term v.now.value)))))) }
{
    if is_untold(v) {
        untold_kept(alloc, run, bound, d, v)
    } else {
        plain_kept(alloc, run, base, opt, bound, d, v)
    }
}

/// A var cell that is no array.
#[tactic(auto, using(crate::proofs::GuardingLaws::partial_var, crate::proofs::GuardingLaws::bound_cell, mz_symbol_rows::proofs::GoingOn::goes_most))]
fn var_kept(
    alloc: Global,
    run: &mut Run,
    base: Base,
    opt: bool,
    d: Id,
    v: &Rc<VarValue>,
) -> Result<Known, Memory>
    ensures goes { GoesOnBy 28 run.old run.new }
    ensures cell { IfOk result (IsCell run.old run.new (λ r.
        Var (bounds.one (known_bound v.now.value.bound)) (held r.mode (only_if (is_true (r.term d)) (held r.mode (var_content r.term v.now.value)))))) }
{
    let bound = share_bound(&v.bound)?;
    match truth_nodes(v) {
        Some(p) => partial_kept(alloc, run, bound, d, p.0, p.1),
        None => whole_kept(alloc, run, base, opt, bound, d, v),
    }
}

fn same_row(index: &Rc<Vec<(i64, i64)>>, xs: &Rc<VarItems>) -> Result<Known, AllocError>
    ensures seen { IfOk result (λ k. (r : Reading) → seen r k ≡ seen r (known.Row index.now xs.now)) }
    ensures ranges { IfOk result (λ k. ranges_in k ≡ index.now.value.items) }
    ensures count { IfOk result (λ k. count_in k ≡ length (map known_bound xs.now.value.bounds.value.items)) }
{
    let ranges = index.clone()?;
    Ok(Known::Row(ranges, xs.clone()?))
}

/// The array of a line with its elements where a truth value is true, undefined elsewhere.
#[tactic(auto, using(crate::proofs::RowLaws::line_goes, mz_symbol_rows::proofs::GoingOn::goes_most))]
fn line_kept(alloc: Global, run: &mut Run, d: Id, line: u64, count: u64) -> Result<u64, Memory>
    ensures goes { GoesOnBy (6 + 16 * count) run.old run.new }
    ensures line { IfOk result (IsLineKept run.old run.new d line) }
{
    let found = line_items(alloc, run, line, count)?;
    let both = joined(run, Join::Both, d, found.0)?;
    let Ok(made) = run.push_line(both, found.1) else {
        return Err(Memory);
    };
    Ok(made)
}

/// The cell of a line, with the index ranges and the bounds of another array.
fn line_cell(
    alloc: Global,
    index: &Rc<Vec<(i64, i64)>>,
    xs: &Rc<VarItems>,
    line: u64,
) -> Result<Known, AllocError>
    ensures of { IfOk result (λ k. cell_of k ≡ Var (bounds.many index.now.value.items (map known_bound xs.now.value.bounds.value.items)) None) }
    ensures seen { IfOk result (λ k. (r : Reading) → seen r k
        ≡ Var (bounds.many index.now.value.items (map known_bound xs.now.value.bounds.value.items)) (array_argument r index.now.value.items line)) }
{
    let ranges = index.clone()?;
    let all = xs.bounds.clone()?;
    cell_of_line(alloc, ranges, all, line)
}

/// Whether nothing tells the elements of a var array.
#[tactic(auto, using(crate::proofs::RowLaws::nothing_listed))]
fn is_untold_row(xs: &VarItems) -> bool
    ensures { result ≡ true → (l : ℕ → Option (List Content)) (ix : List Range) → row_content l ix xs.now ≡ None }
{
    match &xs.origins {
        Origins::Nothing => true,
        Origins::Values(_) => false,
        Origins::Line(_) => false,
    }
}

/// The array with these index ranges and bounds that nothing tells.
fn empty_row(
    alloc: Global,
    index: &Rc<Vec<(i64, i64)>>,
    xs: &Rc<VarItems>,
) -> Result<Known, AllocError>
    ensures of { IfOk result (λ k. cell_of k ≡ Var (bounds.many index.now.value.items (map known_bound xs.now.value.bounds.value.items)) None) }
    ensures seen { IfOk result (λ k. (r : Reading) → seen r k ≡ Var (bounds.many index.now.value.items (map known_bound xs.now.value.bounds.value.items)) (held r.mode None)) }
{
    let ranges = index.clone()?;
    let all = xs.bounds.clone()?;
    row_of(alloc, ranges, all, Origins::Nothing)
}

/// A var array that is undefined wherever it is read.
fn untold_row(
    alloc: Global,
    run: &mut Run,
    d: Id,
    index: &Rc<Vec<(i64, i64)>>,
    xs: &Rc<VarItems>,
) -> Result<Known, Memory>
    requires { (l : ℕ → Option (List Content)) (ix : List Range) → row_content l ix xs.now.value ≡ None }
    ensures goes { GoesOnBy (6 + 36 * length (map known_bound xs.now.value.bounds.value.items)) run.old run.new }
    ensures cell { IfOk result (IsCell run.old run.new (λ r.
        Var (bounds.many index.now.value.items (map known_bound xs.now.value.bounds.value.items)) (held r.mode (only_if (is_true (r.term d)) (value_of (seen r (known.Row index.now xs.now))))))) }
{
    let _work = run.work();
    let k = empty_row(alloc, index, xs)?;
    Ok(k)
}

/// A var array of which something tells the elements. A line of its own is made, which copies them.
#[tactic(auto, using(crate::proofs::RowLaws::row_goes, crate::proofs::RowLaws::row_begins))]
fn told_row(
    alloc: Global,
    run: &mut Run,
    base: Base,
    d: Id,
    index: &Rc<Vec<(i64, i64)>>,
    xs: &Rc<VarItems>,
) -> Result<Known, Memory>
    ensures goes { GoesOnBy (6 + 36 * length (map known_bound xs.now.value.bounds.value.items)) run.old run.new }
    ensures cell { IfOk result (IsCell run.old run.new (λ r.
        Var (bounds.many index.now.value.items (map known_bound xs.now.value.bounds.value.items)) (held r.mode (only_if (is_true (r.term d)) (value_of (seen r (known.Row index.now xs.now))))))) }
{
    let k = same_row(index, xs)?;
    let Ok(line) = line_in(alloc, run, base, &k) else {
        return Err(Memory);
    };
    let made = line_kept(alloc, run, d, line, xs.bounds.len() as u64)?;
    let x = line_cell(alloc, index, xs, made)?;
    Ok(x)
}

/// A var array.
fn row_kept(
    alloc: Global,
    run: &mut Run,
    base: Base,
    d: Id,
    index: &Rc<Vec<(i64, i64)>>,
    xs: &Rc<VarItems>,
) -> Result<Known, Memory>
    ensures goes { GoesOnBy (6 + 36 * length (map known_bound xs.now.value.bounds.value.items)) run.old run.new }
    ensures cell { IfOk result (IsCell run.old run.new (λ r.
        Var (bounds.many index.now.value.items (map known_bound xs.now.value.bounds.value.items)) (held r.mode (only_if (is_true (r.term d)) (value_of (seen r (known.Row index.now xs.now))))))) }
{
    if is_untold_row(xs) {
        untold_row(alloc, run, d, index, xs)
    } else {
        told_row(alloc, run, base, d, index, xs)
    }
}

/// A var cell, which has its value where a truth value is true.
#[tactic(auto, using(crate::proofs::GuardingLaws::kept_open, crate::proofs::GuardingLaws::kept_unshaped, mz_symbol_rows::proofs::GoingOn::goes_most))]
fn opened(
    alloc: Global,
    run: &mut Run,
    base: Base,
    opt: bool,
    d: Id,
    k: &Known,
) -> Result<Known, Memory>
    ensures goes { GoesOnBy (28 + 36 * count_in k.now) run.old run.new }
    ensures cell { IfOk result (IsCell run.old run.new (λ r. kept_if r.mode (held_truth r.mode (is_true (r.term d))) (seen r k.now))) }
{
    match k {
        Known::Undefined => Err(Memory),
        Known::One(_) => Err(Memory),
        Known::Array(_, _) => Err(Memory),
        Known::Var(v) => var_kept(alloc, run, base, opt, d, v),
        Known::Row(index, xs) => row_kept(alloc, run, base, d, index, xs),
        Known::Unshaped(n) => Ok(Known::Unshaped(*n)),
    }
}

// Whether values of this type are options of truth values: one that is none yet becomes one under a guard.
fn is_truth_option(t: &TypeInst) -> bool {
    match t.base {
        Base::Bool => t.opt,
        _ => false,
    }
}

#[tactic(auto, using(crate::proofs::GuardingLaws::open_cell))]
fn open_guarded(
    alloc: Global,
    run: &mut Run,
    t: &TypeInst,
    d: Id,
    k: &Known,
) -> Result<Known, Memory>
    ensures goes { GoesOnBy (28 + 36 * count_in k.now) run.old run.new }
    ensures cell { IfOk result (IsCell run.old run.new (λ r. kept_if r.mode (held_truth r.mode (is_true (r.term d))) (cells.to_var r.mode (plain_type t.now) (seen r k.now)))) }
{
    let x = to_var(alloc, t, k)?;
    let y = opened(alloc, run, t.base, is_truth_option(t), d, &x)?;
    Ok(y)
}

/// The cell without its value.
#[tactic(auto, using(crate::proofs::GuardingLaws::empty_var))]
fn emptied(alloc: Global, k: &Known) -> Result<Known, AllocError>
    ensures of { IfOk result (λ x. cell_of x ≡ kept_if Bare false (cell_of k.now)) }
    ensures seen { IfOk result (λ x. (r : Reading) → seen r x ≡ kept_if r.mode false (seen r k.now)) }
{
    match k {
        Known::Undefined => Ok(undefined()),
        Known::One(_) => Ok(undefined()),
        Known::Array(_, _) => Ok(undefined()),
        Known::Var(v) => {
            let bound = share_bound(&v.bound)?;
            var_value(alloc, bound)
        }
        Known::Row(index, xs) => {
            let ranges = index.clone()?;
            let all = xs.bounds.clone()?;
            row_of(alloc, ranges, all, Origins::Nothing)
        }
        Known::Unshaped(n) => Ok(Known::Unshaped(*n)),
    }
}

#[tactic(auto, using(crate::proofs::GuardingLaws::kept_true, crate::proofs::GuardingLaws::kept_bare))]
fn par_guarded(alloc: Global, is: bool, k: Known) -> Result<Known, AllocError>
    ensures of { IfOk result (λ x. cell_of x ≡ kept_if Bare is (cell_of k)) }
    ensures seen { IfOk result (λ x. (r : Reading) → seen r x ≡ kept_if r.mode is (seen r k)) }
{
    if is { Ok(k) } else { emptied(alloc, &k) }
}

/// A cell of this type, which is undefined where something that is declared doesn't hold; and var
/// where par cells alone don't tell it.
///
/// What the nodes may cost the caller's work has to pay for: a var array's elements are copied into
/// a line of its own. Out of memory too where `symbol_in` or `line_in` is.
#[tactic(auto, using(crate::proofs::GuardingLaws::par_cell, mz_symbol_rows::proofs::GoingOn::goes_most))]
pub fn guarded(
    alloc: Global,
    run: &mut Run,
    t: &TypeInst,
    g: Guard,
    k: Known,
) -> Result<Known, Memory>
    ensures goes { GoesOnBy (28 + 36 * count_in k) run.old run.new }
    ensures cell { IfOk result (IsCell run.old run.new (λ r. cells.guarded r.mode (plain_type t.now) (guard_seen r g) (seen r k))) }
{
    match g {
        Guard::Par(is) => {
            let x = par_guarded(alloc, is, k)?;
            Ok(x)
        }
        Guard::Open(d) => open_guarded(alloc, run, t, d, &k),
    }
}
