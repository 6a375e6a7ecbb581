// The branches of an `if` under var conditions, of a type that is no array.

ghost use Rattle.std.specs.Prelude.{◌≡◌, ◌*◌, ◌+◌, ◌<◌, ◌∷◌, [], IfOk, MatchOption, None, is_some, length, true};
ghost use Rattle.mz_core.specs.Types.{plain_type};
ghost use Rattle.mz_operations.specs.Bounds as bounds;
ghost use Rattle.mz_meaning.specs.Arrays as arrays;
ghost use Rattle.mz_meaning.specs.Cells.{Var};
ghost use Rattle.mz_meaning.specs.Runs.{give};
ghost use Rattle.mz_symbol.specs.Readings.{Reading, Reads};
ghost use Rattle.mz_symbol.specs.Makes.{GoesOnBy, Means};
ghost use Rattle.mz_symbol_rows.specs.RowValues.{argument};
ghost use Rattle.mz_eval_cells.specs.Views.{cell_of, known_bound, seen};
ghost use Rattle.mz_eval_arrays.specs.Gathered.{pairs_by};
ghost use Rattle.mz_eval_arrays.specs.ArrayCells.{is_counted};
ghost use Rattle.mz_eval_arrays.specs.StepsBranches.{IsCondition, IsTruthOf, branch_value, branches_value, one_value, with_value};

use crate::branch_cell;
use crate::kinds::of_kind;
use mz_arena::Id;
use mz_base::{Memory, Span, Stop};
use mz_core::{Base, TypeInst};
use mz_eval_cells::{Bound, Known, share, share_bound};
use mz_eval_symbols::{cell_of_symbol, symbol_in};
use mz_symbol::{Run, Symbol};
use mz_symbol_access::choose;
use std::alloc::{AllocError, Global};

/// The node that is true where a truth value is, as an argument; else out of memory.
#[tactic(auto, using(crate::proofs::BranchLaws::truth_argument))]
fn truth_node(s: Symbol) -> Result<Id, Memory>
    ensures { IfOk result (IsTruthOf s) }
{
    match s.base {
        Base::Bool => match s.occurs {
            None => Ok(s.term),
            Some(_) => Err(Memory),
        },
        _ => Err(Memory),
    }
}

/// The node that is true where a condition is.
pub fn condition(alloc: Global, run: &mut Run, k: &Known) -> Result<Id, Stop>
    ensures goes { GoesOnBy 8 run.old run.new }
    ensures holds { IfOk result (λ id. (r : Reading) → Reads r run.new → IsCondition r run.old run.new k.now id) }
{
    let s = symbol_in(alloc, run, Base::Bool, false, k)?;
    let id = truth_node(s)?;
    Ok(id)
}

/// The symbol of a cell at a node of this base, an option or not.
fn branch_symbol(
    alloc: Global,
    run: &mut Run,
    base: Base,
    opt: bool,
    k: &Known,
) -> Result<Symbol, Stop>
    ensures goes { GoesOnBy 8 run.old run.new }
    ensures means { Means argument result run.old run.new (λ r. give (branches_value r [] k.now)) }
    ensures kind { IfOk result (λ x. is_counted x.base (is_some x.occurs) ≡ is_counted base opt) }
{
    let s = symbol_in(alloc, run, base, opt, k)?;
    let x = of_kind(s, base, opt)?;
    Ok(x)
}

/// The first of two symbols under a condition, else the second.
fn picked(
    run: &mut Run,
    base: Base,
    opt: bool,
    id: Id,
    x: Symbol,
    y: Symbol,
) -> Result<Symbol, Stop>
    requires first { is_counted x.base (is_some x.occurs) ≡ is_counted base opt }
    requires second { is_counted y.base (is_some y.occurs) ≡ is_counted base opt }
    ensures goes { GoesOnBy 32 run.old run.new }
    ensures means { Means argument result run.old run.new (λ r. give (one_value r id (argument r x) (argument r y))) }
    ensures kind { IfOk result (λ z. is_counted z.base (is_some z.occurs) ≡ is_counted base opt) }
{
    let s = choose(run, id, x, y)?;
    let z = of_kind(s, base, opt)?;
    Ok(z)
}

fn is_none(branches: &[(Known, Known)]) -> bool
    ensures { result ≡ true → branches.now ≡ [] }
{
    branches.is_empty()
}

/// The first branch, and the others.
fn split(branches: &[(Known, Known)]) -> Option<(&(Known, Known), &[(Known, Known)])>
    ensures are { MatchOption result (Unit {0}) (λ x. branches.now ≡ x.0.now ∷ x.1.now) }
    ensures less { MatchOption result (Unit {0}) (λ x. length x.1.now < length branches.now) }
{
    match branches {
        [] => None,
        [p, more @ ..] => Some((p, more)),
    }
}

/// The symbol of the first branch whose condition is true, and else of the last.
fn chosen(
    alloc: Global,
    run: &mut Run,
    base: Base,
    opt: bool,
    branches: &[(Known, Known)],
    last: &Known,
) -> Result<Symbol, Stop>
    ensures goes { GoesOnBy (48 * length branches.now + 8) run.old run.new }
    ensures means { Means argument result run.old run.new (λ r. give (branches_value r branches.now last.now)) }
    ensures kind { IfOk result (λ x. is_counted x.base (is_some x.occurs) ≡ is_counted base opt) }
{
    if is_none(branches) {
        return branch_symbol(alloc, run, base, opt, last);
    }
    let Some(x) = split(branches) else {
        return Err(Stop::Memory);
    };
    let rest = chosen(alloc, run, base, opt, x.1, last)?;
    let z = with_first(alloc, run, base, opt, x.0, rest)?;
    Ok(z)
}

/// One branch more before the others.
fn with_first(
    alloc: Global,
    run: &mut Run,
    base: Base,
    opt: bool,
    p: &(Known, Known),
    rest: Symbol,
) -> Result<Symbol, Stop>
    requires { is_counted rest.base (is_some rest.occurs) ≡ is_counted base opt }
    ensures goes { GoesOnBy 48 run.old run.new }
    ensures means { Means argument result run.old run.new (λ r. give (branch_value r p.now (argument r rest))) }
    ensures kind { IfOk result (λ x. is_counted x.base (is_some x.occurs) ≡ is_counted base opt) }
{
    let Ok(id) = condition(alloc, run, &p.0) else {
        return Err(Stop::Memory);
    };
    let x = branch_symbol(alloc, run, base, opt, &p.1)?;
    let z = picked(run, base, opt, id, x, rest)?;
    Ok(z)
}

#[tactic(auto, unfolding(mz_core::specs::Types::plain_type))]
fn base_of(t: &TypeInst) -> Base
    ensures { result ≡ (plain_type t.now).base }
{
    t.base
}

/// The bounds of a var cell that is no array; else out of memory.
pub fn var_bound(k: &Known) -> Result<Bound, AllocError>
    ensures { IfOk result (λ b. cell_of k.now ≡ Var (bounds.one (known_bound b)) None) }
{
    match k {
        Known::Var(v) => share_bound(&v.bound),
        _ => Err(AllocError),
    }
}

/// The cell of branches of a var type; `k` is the cell without a value.
fn open_branch(
    alloc: Global,
    run: &mut Run,
    t: &TypeInst,
    branches: &[(Known, Known)],
    last: &Known,
    k: &Known,
) -> Result<Known, Stop>
    ensures goes { GoesOnBy (48 * length branches.now + 8) run.old run.new }
    ensures means { Means seen result run.old run.new (λ r. give (with_value (branches_value r branches.now last.now) (cell_of k.now))) }
{
    let bound = var_bound(k)?;
    let base = base_of(t);
    let s = chosen(alloc, run, base, t.opt, branches, last)?;
    let x = cell_of_symbol(alloc, bound, s)?;
    Ok(x)
}

/// The cell of an `if` of this type, as `branch_cell` gives it, with its value where the type is var: the
/// last branch where it is par, and else that of the first branch whose condition is true, and else of
/// the last.
///
/// Refused as `branch_cell` is. What the nodes may cost the caller's work has to pay for. Out of memory
/// too where the type is one of arrays, and where a cell has no symbol.
pub fn branch_cell_in(
    alloc: Global,
    run: &mut Run,
    t: &TypeInst,
    at: Span,
    branches: &[(Known, Known)],
    last: Known,
) -> Result<Known, Stop>
    ensures goes { GoesOnBy (48 * length branches.now + 8) run.old run.new }
    ensures means { Means seen result run.old run.new (λ r. arrays.branch_cell r.mode (plain_type t.now) at (pairs_by (seen r) branches.now) (seen r last)) }
{
    if is_var(t) {
        let copy = share(&last)?;
        let k = branch_cell(alloc, t, at, branches, copy)?;
        let x = open_branch(alloc, run, t, branches, &last, &k)?;
        Ok(x)
    } else {
        Ok(last)
    }
}

#[tactic(auto, unfolding(mz_core::specs::Types::plain_type))]
fn is_var(t: &TypeInst) -> bool
    ensures { result ≡ (plain_type t.now).var }
{
    t.var
}
