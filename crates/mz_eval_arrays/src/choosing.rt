// The branches of an `if` under var conditions.

ghost use Rattle.std.specs.Prelude.{◌≡◌, ◌++◌, ◌∷◌, [], IfOk, None, map, pos, true, zip};
ghost use Rattle.std.specs.List.{list_all};
ghost use Rattle.std.specs.Option.{option_map};
ghost use Rattle.mz_core.specs.Types.{plain_type};
ghost use Rattle.mz_operations.specs.Bounds as bounds;
ghost use Rattle.mz_operations.specs.Sets as sets;
ghost use Rattle.mz_meaning.specs.Arrays as arrays;
ghost use Rattle.mz_meaning.specs.Cells.{Bare};
ghost use Rattle.mz_eval_cells.specs.Meets.{Tells};
ghost use Rattle.mz_eval_cells.specs.Views.{cell_of, known_bound, known_bounds};
ghost use Rattle.mz_eval_arrays.specs.Gathered.{pairs_of};

use mz_base::{Fault, Kind, Span, Stop};
use mz_builtin_arguments::union;
use mz_core::TypeInst;
use mz_eval_cells::{
    Bound, Bounds, Known, bounds_as, bounds_in, index_of, share_bound, share_bounds, var_cell,
};
use mz_value::RangeSet;
use std::alloc::{AllocError, Global};
use std::rc::Rc;

/// The bounds of a branch; `None` of an array without a shape.
#[tactic(auto, unfolding(mz_core::specs::Types::plain_type))]
fn branch_bounds_of(alloc: Global, t: &TypeInst, k: &Known) -> Result<Option<Bounds>, AllocError>
    ensures { IfOk result (λ b. option_map known_bounds b ≡ arrays.branch_bounds_of (plain_type t.now) (cell_of k.now)) }
{
    if t.dims.is_empty() {
        let b = bounds_as(alloc, t, k)?;
        return Ok(Some(b));
    }
    match index_of(k) {
        None => Ok(None),
        Some(_) => {
            let b = bounds_in(alloc, k)?;
            Ok(Some(b))
        }
    }
}

fn push_if(mut all: Vec<Bounds>, b: Option<Bounds>) -> Result<Vec<Bounds>, AllocError>
    ensures { IfOk result (λ v. map known_bounds v.items ≡ map known_bounds all.items ++ arrays.all_bounds (option_map known_bounds b ∷ [])) }
{
    match b {
        None => Ok(all),
        Some(x) => {
            all.push(x)?;
            Ok(all)
        }
    }
}

fn open_bounds(
    alloc: Global,
    t: &TypeInst,
    branches: &[(Known, Known)],
) -> Result<Vec<Bounds>, AllocError>
    ensures { IfOk result (λ v. map known_bounds v.items ≡ arrays.all_bounds (map (λ p. arrays.branch_bounds_of (plain_type t.now) (cell_of p.1)) branches.now)) }
{
    let mut all = Vec::new(alloc);
    for p in branches {
        let b = branch_bounds_of(alloc, t, &p.1)?;
        all = push_if(all, b)?;
    }
    Ok(all)
}

/// The bounds of all branches that have some.
#[tactic(auto, using(crate::proofs::BranchBounds::all_bounds_last))]
fn all_bounds(
    alloc: Global,
    t: &TypeInst,
    branches: &[(Known, Known)],
    last: &Known,
) -> Result<Vec<Bounds>, AllocError>
    ensures { IfOk result (λ v. map known_bounds v.items ≡ arrays.all_bounds (map (arrays.branch_bounds_of (plain_type t.now)) (map (λ p. p.1) (pairs_of branches.now) ++ cell_of last.now ∷ []))) }
{
    let all = open_bounds(alloc, t, branches)?;
    let b = branch_bounds_of(alloc, t, last)?;
    push_if(all, b)
}

/// At least nothing, and at most this.
fn at_most(alloc: Global, upper: Rc<RangeSet>) -> Result<Bound, AllocError>
    ensures { IfOk result (λ b. known_bound b ≡ bounds.sets [] upper.value) }
{
    let none = RangeSet::range(alloc, 1, 0)?;
    let lower = Rc::new(alloc, none)?;
    Ok(Bound::Sets(lower, upper))
}

fn at_most_both(alloc: Global, u: &RangeSet, v: &RangeSet) -> Result<Bound, AllocError>
    ensures { IfOk result (λ b. known_bound b ≡ bounds.sets [] (sets.union u.now v.now)) }
{
    let both = union(alloc, u, v)?;
    let upper = Rc::new(alloc, both)?;
    at_most(alloc, upper)
}

/// The bounds of one value of two branches.
#[tactic(auto, unfolding(mz_operations::specs::Bounds::branch_bound))]
fn branch_bound(alloc: Global, b: &Bound, c: &Bound) -> Result<Bound, AllocError>
    ensures { IfOk result (λ x. known_bound x ≡ bounds.branch_bound (known_bound b.now) (known_bound c.now)) }
{
    match (b, c) {
        (Bound::Number(l, h), Bound::Number(m, n)) => {
            Ok(Bound::Number((*l).min(*m), (*h).max(*n)))
        }
        (Bound::Sets(_, u), Bound::Sets(_, v)) => at_most_both(alloc, u, v),
        (Bound::Number(_, _), Bound::Sets(_, _)) => share_bound(b),
        (Bound::Sets(_, _), Bound::Number(_, _)) => share_bound(b),
    }
}

fn with_branch(
    alloc: Global,
    b: &Bound,
    c: &Bound,
    mut all: Vec<Bound>,
) -> Result<Vec<Bound>, AllocError>
    ensures { IfOk result (λ v. map known_bound v.items ≡ map known_bound all.items ++ bounds.branch_bound (known_bound b.now) (known_bound c.now) ∷ []) }
{
    let x = branch_bound(alloc, b, c)?;
    all.push(x)?;
    Ok(all)
}

fn all_branch_bounds(alloc: Global, bs: &[Bound], cs: &[Bound]) -> Result<Vec<Bound>, AllocError>
    ensures { IfOk result (λ v. map known_bound v.items ≡ map (λ p. bounds.branch_bound p.0 p.1) (zip (map known_bound bs.now) (map known_bound cs.now))) }
{
    let mut all = Vec::new(alloc);
    let mut others = cs;
    for b in bs {
        match others {
            [] => return Ok(all),
            [c, more @ ..] => {
                all = with_branch(alloc, b, c, all)?;
                others = more;
            }
        }
    }
    Ok(all)
}

fn array_branches(
    alloc: Global,
    index: &Rc<Vec<(i64, i64)>>,
    bs: &[Bound],
    cs: &[Bound],
) -> Result<Bounds, AllocError>
    ensures { IfOk result (λ x. known_bounds x ≡ bounds.many index.now.value.items (map (λ p. bounds.branch_bound p.0 p.1) (zip (map known_bound bs.now) (map known_bound cs.now)))) }
{
    let all = all_branch_bounds(alloc, bs, cs)?;
    let held = Rc::new(alloc, all)?;
    Ok(Bounds::Many(index.clone()?, held))
}

/// The bounds of two branches.
#[tactic(auto, unfolding(mz_operations::specs::Bounds::branch_bounds))]
fn branch_bounds(alloc: Global, b: &Bounds, c: &Bounds) -> Result<Bounds, AllocError>
    ensures { IfOk result (λ x. known_bounds x ≡ bounds.branch_bounds (known_bounds b.now) (known_bounds c.now)) }
{
    match (b, c) {
        (Bounds::One(p), Bounds::One(q)) => Ok(Bounds::One(branch_bound(alloc, p, q)?)),
        (Bounds::Many(index, bs), Bounds::Many(_, cs)) => {
            array_branches(alloc, index, bs.as_slice(), cs.as_slice())
        }
        (Bounds::One(_), Bounds::Many(_, _)) => share_bounds(b),
        (Bounds::Many(_, _), Bounds::One(_)) => share_bounds(b),
    }
}

/// Of a set nothing is sure under a condition.
fn opened(alloc: Global, b: &Bound) -> Result<Bound, AllocError>
    ensures { IfOk result (λ x. known_bound x ≡ bounds.opened (known_bound b.now)) }
{
    match b {
        Bound::Number(l, h) => Ok(Bound::Number(*l, *h)),
        Bound::Sets(_, upper) => at_most(alloc, upper.clone()?),
    }
}

fn all_opened(alloc: Global, bs: &[Bound]) -> Result<Vec<Bound>, AllocError>
    ensures { IfOk result (λ v. map known_bound v.items ≡ map bounds.opened (map known_bound bs.now)) }
{
    let mut all = Vec::new(alloc);
    for b in bs {
        let x = opened(alloc, b)?;
        all.push(x)?;
    }
    Ok(all)
}

fn first_branch(alloc: Global, b: &Bounds) -> Result<Bounds, AllocError>
    ensures { IfOk result (λ x. known_bounds x ≡ bounds.first_branch (known_bounds b.now)) }
{
    match b {
        Bounds::One(p) => Ok(Bounds::One(opened(alloc, p)?)),
        Bounds::Many(index, bs) => {
            let all = all_opened(alloc, bs.as_slice())?;
            let held = Rc::new(alloc, all)?;
            Ok(Bounds::Many(index.clone()?, held))
        }
    }
}

/// The bounds of all branches.
#[tactic(auto, unfolding(mz_operations::specs::Bounds::if_bounds))]
fn if_bounds(alloc: Global, first: &Bounds, rest: &[Bounds]) -> Result<Bounds, AllocError>
    ensures { IfOk result (λ x. known_bounds x ≡ bounds.if_bounds (known_bounds first.now) (map known_bounds rest.now)) }
{
    let mut acc = share_bounds(first)?;
    for b in rest {
        acc = branch_bounds(alloc, &acc, b)?;
    }
    first_branch(alloc, &acc)
}

fn same_ranges(a: &[(i64, i64)], b: &[(i64, i64)]) -> bool
    ensures { result ≡ sets.same_set a.now b.now }
{
    a == b
}

fn same_shape(b: &Bounds, c: &Bounds) -> bool
    ensures { result ≡ arrays.same_shape (known_bounds b.now) (known_bounds c.now) }
{
    match (b, c) {
        (Bounds::Many(ix, _), Bounds::Many(jx, _)) => same_ranges(ix.as_slice(), jx.as_slice()),
        (Bounds::Many(_, _), Bounds::One(_)) => false,
        (Bounds::One(_), Bounds::Many(_, _)) => true,
        (Bounds::One(_), Bounds::One(_)) => true,
    }
}

fn are_alike(first: &Bounds, rest: &[Bounds]) -> bool
    ensures { result ≡ list_all (arrays.same_shape (known_bounds first.now)) (map known_bounds rest.now) }
{
    for b in rest {
        if !same_shape(first, b) {
            return false;
        }
    }
    true
}

fn mismatch(at: Span) -> Stop
    ensures { result ≡ Stop.Refused (record { kind = Kind.IndexMismatch; span = at; number = pos 0 }) }
{
    Stop::Refused(Fault::at(Kind::IndexMismatch, at))
}

/// The cell of branches with these bounds.
#[tactic(auto, unfolding(mz_core::specs::Types::plain_type))]
fn branches_cell(alloc: Global, t: &TypeInst, at: Span, all: &[Bounds]) -> Result<Known, Stop>
    ensures { Tells cell_of result (arrays.branches_cell Bare (plain_type t.now) at (map known_bounds all.now) None) }
{
    match all {
        [] => Ok(Known::Unshaped(t.dims.len() as u64)),
        [first, rest @ ..] => {
            if !are_alike(first, rest) {
                return Err(mismatch(at));
            }
            let b = if_bounds(alloc, first, rest)?;
            Ok(var_cell(alloc, b)?)
        }
    }
}

fn open_choice(
    alloc: Global,
    t: &TypeInst,
    at: Span,
    branches: &[(Known, Known)],
    last: &Known,
) -> Result<Known, Stop>
    requires { (plain_type t.now).var ≡ true }
    ensures { Tells cell_of result (arrays.branch_cell Bare (plain_type t.now) at (pairs_of branches.now) (cell_of last.now)) }
{
    let all = all_bounds(alloc, t, branches, last)?;
    branches_cell(alloc, t, at, &all)
}

/// The cell of an `if` of this type: the last branch where the type is par; else a var cell, whose
/// bounds are those of all branches, the ones under var conditions with these, and the last one.
///
/// Refused IndexMismatch at `at` where two branches are arrays of different index ranges.
#[tactic(auto, unfolding(mz_core::specs::Types::plain_type))]
pub fn branch_cell(
    alloc: Global,
    t: &TypeInst,
    at: Span,
    branches: &[(Known, Known)],
    last: Known,
) -> Result<Known, Stop>
    ensures { Tells cell_of result (arrays.branch_cell Bare (plain_type t.now) at (pairs_of branches.now) (cell_of last)) }
{
    if t.var {
        open_choice(alloc, t, at, branches, &last)
    } else {
        Ok(last)
    }
}
