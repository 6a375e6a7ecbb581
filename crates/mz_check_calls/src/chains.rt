// Chains of operators: one node, with the operators one after the other.

ghost use Rattle.std.specs.Prelude.{◌≡◌, ◌∷◌, [], ◌++◌, map, slice_index_or, IfOk};
ghost use Rattle.mz_core.specs.Types.{plain_type};
ghost use Rattle.mz_core.specs.Paths.{path_links};
ghost use Rattle.mz_core.specs.Tree.{type_of};
ghost use Rattle.mz_core.specs.TreeViews.{tree, step};
ghost use Rattle.mz_check_meaning.specs.Coerced.{coercions_to, bottom_type};
ghost use Rattle.mz_check_meaning.specs.Calls.{row_of};
ghost use Rattle.mz_check_meaning.specs.Chains.{row_number, operator_name, step_of, operated, then_step, from_left, from_right, chain_node, appended};
ghost use Rattle.mz_check_meaning.specs.Passes.{Passes};
ghost use Rattle.mz_check_calls.specs.Rows.{IsRow};
ghost use Rattle.mz_check_calls.specs.StepsChains.{preceded};
ghost use Rattle.mz_check_calls.specs.Views.{candidate, operand, chained, chained_back};

use crate::calls::row_of;
use crate::integers::{integer_candidate, is_one_var, row_between};
use crate::operators::operator_name;
use crate::pairs::Candidate;
use mz_base::{Memory, Span, Stop};
use mz_check_forms::{coercions_to, make_chain, make_step, scalar, type_of};
use mz_check_meaning::Callee;
use mz_core::{Base, Coercion, Core, CoreStep, Signature, TypeInst, copy_type};
use mz_tree::{BinOp, PlacedOp};
use std::alloc::Global;

/// An operator with its second operand, and the place where that begins.
#[derive(Drop)]
pub struct Operand {
    pub operator: PlacedOp,
    pub tree: Core,
}

/// The operators that are typed so far, and the type of what they make.
#[derive(Drop)]
pub struct Chained {
    pub ty: TypeInst,
    pub done: Vec<CoreStep>,
}

fn row_number(callee: Callee) -> u32
    requires { IsRow callee }
    ensures { result ≡ row_number callee }
{
    match callee {
        Callee::Row(row) => row,
        Callee::Function(_) => unreachable!(),
    }
}

/// The coercions that lead from a type to the parameter at a place.
fn coercions_to_param(
    alloc: Global,
    t: &TypeInst,
    params: &[TypeInst],
    place: usize,
) -> Result<Vec<(Coercion, TypeInst)>, Memory>
    ensures { IfOk result (λ v. path_links v.items ≡ coercions_to (plain_type t.now) (slice_index_or (map plain_type params.now) place bottom_type)) }
{
    match params.get(place) {
        Some(p) => coercions_to(alloc, t, p),
        None => coercions_to(alloc, t, &scalar(alloc, Base::Bottom)),
    }
}

/// The operator of this row between operands of these types, of which the second is this tree and begins there.
#[tactic(auto, unfolding(mz_core::specs::Types::plain_signature))]
fn step_of(
    alloc: Global,
    start: Span,
    left: &TypeInst,
    right: &TypeInst,
    e: Core,
    c: Candidate,
) -> Result<CoreStep, Memory>
    requires { IsRow c.callee }
    ensures { IfOk result (λ s. step s ≡ step_of start (plain_type left.now) (plain_type right.now) (tree e) (candidate c)) }
{
    let Candidate { callee, signature } = c;
    let Signature { params, result } = signature;
    let first = coercions_to_param(alloc, left, params.as_slice(), 0)?;
    let second = coercions_to_param(alloc, right, params.as_slice(), 1)?;
    Ok(make_step(start, row_number(callee), result, first, second, e))
}

/// Copies of two types.
fn two_types(alloc: Global, t: &TypeInst, u: &TypeInst) -> Result<Vec<TypeInst>, Memory>
    ensures { IfOk result (λ v. map plain_type v.items ≡ plain_type t.now ∷ plain_type u.now ∷ []) }
{
    let first = copy_type(alloc, t)?;
    let second = copy_type(alloc, u)?;
    Ok(vec![in alloc; first, second]?)
}

/// The row of an operator between operands of these types: between integers it is known, else it is the best of those that accept them.
fn operator_row(
    alloc: Global,
    span: Span,
    op: BinOp,
    left: &TypeInst,
    right: &TypeInst,
) -> Result<Candidate, Stop>
    ensures row { IfOk result (λ c. IsRow c.callee) }
    ensures passes { Passes candidate result (row_of span (operator_name op) (plain_type left.now ∷ plain_type right.now ∷ [])) }
{
    if let Some(row) = row_between(op, left, right) {
        return Ok(integer_candidate(alloc, is_one_var(left, right), row)?);
    }
    let types = two_types(alloc, left, right)?;
    row_of(alloc, span, operator_name(op), types.as_slice())
}

/// An operator between operands of these types. NoOverload, Ambiguous or LeftOut at it, where there is no best row.
#[tactic(auto, unfolding(mz_check_meaning::specs::Chains::operated))]
fn operated(
    alloc: Global,
    span: Span,
    o: PlacedOp,
    left: &TypeInst,
    right: &TypeInst,
    e: Core,
) -> Result<CoreStep, Stop>
    ensures { Passes step result (operated span o (plain_type left.now) (plain_type right.now) (tree e)) }
{
    let c = operator_row(alloc, span, o.op, left, right)?;
    Ok(step_of(alloc, o.start, left, right, e, c)?)
}

/// One more operator.
fn then_step(alloc: Global, done: Vec<CoreStep>, s: CoreStep) -> Result<Chained, Memory>
    ensures { IfOk result (λ c. chained c ≡ record { ty = (step s).ty; done = map step done.items ++ step s ∷ [] }) }
{
    let ty = copy_type(alloc, &s.ty)?;
    let mut all = done;
    all.push(s)?;
    Ok(Chained { ty, done: all })
}

impl Chained {
    /// No operator after this operand.
    #[inline(never)]
    pub fn of(alloc: Global, e: &Core) -> Result<Chained, Memory>
        ensures { IfOk result (λ c. chained c ≡ record { ty = type_of (tree e.now); done = [] }) }
    {
        let ty = copy_type(alloc, type_of(e))?;
        let done = Vec::with_capacity(alloc, 1)?;
        Ok(Chained { ty, done })
    }

    /// One more operator of a chain that groups to the left, after those that are typed, each at the chain's place.
    #[inline(never)]
    pub fn add_left(&mut self, alloc: Global, span: Span, o: PlacedOp, e: Core) -> Result<(), Stop>
        ensures { Passes (λ _. chained self.new) result (from_left span (chained self.old) (record { operator = o; tree = tree e })) }
    {
        let right = copy_type(alloc, type_of(&e))?;
        let s = operated(alloc, span, o, &self.ty, &right, e)?;
        self.ty = copy_type(alloc, &s.ty)?;
        self.done.push(s)?;
        Ok(())
    }
}

/// One more operator of a chain that groups to the right, before those that are typed, of which the last is the first in the list.
#[tactic(auto, using(crate::proofs::Preceding::back_of_more))]
fn preceded(
    alloc: Global,
    span: Span,
    left: &TypeInst,
    o: Operand,
    after: Chained,
) -> Result<Chained, Stop>
    ensures { Passes chained_back result (preceded span (plain_type left.now) (operand o) (chained_back after)) }
{
    let Operand { operator, tree } = o;
    let Chained { ty, done } = after;
    let s = operated(alloc, span, operator, left, &ty, tree)?;
    Ok(then_step(alloc, done, s)?)
}

/// The operators of a chain that groups to the right, from the last to the first: the first at the chain's place, each other where its left
/// operand begins.
fn from_last(
    alloc: Global,
    span: Span,
    first: &Core,
    operands: Vec<Operand>,
    last: Operand,
) -> Result<Chained, Stop>
    ensures { Passes chained_back result (from_right span (tree first.now) (map operand operands.items ++ operand last ∷ [])) }
{
    let mut acc = Chained::of(alloc, &last.tree)?;
    let mut before = operands;
    let mut right = last;
    while let Some(left) = before.pop() {
        acc = preceded(alloc, left.operator.start, type_of(&left.tree), right, acc)?;
        right = left;
    }
    preceded(alloc, span, type_of(first), right, acc)
}

/// The node of a chain with its first operand and its operators.
#[inline(never)]
pub fn chain_node(alloc: Global, span: Span, e: Core, c: Chained) -> Result<Core, Memory>
    ensures { IfOk result (λ x. tree x ≡ chain_node span (tree e) (chained c)) }
{
    let Chained { ty, done } = c;
    make_chain(alloc, span, ty, e, done)
}

#[tactic(auto, using(crate::proofs::Preceding::map_reverse))]
fn in_order(c: Chained) -> Chained
    ensures { chained result ≡ chained_back c }
{
    let Chained { ty, mut done } = c;
    done.reverse();
    Chained { ty, done }
}

/// The operators of a chain that groups to the right, in their order.
#[tactic(auto, using(crate::proofs::Preceding::apart, crate::proofs::Preceding::from_none))]
fn operators_of(
    alloc: Global,
    span: Span,
    first: &Core,
    operands: Vec<Operand>,
) -> Result<Chained, Stop>
    ensures { Passes chained result (from_right span (tree first.now) (map operand operands.items)) }
{
    let mut before = operands;
    match before.pop() {
        Some(last) => Ok(in_order(from_last(alloc, span, first, before, last)?)),
        None => Ok(Chained::of(alloc, first)?),
    }
}

/// A chain of `++` with all its operands, which are typed before its operators. The last operator is tested first.
#[inline(never)]
#[tactic(auto, unfolding(mz_check_meaning::specs::Chains::appended))]
pub fn appended(alloc: Global, span: Span, e: Core, operands: Vec<Operand>) -> Result<Core, Stop>
    ensures { Passes tree result (appended span (tree e) (map operand operands.items)) }
{
    let c = operators_of(alloc, span, &e, operands)?;
    Ok(chain_node(alloc, span, e, c)?)
}
