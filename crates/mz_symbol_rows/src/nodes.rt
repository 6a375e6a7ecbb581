// The nodes of rows.

ghost use Rattle.std.specs.Prelude.{◌≡◌, false, Some};
ghost use Rattle.mz_operations.specs.declared.row.Arith.TheVariants as arith;
ghost use Rattle.mz_arena.specs.Charges.{charge_of};
ghost use Rattle.mz_arena.specs.Entries.{is_free};
ghost use Rattle.mz_arena.specs.Values.{not_term, iff_term, or_term, cons_term, empty};
ghost use Rattle.mz_meaning.specs.Runs.{give};
ghost use Rattle.mz_symbol.specs.Makes.{GoesOnBy, Means};
ghost use Rattle.mz_symbol_rows.specs.StepsNodes.{meaning_over, minus_one, negative_term, extreme_of_two, made_arith, made_sign, number_term, made_order, made_equal, made_unequal, made_logic};

use mz_arena::{Id, Node, NodeKind};
use mz_base::Stop;
use mz_core::Base;
use mz_operations::{Arith, Comparison, Connective, Side, Sign};
use mz_symbol::Run;

/// A node of this kind over up to two others.
pub(crate) fn made(run: &mut Run, kind: NodeKind, a: Id, b: Id) -> Result<Id, Stop>
    requires { is_free kind ≡ false }
    ensures goes { GoesOnBy (charge_of kind) run.old run.new }
    ensures means { Means (λ r. r.term) result run.old run.new (λ r. give (meaning_over kind a b r)) }
{
    let n = Node {
        kind,
        a,
        b,
        c: 0,
        number: 0,
    };
    run.node(&n)
}

// ---- integers

fn minus_one(run: &mut Run) -> Result<Id, Stop>
    ensures goes { GoesOnBy 0 run.old run.new }
    ensures means { Means (λ r. r.term) result run.old run.new (λ _. give minus_one) }
{
    let n = Node {
        kind: NodeKind::Int,
        a: 0,
        b: 0,
        c: 0,
        number: -1,
    };
    run.node(&n)
}

#[tactic(auto, using(crate::proofs::GoingOn::goes_both, crate::proofs::GoingOn::goes_most))]
fn negative(run: &mut Run, x: Id) -> Result<Id, Stop>
    ensures goes { GoesOnBy 4 run.old run.new }
    ensures means { Means (λ r. r.term) result run.old run.new (λ r. give (negative_term (r.term x))) }
{
    let minus = minus_one(run)?;
    made(run, NodeKind::Mul, minus, x)
}

#[tactic(auto, using(crate::proofs::GoingOn::goes_both, crate::proofs::GoingOn::goes_most))]
fn difference(run: &mut Run, x: Id, y: Id) -> Result<Id, Stop>
    ensures goes { GoesOnBy 8 run.old run.new }
    ensures means { Means (λ r. r.term) result run.old run.new (λ r. give (made_arith arith.Sub (r.term x) (r.term y))) }
{
    let minus = negative(run, y)?;
    made(run, NodeKind::Add, x, minus)
}

/// The list of two.
#[tactic(auto, using(crate::proofs::GoingOn::goes_both, crate::proofs::GoingOn::goes_most))]
fn listed(run: &mut Run, x: Id, y: Id) -> Result<Id, Stop>
    ensures goes { GoesOnBy 16 run.old run.new }
    ensures means { Means (λ r. r.term) result run.old run.new (λ r. give (cons_term (r.term x) (cons_term (r.term y) (Some empty)))) }
{
    let none = made(run, NodeKind::Nil, 0, 0)?;
    let last = made(run, NodeKind::Cons, y, none)?;
    made(run, NodeKind::Cons, x, last)
}

#[tactic(auto, using(crate::proofs::GoingOn::goes_both, crate::proofs::GoingOn::goes_most))]
fn extreme(run: &mut Run, side: Side, x: Id, y: Id) -> Result<Id, Stop>
    ensures goes { GoesOnBy 24 run.old run.new }
    ensures means { Means (λ r. r.term) result run.old run.new (λ r. give (extreme_of_two side (r.term x) (r.term y))) }
{
    let list = listed(run, x, y)?;
    match side {
        Side::Least => made(run, NodeKind::Min, list, 0),
        Side::Greatest => made(run, NodeKind::Max, list, 0),
    }
}

#[tactic(auto, using(crate::proofs::GoingOn::goes_both, crate::proofs::GoingOn::goes_most))]
pub(crate) fn arith_node(run: &mut Run, op: Arith, x: Id, y: Id) -> Result<Id, Stop>
    ensures goes { GoesOnBy 24 run.old run.new }
    ensures means { Means (λ r. r.term) result run.old run.new (λ r. give (made_arith op (r.term x) (r.term y))) }
{
    match op {
        Arith::Add => made(run, NodeKind::Add, x, y),
        Arith::Sub => difference(run, x, y),
        Arith::Mul => made(run, NodeKind::Mul, x, y),
        Arith::Div => made(run, NodeKind::Div, x, y),
        Arith::Mod => made(run, NodeKind::Mod, x, y),
        Arith::Min => extreme(run, Side::Least, x, y),
        Arith::Max => extreme(run, Side::Greatest, x, y),
    }
}

#[tactic(auto, using(crate::proofs::GoingOn::goes_both, crate::proofs::GoingOn::goes_most))]
pub(crate) fn sign_node(run: &mut Run, op: Sign, x: Id) -> Result<Id, Stop>
    ensures goes { GoesOnBy 4 run.old run.new }
    ensures means { Means (λ r. r.term) result run.old run.new (λ r. give (made_sign op (r.term x))) }
{
    match op {
        Sign::Plus => Ok(x),
        Sign::Minus => negative(run, x),
        Sign::Abs => made(run, NodeKind::Abs, x, 0),
    }
}

// ---- comparisons

/// A truth value as 0 or 1, an integer, or the number of a case.
#[tactic(auto, using(crate::proofs::GoingOn::goes_both, crate::proofs::GoingOn::goes_most))]
pub(crate) fn number_node(run: &mut Run, base: Base, x: Id) -> Result<Id, Stop>
    ensures goes { GoesOnBy 4 run.old run.new }
    ensures means { Means (λ r. r.term) result run.old run.new (λ r. give (number_term base (r.term x))) }
{
    match base {
        Base::Bool => made(run, NodeKind::ToInt, x, 0),
        _ => Ok(x),
    }
}

#[tactic(auto, using(crate::proofs::GoingOn::goes_both, crate::proofs::GoingOn::goes_most))]
pub(crate) fn order_node(run: &mut Run, op: Comparison, x: Id, y: Id) -> Result<Id, Stop>
    ensures goes { GoesOnBy 6 run.old run.new }
    ensures means { Means (λ r. r.term) result run.old run.new (λ r. give (made_order op (r.term x) (r.term y))) }
{
    match op {
        Comparison::Less => made(run, NodeKind::Lt, x, y),
        Comparison::AtMost => made(run, NodeKind::Le, x, y),
        Comparison::Greater => made(run, NodeKind::Lt, y, x),
        Comparison::AtLeast => made(run, NodeKind::Le, y, x),
    }
}

#[tactic(auto, using(crate::proofs::GoingOn::goes_both, crate::proofs::GoingOn::goes_most))]
pub(crate) fn equal_node(run: &mut Run, base: Base, x: Id, y: Id) -> Result<Id, Stop>
    ensures goes { GoesOnBy 6 run.old run.new }
    ensures means { Means (λ r. r.term) result run.old run.new (λ r. give (made_equal base (r.term x) (r.term y))) }
{
    match base {
        Base::Bool => made(run, NodeKind::Iff, x, y),
        _ => made(run, NodeKind::Eq, x, y),
    }
}

#[tactic(auto, using(crate::proofs::GoingOn::goes_both, crate::proofs::GoingOn::goes_most))]
pub(crate) fn unequal_node(run: &mut Run, base: Base, x: Id, y: Id) -> Result<Id, Stop>
    ensures goes { GoesOnBy 12 run.old run.new }
    ensures means { Means (λ r. r.term) result run.old run.new (λ r. give (made_unequal base (r.term x) (r.term y))) }
{
    match base {
        Base::Bool => differing(run, x, y),
        _ => made(run, NodeKind::Ne, x, y),
    }
}

// ---- connectives

/// Whether one alone of two truth values is true.
#[tactic(auto, using(crate::proofs::GoingOn::goes_both, crate::proofs::GoingOn::goes_most))]
fn differing(run: &mut Run, x: Id, y: Id) -> Result<Id, Stop>
    ensures goes { GoesOnBy 12 run.old run.new }
    ensures means { Means (λ r. r.term) result run.old run.new (λ r. give (not_term (iff_term (r.term x) (r.term y)))) }
{
    let alike = made(run, NodeKind::Iff, x, y)?;
    made(run, NodeKind::Not, alike, 0)
}

#[tactic(auto, using(crate::proofs::GoingOn::goes_both, crate::proofs::GoingOn::goes_most))]
fn implied(run: &mut Run, x: Id, y: Id) -> Result<Id, Stop>
    ensures goes { GoesOnBy 12 run.old run.new }
    ensures means { Means (λ r. r.term) result run.old run.new (λ r. give (or_term (not_term (r.term x)) (r.term y))) }
{
    let other = made(run, NodeKind::Not, x, 0)?;
    made(run, NodeKind::Or, other, y)
}

#[tactic(auto, using(crate::proofs::GoingOn::goes_both, crate::proofs::GoingOn::goes_most))]
fn implied_by(run: &mut Run, x: Id, y: Id) -> Result<Id, Stop>
    ensures goes { GoesOnBy 12 run.old run.new }
    ensures means { Means (λ r. r.term) result run.old run.new (λ r. give (or_term (r.term x) (not_term (r.term y)))) }
{
    let other = made(run, NodeKind::Not, y, 0)?;
    made(run, NodeKind::Or, x, other)
}

#[tactic(auto, using(crate::proofs::GoingOn::goes_both, crate::proofs::GoingOn::goes_most))]
pub(crate) fn logic_node(run: &mut Run, op: Connective, x: Id, y: Id) -> Result<Id, Stop>
    ensures goes { GoesOnBy 12 run.old run.new }
    ensures means { Means (λ r. r.term) result run.old run.new (λ r. give (made_logic op (r.term x) (r.term y))) }
{
    match op {
        Connective::Iff => made(run, NodeKind::Iff, x, y),
        Connective::Implies => implied(run, x, y),
        Connective::IsImplied => implied_by(run, x, y),
        Connective::Or => made(run, NodeKind::Or, x, y),
        Connective::Xor => differing(run, x, y),
        Connective::And => made(run, NodeKind::And, x, y),
    }
}
