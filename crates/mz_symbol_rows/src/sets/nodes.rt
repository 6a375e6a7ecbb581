// The nodes of rows over sets.

ghost use Rattle.std.specs.Prelude.{◌≡◌, false, Some};
ghost use Rattle.mz_operations.specs.Sets.{is_subset, same_set};
ghost use Rattle.mz_arena.specs.Charges.{charge_of};
ghost use Rattle.mz_arena.specs.Entries.{is_free};
ghost use Rattle.mz_arena.specs.Values.{card_term, member_term, number, set_comparison_term, set_term};
ghost use Rattle.mz_meaning.specs.Runs.{give};
ghost use Rattle.mz_symbol.specs.Makes.{GoesOnBy, Means};
ghost use Rattle.mz_symbol_rows.specs.StepsNodes.{meaning_over};
ghost use Rattle.mz_symbol_rows.specs.StepsSets.{beside_term, next_term, step_of, unequal_term};

use mz_arena::{Id, Node, NodeKind};
use mz_base::Stop;
use mz_operations::{SetOp, Side};
use mz_symbol::Run;

/// A node of this kind over up to two others.
fn made(run: &mut Run, kind: NodeKind, a: Id, b: Id) -> Result<Id, Stop>
    requires { is_free kind ≡ false }
    ensures goes { GoesOnBy (charge_of kind) run.old run.new }
    ensures means { Means (λ r. r.term) result run.old run.new (λ r. give (meaning_over kind a b r)) }
{
    let n = Node {
        kind,
        a,
        b,
        c: 0,
        number: 0,
    };
    run.node(&n)
}

pub(crate) fn member_node(run: &mut Run, x: Id, s: Id) -> Result<Id, Stop>
    ensures goes { GoesOnBy 6 run.old run.new }
    ensures means { Means (λ r. r.term) result run.old run.new (λ r. give (member_term (r.term x) (r.term s))) }
{
    made(run, NodeKind::Member, x, s)
}

pub(crate) fn combined_node(run: &mut Run, op: SetOp, s: Id, t: Id) -> Result<Id, Stop>
    ensures goes { GoesOnBy 4 run.old run.new }
    ensures means { Means (λ r. r.term) result run.old run.new (λ r. give (set_term op (r.term s) (r.term t))) }
{
    match op {
        SetOp::Union => made(run, NodeKind::Union, s, t),
        SetOp::Intersect => made(run, NodeKind::Intersect, s, t),
        SetOp::Diff => made(run, NodeKind::Diff, s, t),
        SetOp::Symdiff => made(run, NodeKind::Symdiff, s, t),
    }
}

pub(crate) fn card_node(run: &mut Run, s: Id) -> Result<Id, Stop>
    ensures goes { GoesOnBy 4 run.old run.new }
    ensures means { Means (λ r. r.term) result run.old run.new (λ r. give (card_term (r.term s))) }
{
    made(run, NodeKind::Card, s, 0)
}

pub(crate) fn subset_node(run: &mut Run, s: Id, t: Id) -> Result<Id, Stop>
    ensures goes { GoesOnBy 6 run.old run.new }
    ensures means { Means (λ r. r.term) result run.old run.new (λ r. give (set_comparison_term is_subset (r.term s) (r.term t))) }
{
    made(run, NodeKind::Subset, s, t)
}

pub(crate) fn equal_node(run: &mut Run, s: Id, t: Id) -> Result<Id, Stop>
    ensures goes { GoesOnBy 6 run.old run.new }
    ensures means { Means (λ r. r.term) result run.old run.new (λ r. give (set_comparison_term same_set (r.term s) (r.term t))) }
{
    made(run, NodeKind::SetEq, s, t)
}

/// Whether two sets are there and differ. Of one set twice, SetEq asks whether it is defined.
#[tactic(auto, using(crate::proofs::GoingOn::goes_both, crate::proofs::GoingOn::goes_most))]
pub(crate) fn unequal_node(run: &mut Run, s: Id, t: Id) -> Result<Id, Stop>
    ensures goes { GoesOnBy 36 run.old run.new }
    ensures means { Means (λ r. r.term) result run.old run.new (λ r. give (unequal_term (r.term s) (r.term t))) }
{
    let first = equal_node(run, s, s)?;
    let second = equal_node(run, t, t)?;
    let there = made(run, NodeKind::And, first, second)?;
    let same = equal_node(run, s, t)?;
    let other = made(run, NodeKind::Not, same, 0)?;
    made(run, NodeKind::And, there, other)
}

/// The number 1 before or after a number.
#[tactic(auto, using(crate::proofs::GoingOn::goes_both, crate::proofs::GoingOn::goes_most))]
fn next_node(run: &mut Run, side: Side, x: Id) -> Result<Id, Stop>
    ensures goes { GoesOnBy 4 run.old run.new }
    ensures means { Means (λ r. r.term) result run.old run.new (λ r. give (next_term side (r.term x))) }
{
    let step = step_node(run, side)?;
    made(run, NodeKind::Add, x, step)
}

fn step_node(run: &mut Run, side: Side) -> Result<Id, Stop>
    ensures goes { GoesOnBy 0 run.old run.new }
    ensures means { Means (λ r. r.term) result run.old run.new (λ _. give (Some (number (step_of side)))) }
{
    let n = Node {
        kind: NodeKind::Int,
        a: 0,
        b: 0,
        c: 0,
        number: step_of(side),
    };
    run.node(&n)
}

fn step_of(side: Side) -> i64
    ensures { result ≡ step_of side }
{
    match side {
        Side::Least => -1,
        Side::Greatest => 1,
    }
}

/// The number beside a number, where a set has it.
#[tactic(auto, using(crate::proofs::GoingOn::goes_both, crate::proofs::GoingOn::goes_most))]
pub(crate) fn beside_node(run: &mut Run, side: Side, s: Id, x: Id) -> Result<Id, Stop>
    ensures goes { GoesOnBy 18 run.old run.new }
    ensures means { Means (λ r. r.term) result run.old run.new (λ r. give (beside_term side (r.term s) (r.term x))) }
{
    let next = next_node(run, side, x)?;
    let has = member_node(run, next, s)?;
    made(run, NodeKind::Guard, has, next)
}
