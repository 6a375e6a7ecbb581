// Nodes, and what they say.

ghost use Rattle.std.specs.Prelude.{◌≡◌, ◌&&◌, IfOk, Some, false, is_some, not};
ghost use Rattle.mz_arena.specs.Charges.{charge_of};
ghost use Rattle.mz_arena.specs.Entries.{is_free};
ghost use Rattle.mz_arena.specs.Values.{is_true, arith_term};
ghost use Rattle.mz_operations.specs.declared.row.Arith.TheVariants as arith;
ghost use Rattle.mz_arena.specs.Values as terms;
ghost use Rattle.mz_operations.specs.Views.{number_of_bool};
ghost use Rattle.mz_symbol.specs.Makes.{GoesOnBy};
ghost use Rattle.mz_symbol_arrays.specs.Sure.{IsSure};
ghost use Rattle.glob_nodes.specs.Says.{Gives, Says, num, compares, joins};
ghost use Rattle.glob_nodes.specs.StepsNodes.{meaning_over, compare_kind, join_kind};

use crate::known::{Known, known_comparison, known_join, known_product, known_sum};
use mz_arena::{Id, Node, NodeKind};
use mz_base::Memory;
use mz_symbol::Run;
use mz_symbol_arrays::is_sure;

/// How an integer stands to another.
#[derive(Clone, Copy)]
pub enum Compare {
    Equal,
    Differ,
    AtMost,
    Less,
}

/// How two truth values are joined.
#[derive(Clone, Copy)]
pub enum Join {
    /// Both are true.
    Both,
    /// One is true.
    Either,
    /// Both are true, or both are false.
    Alike,
}

/// A node of this kind over up to two others. Out of memory too where it may not be made.
pub fn made(run: &mut Run, kind: NodeKind, a: Id, b: Id) -> Result<Id, Memory>
    requires { is_free kind ≡ false }
    ensures goes { GoesOnBy (charge_of kind) run.old run.new }
    ensures gives { IfOk result (Gives run.old run.new (meaning_over kind a b)) }
{
    let n = Node {
        kind,
        a,
        b,
        c: 0,
        number: 0,
    };
    match run.node(&n) {
        Ok(id) => Ok(id),
        Err(_) => Err(Memory),
    }
}

fn compared_node(run: &mut Run, op: Compare, a: Id, b: Id) -> Result<Id, Memory>
    ensures goes { GoesOnBy 6 run.old run.new }
    ensures says { IfOk result (Says run.old run.new (λ r. compares op (num r a) (num r b))) }
{
    made(run, compare_kind(op), a, b)
}

/// Whether an integer stands so to another; false where one of them is undefined.
#[tactic(auto, using(mz_symbol_rows::proofs::GoingOn::goes_most))]
pub fn compared(run: &mut Run, op: Compare, a: Id, b: Id) -> Result<Id, Memory>
    ensures goes { GoesOnBy 6 run.old run.new }
    ensures says { IfOk result (Says run.old run.new (λ r. compares op (num r a) (num r b))) }
{
    let Some(p) = known_comparison(run.arena(), op, a, b) else {
        return compared_node(run, op, a, b);
    };
    let id = truth(run, p)?;
    Ok(id)
}

fn compare_kind(op: Compare) -> NodeKind
    ensures kind { result ≡ compare_kind op }
    ensures bound { is_free result ≡ false }
    ensures charge { charge_of result ≡ 6 }
{
    match op {
        Compare::Equal => NodeKind::Eq,
        Compare::Differ => NodeKind::Ne,
        Compare::AtMost => NodeKind::Le,
        Compare::Less => NodeKind::Lt,
    }
}

fn joined_node(run: &mut Run, op: Join, a: Id, b: Id) -> Result<Id, Memory>
    ensures goes { GoesOnBy 6 run.old run.new }
    ensures says { IfOk result (Says run.old run.new (λ r. joins op (is_true (r.term a)) (is_true (r.term b)))) }
{
    made(run, join_kind(op), a, b)
}

/// Two truth values joined; an undefined one counts as false.
#[tactic(auto, using(mz_symbol_rows::proofs::GoingOn::goes_most))]
pub fn joined(run: &mut Run, op: Join, a: Id, b: Id) -> Result<Id, Memory>
    ensures goes { GoesOnBy 6 run.old run.new }
    ensures says { IfOk result (Says run.old run.new (λ r. joins op (is_true (r.term a)) (is_true (r.term b)))) }
{
    let Some(k) = known_join(run.arena(), op, a, b) else {
        return joined_node(run, op, a, b);
    };
    match k {
        Known::Truth(p) => {
            let id = truth(run, p)?;
            Ok(id)
        }
        Known::Node(id) => Ok(id),
    }
}

fn join_kind(op: Join) -> NodeKind
    ensures kind { result ≡ join_kind op }
    ensures bound { is_free result ≡ false }
    ensures charge { charge_of result ≡ 6 }
{
    match op {
        Join::Both => NodeKind::And,
        Join::Either => NodeKind::Or,
        Join::Alike => NodeKind::Iff,
    }
}

/// Whether a truth value is false, or undefined.
pub fn negated(run: &mut Run, a: Id) -> Result<Id, Memory>
    ensures goes { GoesOnBy 6 run.old run.new }
    ensures says { IfOk result (Says run.old run.new (λ r. not (is_true (r.term a)))) }
{
    made(run, NodeKind::Not, a, 0)
}

/// A truth value.
pub fn truth(run: &mut Run, b: bool) -> Result<Id, Memory>
    ensures goes { GoesOnBy 0 run.old run.new }
    ensures says { IfOk result (Says run.old run.new (λ _. b)) }
{
    match run.truth_node(b) {
        Ok(id) => Ok(id),
        Err(_) => Err(Memory),
    }
}

/// An integer. Out of memory too where it lies outside the limit.
pub fn number(run: &mut Run, n: i64) -> Result<Id, Memory>
    ensures goes { GoesOnBy 0 run.old run.new }
    ensures gives { IfOk result (Gives run.old run.new (λ _. Some (terms.number n))) }
{
    let n = Node {
        kind: NodeKind::Int,
        a: 0,
        b: 0,
        c: 0,
        number: n,
    };
    match run.node(&n) {
        Ok(id) => Ok(id),
        Err(_) => Err(Memory),
    }
}

/// 1 where a truth value is true, else 0.
pub fn to_number(run: &mut Run, a: Id) -> Result<Id, Memory>
    ensures goes { GoesOnBy 4 run.old run.new }
    ensures gives { IfOk result (Gives run.old run.new (λ r. Some (terms.number (number_of_bool (is_true (r.term a)))))) }
{
    made(run, NodeKind::ToInt, a, 0)
}

/// The sum of two integers. Out of memory too where its bounds leave the limit.
pub fn add(run: &mut Run, a: Id, b: Id) -> Result<Id, Memory>
    ensures goes { GoesOnBy 4 run.old run.new }
    ensures gives { IfOk result (Gives run.old run.new (λ r. arith_term arith.Add (r.term a) (r.term b))) }
{
    match known_sum(run.arena(), a, b) {
        None => sum_node(run, a, b),
        Some(id) => Ok(id),
    }
}

fn sum_node(run: &mut Run, a: Id, b: Id) -> Result<Id, Memory>
    ensures goes { GoesOnBy 4 run.old run.new }
    ensures gives { IfOk result (Gives run.old run.new (λ r. arith_term arith.Add (r.term a) (r.term b))) }
{
    made(run, NodeKind::Add, a, b)
}

/// The product of two integers. Out of memory too where its bounds leave the limit.
pub fn multiply(run: &mut Run, a: Id, b: Id) -> Result<Id, Memory>
    ensures goes { GoesOnBy 4 run.old run.new }
    ensures gives { IfOk result (Gives run.old run.new (λ r. arith_term arith.Mul (r.term a) (r.term b))) }
{
    match known_product(run.arena(), a, b) {
        None => product_node(run, a, b),
        Some(id) => Ok(id),
    }
}

fn product_node(run: &mut Run, a: Id, b: Id) -> Result<Id, Memory>
    ensures goes { GoesOnBy 4 run.old run.new }
    ensures gives { IfOk result (Gives run.old run.new (λ r. arith_term arith.Mul (r.term a) (r.term b))) }
{
    made(run, NodeKind::Mul, a, b)
}

/// True of an integer that surely is defined.
fn sure_there(run: &mut Run, x: Id) -> Result<Id, Memory>
    requires { IsSure run.old.arena x }
    ensures goes { GoesOnBy 6 run.old run.new }
    ensures says { IfOk result (Says run.old run.new (λ r. is_some (num r x))) }
{
    let _integer = x;
    let yes = truth(run, true)?;
    Ok(yes)
}

/// Whether an integer equals itself: it is false where that is undefined.
fn tested_there(run: &mut Run, x: Id) -> Result<Id, Memory>
    ensures goes { GoesOnBy 6 run.old run.new }
    ensures says { IfOk result (Says run.old run.new (λ r. is_some (num r x))) }
{
    let there = compared(run, Compare::Equal, x, x)?;
    Ok(there)
}

/// Whether an integer is defined.
fn there(run: &mut Run, x: Id) -> Result<Id, Memory>
    ensures goes { GoesOnBy 6 run.old run.new }
    ensures says { IfOk result (Says run.old run.new (λ r. is_some (num r x))) }
{
    if is_sure(run.arena(), x) {
        return sure_there(run, x);
    }
    tested_there(run, x)
}

/// A truth value where an integer is defined, else false.
#[tactic(auto, using(mz_symbol_rows::proofs::GoingOn::goes_both))]
pub fn where_defined(run: &mut Run, x: Id, body: Id) -> Result<Id, Memory>
    ensures goes { GoesOnBy 12 run.old run.new }
    ensures says { IfOk result (Says run.old run.new (λ r. is_some (num r x) && is_true (r.term body))) }
{
    let there = there(run, x)?;
    joined(run, Join::Both, there, body)
}
