// A power, from the power of half the exponent.

ghost use Rattle.std.specs.Prelude.{◌≡◌, ◌*◌, ◌+◌, ◌<◌, ◌≤◌, ◌^◌, ◌%◌, ◌∷◌, [], ℕ, false, true, nat_eq, IfOk, Some, pos};
ghost use Rattle.mz_value.specs.Contents as values;
ghost use Rattle.mz_value.specs.Shown.{Names};
ghost use Rattle.mz_core.specs.declared.types.Base.TheVariants as base;
ghost use Rattle.mz_operations.specs.declared.row.ScalarRow.TheVariants as row;
ghost use Rattle.mz_operations.specs.declared.row.Row.TheVariants.{Scalar};
ghost use Rattle.mz_arena.specs.Charges.{charge_of};
ghost use Rattle.mz_arena.specs.Entries.{is_free};
ghost use Rattle.mz_arena.specs.Values.{number};
ghost use Rattle.mz_meaning.specs.Cells.{held};
ghost use Rattle.mz_meaning.specs.Exact.{exact_value};
ghost use Rattle.mz_meaning.specs.Runs.{give};
ghost use Rattle.mz_symbol.specs.Readings.{Reading, Reads, symbol_seen};
ghost use Rattle.mz_symbol.specs.Makes.{GoesOnBy, Means};
ghost use Rattle.mz_symbol_rows.specs.RowValues.{argument};
ghost use Rattle.mz_symbol_rows.specs.StepsNodes.{IsOf, meaning_over, symbol_of};
ghost use Rattle.mz_symbol_arrays.specs.StepsPowers.{doubled_term, one_term, Powers};

use mz_arena::{Id, Node, NodeKind};
use mz_base::{Memory, Stop};
use mz_core::Base;
use mz_symbol::{Run, Symbol};

/// `^` and `pow` of an integer, with an exponent that is known and isn't negative. Undefined where
/// the integer is, also with the exponent 0.
///
/// It makes at most two products for each binary digit of the exponent. Out of memory too where it is
/// no integer, or where bounds leave the limit.
pub fn power(run: &mut Run, a: Symbol, k: u64) -> Result<Symbol, Stop>
    ensures goes { (w : ℕ) → k < 2 ^ w → GoesOnBy (8 * w + 8) run.old run.new }
    ensures means { (names : Names) → Means symbol_seen result run.old run.new (λ r. give (held r.mode (exact_value names (Scalar row.Power) (argument r a ∷ Some (values.int (pos k)) ∷ [])))) }
{
    let x = integer(a)?;
    let Ok(term) = power_node(run, x, k) else {
        return Err(Stop::Memory);
    };
    Ok(whole(term))
}

/// The node of an integer that is no option.
fn integer(a: Symbol) -> Result<Id, Memory>
    ensures { IfOk result (λ id. IsOf base.Int id a) }
{
    match a.base {
        Base::Int => match a.occurs {
            None => Ok(a.term),
            Some(_) => Err(Memory),
        },
        _ => Err(Memory),
    }
}

fn whole(term: Id) -> Symbol
    ensures { result ≡ symbol_of base.Int term }
{
    Symbol {
        base: Base::Int,
        occurs: None,
        term,
    }
}

fn made(run: &mut Run, kind: NodeKind, a: Id, b: Id) -> Result<Id, Stop>
    requires { is_free kind ≡ false }
    ensures goes { GoesOnBy (charge_of kind) run.old run.new }
    ensures means { Means (λ r. r.term) result run.old run.new (λ r. give (meaning_over kind a b r)) }
{
    let n = Node {
        kind,
        a,
        b,
        c: 0,
        number: 0,
    };
    run.node(&n)
}

fn zero_node(run: &mut Run) -> Result<Id, Stop>
    ensures goes { GoesOnBy 0 run.old run.new }
    ensures means { Means (λ r. r.term) result run.old run.new (λ _. give (Some (number (pos 0)))) }
{
    let n = Node {
        kind: NodeKind::Int,
        a: 0,
        b: 0,
        c: 0,
        number: 0,
    };
    run.node(&n)
}

fn unit_node(run: &mut Run) -> Result<Id, Stop>
    ensures goes { GoesOnBy 0 run.old run.new }
    ensures means { Means (λ r. r.term) result run.old run.new (λ _. give (Some (number (pos 1)))) }
{
    let n = Node {
        kind: NodeKind::Int,
        a: 0,
        b: 0,
        c: 0,
        number: 1,
    };
    run.node(&n)
}

/// 1 where an integer is defined.
#[tactic(auto, using(mz_symbol_rows::proofs::GoingOn::goes_both, mz_symbol_rows::proofs::GoingOn::goes_most))]
fn one_node(run: &mut Run, x: Id) -> Result<Id, Stop>
    ensures goes { GoesOnBy 8 run.old run.new }
    ensures means { Means (λ r. r.term) result run.old run.new (λ r. give (one_term (r.term x))) }
{
    let zero = zero_node(run)?;
    let none = made(run, NodeKind::Mul, x, zero)?;
    let one = unit_node(run)?;
    made(run, NodeKind::Add, none, one)
}

/// The square of a node, and once more an integer where the exponent is odd.
#[tactic(auto, using(mz_symbol_rows::proofs::GoingOn::goes_both, mz_symbol_rows::proofs::GoingOn::goes_most))]
fn doubled(run: &mut Run, x: Id, half: Id, odd: bool) -> Result<Id, Stop>
    ensures goes { GoesOnBy 8 run.old run.new }
    ensures means { Means (λ r. r.term) result run.old run.new (λ r. give (doubled_term odd (r.term x) (r.term half))) }
{
    let square = made(run, NodeKind::Mul, half, half)?;
    if odd {
        made(run, NodeKind::Mul, square, x)
    } else {
        Ok(square)
    }
}

fn is_none(k: u64) -> bool
    ensures { result ≡ true → k ≡ 0 }
{
    k == 0
}

fn is_one(k: u64) -> bool
    ensures { result ≡ true → k ≡ 1 }
{
    k == 1
}

fn is_small(k: u64) -> bool
    ensures { result ≡ false → 2 ≤ k }
{
    k < 2
}

fn is_odd(k: u64) -> bool
    ensures { result ≡ nat_eq (k % 2) 1 }
{
    k % 2 == 1
}

/// The power with the exponent 0 or 1.
fn small_power(run: &mut Run, x: Id, k: u64) -> Result<Id, Memory>
    ensures goes { (w : ℕ) → GoesOnBy (8 * w + 8) run.old run.new }
    ensures powers { IfOk result (λ id. (r : Reading) → Reads r run.new → Powers r run.old run.new x k id) }
{
    if is_none(k) {
        let Ok(one) = one_node(run, x) else {
            return Err(Memory);
        };
        return Ok(one);
    }
    if is_one(k) {
        return Ok(x);
    }
    Err(Memory)
}

/// A power.
fn power_node(run: &mut Run, x: Id, k: u64) -> Result<Id, Memory>
    ensures goes { (w : ℕ) → k < 2 ^ w → GoesOnBy (8 * w + 8) run.old run.new }
    ensures powers { IfOk result (λ id. (r : Reading) → Reads r run.new → Powers r run.old run.new x k id) }
{
    if is_small(k) {
        let small = small_power(run, x, k)?;
        return Ok(small);
    }
    let half = power_node(run, x, k / 2)?;
    let Ok(all) = doubled(run, x, half, is_odd(k)) else {
        return Err(Memory);
    };
    Ok(all)
}
