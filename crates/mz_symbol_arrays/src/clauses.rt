// Whether one of some truth values is true, or one of others is false.

ghost use Rattle.std.specs.Prelude.{◌≡◌, ◌*◌, ◌+◌, IfOk, List, slice_get, true};
ghost use Rattle.std.specs.List.{list_all};
ghost use Rattle.mz_value.specs.Ranges.{Range};
ghost use Rattle.mz_arena.specs.Values.{and_term};
ghost use Rattle.mz_meaning.specs.Cells.{held};
ghost use Rattle.mz_meaning.specs.Runs.{give};
ghost use Rattle.mz_symbol.specs.Readings.{Reading, Reads, symbol_seen};
ghost use Rattle.mz_symbol.specs.Makes.{GoesOnBy, Means};
ghost use Rattle.mz_symbol.specs.Arguments.{truth_of};
ghost use Rattle.mz_symbol_rows.specs.StepsNodes.{symbol_of};
ghost use Rattle.mz_core.specs.declared.types.Base.TheVariants as base;
ghost use Rattle.mz_symbol_arrays.specs.LineValues.{count_of, IsLineOf};
ghost use Rattle.mz_symbol_arrays.specs.ClauseValues.{clause_value};
ghost use Rattle.mz_symbol_arrays.specs.StepsClauses.{is_truth, AreTrue, AreTruths, Asks, Joins};

use crate::lines::{defined, quantified};
use mz_arena::{Id, Node, NodeKind};
use mz_base::{Memory, Stop};
use mz_core::Base;
use mz_operations::{Connective, Quantifier};
use mz_symbol::{Run, Symbol};
use mz_symbol_rows::logic;

/// `clause` of two arrays of truth values: whether one of the first is true, or one of the second is
/// false. False where one of the arrays is undefined.
///
/// Out of memory too where there is no such array, or an element is no truth value, or an option.
#[tactic(auto, using(mz_symbol_rows::proofs::GoingOn::goes_both, mz_symbol_rows::proofs::GoingOn::goes_most))]
pub fn clause(run: &mut Run, some: u64, others: u64) -> Result<Symbol, Stop>
    ensures goes { GoesOnBy (58 * count_of (slice_get run.old.lines some) + 58 * count_of (slice_get run.old.lines others) + 76) run.old run.new }
    ensures means { (ix jx : List Range) → Means symbol_seen result run.old run.new (λ r. give (held r.mode (truth_of (clause_value r ix some jx others)))) }
{
    let first = truths(run, some)?;
    let second = truths(run, others)?;
    let Ok(either) = either(run, some, first.1, others, second.1) else {
        return Err(Stop::Memory);
    };
    let Ok(there) = both_defined(run, first.0, second.0) else {
        return Err(Stop::Memory);
    };
    let both = logic(run, Connective::And, there, either)?;
    Ok(both)
}

fn are_truths(items: &[Symbol]) -> bool
    ensures { result ≡ list_all is_truth items.now }
{
    items.iter().all(|s| is_truth(*s))
}

/// Whether this is a truth value, and no option.
fn is_truth(s: Symbol) -> bool
    ensures { result ≡ is_truth s }
{
    if s.occurs.is_some() {
        return false;
    }
    match s.base {
        Base::Bool => true,
        _ => false,
    }
}

fn are_truths_of(run: &Run, line: u64) -> Result<(), Memory>
    ensures { IfOk result (λ _. AreTruths run.now line) }
{
    let Some(l) = run.line(line) else {
        return Err(Memory);
    };
    if !are_truths(&l.items) {
        return Err(Memory);
    }
    Ok(())
}

/// The node that is 1 where an array of truth values is defined, and how many elements it has.
fn truths(run: &Run, line: u64) -> Result<(Id, u64), Memory>
    ensures line { IfOk result (λ q. IsLineOf run.now line q.0 q.1) }
    ensures count { IfOk result (λ q. q.1 ≡ count_of (slice_get run.now.lines line)) }
    ensures truths { IfOk result (λ _. AreTruths run.now line) }
{
    are_truths_of(run, line)?;
    let found = defined(run, line)?;
    Ok(found)
}

/// Whether all of an array are true, or one is, of this many elements.
fn quantified_by(run: &mut Run, op: Quantifier, line: u64, count: u64) -> Result<Symbol, Memory>
    ensures goes { GoesOnBy (58 * count + 20) run.old run.new }
    ensures asks { IfOk result (λ s. (r : Reading) → Reads r run.new → Asks r run.old run.new op line s) }
{
    let found = defined(run, line)?;
    if found.1 != count {
        return Err(Memory);
    }
    let Ok(all) = quantified(run, op, line) else {
        return Err(Memory);
    };
    Ok(all)
}

/// Whether one of the first is true, or one of the second isn't.
#[tactic(auto, using(mz_symbol_rows::proofs::GoingOn::goes_both, mz_symbol_rows::proofs::GoingOn::goes_most))]
fn either(run: &mut Run, some: u64, n: u64, others: u64, m: u64) -> Result<Symbol, Memory>
    ensures goes { GoesOnBy (58 * n + 58 * m + 52) run.old run.new }
    ensures joins { IfOk result (λ s. (r : Reading) → Reads r run.new → Joins r run.old run.new some others s) }
{
    let any = quantified_by(run, Quantifier::Exists, some, n)?;
    let all = quantified_by(run, Quantifier::Forall, others, m)?;
    let Ok(either) = logic(run, Connective::IsImplied, any, all) else {
        return Err(Memory);
    };
    Ok(either)
}

fn and_node(run: &mut Run, d: Id, e: Id) -> Result<Id, Stop>
    ensures goes { GoesOnBy 6 run.old run.new }
    ensures means { Means (λ r. r.term) result run.old run.new (λ r. give (and_term (r.term d) (r.term e))) }
{
    let n = Node {
        kind: NodeKind::And,
        a: d,
        b: e,
        c: 0,
        number: 0,
    };
    run.node(&n)
}

/// The truth value that a Boolean node is.
fn truth(d: Id) -> Symbol
    ensures { result ≡ symbol_of base.Bool d }
{
    Symbol {
        base: Base::Bool,
        occurs: None,
        term: d,
    }
}

/// Whether two Boolean nodes are true.
fn both_defined(run: &mut Run, d: Id, e: Id) -> Result<Symbol, Stop>
    ensures goes { GoesOnBy 6 run.old run.new }
    ensures both { IfOk result (λ s. (r : Reading) → Reads r run.new → AreTrue r run.old run.new d e s) }
{
    let id = and_node(run, d, e)?;
    Ok(truth(id))
}
