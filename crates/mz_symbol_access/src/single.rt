// One of two single values, by the truth of a Boolean node.

ghost use Rattle.std.specs.Prelude.{◌≡◌, IfOk, true};
ghost use Rattle.mz_arena.specs.Values.{if_term};
ghost use Rattle.mz_meaning.specs.Cells.{held};
ghost use Rattle.mz_meaning.specs.Runs.{give};
ghost use Rattle.mz_symbol.specs.Symbols.{occurs_term};
ghost use Rattle.mz_symbol.specs.Readings.{Reading, Reads, symbol_seen};
ghost use Rattle.mz_symbol.specs.Makes.{GoesOnBy, Means};
ghost use Rattle.mz_symbol_rows.specs.StepsOptions.{symbol_of};
ghost use Rattle.mz_symbol_access.specs.ChosenValues.{chosen_value};
ghost use Rattle.mz_symbol_access.specs.StepsChoose.{AreNone, Occurs, Picks};

use mz_arena::{Id, Node, NodeKind};
use mz_base::{Memory, Stop};
use mz_core::Base;
use mz_symbol::{Run, Symbol};

/// The first of two symbols where a Boolean node is true, else the second: the branches of an `if`
/// under a var condition, of one type that is no array. Of more conditions the last two branches are
/// chosen from first. A condition that is undefined isn't true, and what isn't chosen may be
/// undefined.
///
/// Out of memory too where the symbols are of two bases, and of truth values of which one alone is an
/// option.
pub fn choose(run: &mut Run, cond: Id, p: Symbol, q: Symbol) -> Result<Symbol, Stop>
    ensures goes { GoesOnBy 32 run.old run.new }
    ensures means { Means symbol_seen result run.old run.new (λ r. give (held r.mode (chosen_value r cond p q))) }
{
    let Ok(picked) = picked(run, cond, p, q) else {
        return Err(Stop::Memory);
    };
    Ok(picked)
}

/// The node of the first of two where a Boolean node is true, else of the second.
pub fn if_node(run: &mut Run, c: Id, x: Id, y: Id) -> Result<Id, Stop>
    ensures goes { GoesOnBy 16 run.old run.new }
    ensures means { Means (λ r. r.term) result run.old run.new (λ r. give (if_term (r.term c) (r.term x) (r.term y))) }
{
    let n = Node {
        kind: NodeKind::If,
        a: c,
        b: x,
        c: y,
        number: 0,
    };
    run.node(&n)
}

fn is_base(a: Base, b: Base) -> bool
    ensures { result ≡ true → a ≡ b }
{
    match a {
        Base::Bool => match b {
            Base::Bool => true,
            _ => false,
        },
        Base::Int => match b {
            Base::Int => true,
            _ => false,
        },
        Base::Enum(d) => match b {
            Base::Enum(e) => d == e,
            _ => false,
        },
        Base::SetInt => match b {
            Base::SetInt => true,
            _ => false,
        },
        Base::SetEnum(d) => match b {
            Base::SetEnum(e) => d == e,
            _ => false,
        },
        _ => false,
    }
}

fn are_none(p: Option<Id>, q: Option<Id>) -> bool
    ensures { result ≡ true → AreNone p q }
{
    p.is_none() && q.is_none()
}

/// The node of an option's occurrence; what is no option occurs.
fn occurrence(run: &mut Run, p: Option<Id>) -> Result<Id, Stop>
    ensures goes { GoesOnBy 0 run.old run.new }
    ensures means { Means (λ r. r.term) result run.old run.new (λ r. give (occurs_term r.term p)) }
{
    match p {
        None => run.truth_node(true),
        Some(o) => Ok(o),
    }
}

/// The occurrence of two options, or of an option and what is none, by a condition.
#[tactic(auto, using(mz_symbol_rows::proofs::GoingOn::goes_both, mz_symbol_rows::proofs::GoingOn::goes_most))]
fn some_occurs(run: &mut Run, c: Id, p: Option<Id>, q: Option<Id>) -> Result<Option<Id>, Memory>
    ensures goes { GoesOnBy 16 run.old run.new }
    ensures occurs { IfOk result (λ u. (r : Reading) → Reads r run.new → Occurs r run.old run.new c p q u) }
{
    let Ok(x) = occurrence(run, p) else {
        return Err(Memory);
    };
    let Ok(y) = occurrence(run, q) else {
        return Err(Memory);
    };
    let Ok(id) = if_node(run, c, x, y) else {
        return Err(Memory);
    };
    Ok(Some(id))
}

/// The occurrence of two options, by a condition; none of what is no option.
#[tactic(auto, using(mz_symbol_rows::proofs::GoingOn::goes_most, mz_symbol_arrays::proofs::LineLaws::goes_none))]
fn occurs_node(run: &mut Run, c: Id, p: Option<Id>, q: Option<Id>) -> Result<Option<Id>, Memory>
    ensures goes { GoesOnBy 16 run.old run.new }
    ensures occurs { IfOk result (λ o. (r : Reading) → Reads r run.new → Occurs r run.old run.new c p q o) }
{
    if are_none(p, q) {
        return Ok(None);
    }
    some_occurs(run, c, p, q)
}

fn symbol(base: Base, occurs: Option<Id>, term: Id) -> Symbol
    ensures { result ≡ symbol_of base occurs term }
{
    Symbol { base, occurs, term }
}

/// The symbol whose nodes are chosen by a condition.
#[tactic(auto, using(mz_symbol_rows::proofs::GoingOn::goes_both, mz_symbol_rows::proofs::GoingOn::goes_most))]
pub(crate) fn picked(run: &mut Run, c: Id, p: Symbol, q: Symbol) -> Result<Symbol, Memory>
    ensures goes { GoesOnBy 32 run.old run.new }
    ensures picks { IfOk result (λ s. (r : Reading) → Reads r run.new → Picks r run.old run.new c p q s) }
{
    if !is_base(p.base, q.base) {
        return Err(Memory);
    }
    let occurs = occurs_node(run, c, p.occurs, q.occurs)?;
    let Ok(term) = if_node(run, c, p.term, q.term) else {
        return Err(Memory);
    };
    Ok(symbol(p.base, occurs, term))
}
