// Symbols that become options, and symbols under a condition.

ghost use Rattle.std.specs.Prelude.{◌≡◌, [], ◌∷◌, Some, IfOk, length};
ghost use Rattle.mz_value.specs.Contents as values;
ghost use Rattle.mz_meaning.specs.Cells.{held};
ghost use Rattle.mz_meaning.specs.Lets.{choice_at};
ghost use Rattle.mz_meaning.specs.Runs as runs;
ghost use Rattle.mz_meaning.specs.Runs.{give, noted};
ghost use Rattle.mz_symbol.specs.Readings.{Reading, Reads, state_of, symbol_seen};
ghost use Rattle.mz_symbol.specs.StepsChoices.{choice_domain};
ghost use Rattle.mz_symbol.specs.Makes.{GoesOn, GoesOnBy, Means};
ghost use Rattle.mz_symbol.specs.Arguments.{as_argument};
ghost use Rattle.mz_symbol_rows.specs.RowValues.{argument};
ghost use Rattle.mz_symbol_rows.specs.OptionValues.{IsWholeOf, guarded_value};

use crate::options::nodes::{guard_node, integer, kept_node, occurs_unless, whole_node};
use crate::options::sorts::{is_plain, symbol};
use mz_arena::Id;
use mz_base::{Memory, Stop};
use mz_core::Base;
use mz_symbol::{Run, Symbol};
use mz_value::RangeSet;

/// What is no option, as one that is there.
///
/// The value of an option of a truth value is an integer node, 0 or 1: a Boolean node can't be asked
/// whether it is defined. Out of memory too where it is no single value, or an option already.
#[tactic(auto, using(crate::proofs::GoingOn::goes_both, crate::proofs::GoingOn::goes_most))]
pub fn optional(run: &mut Run, a: Symbol) -> Result<Symbol, Stop>
    ensures goes { GoesOnBy 4 run.old run.new }
    ensures means { Means symbol_seen result run.old run.new (λ r. give (argument r a)) }
{
    if !is_plain(a) {
        return Err(Stop::Memory);
    }
    let term = whole_node(run, a.base, a.term)?;
    let yes = run.truth_node(true)?;
    Ok(symbol(a.base, Some(yes), term))
}

/// The absent option of a base.
#[tactic(auto, using(crate::proofs::GoingOn::goes_both, crate::proofs::GoingOn::goes_most))]
pub fn nothing(run: &mut Run, base: Base) -> Result<Symbol, Stop>
    ensures goes { GoesOnBy 0 run.old run.new }
    ensures means { Means symbol_seen result run.old run.new (λ r. give (held r.mode (Some values.absent))) }
{
    let zero = integer(run, 0)?;
    let no = run.truth_node(false)?;
    Ok(symbol(base, Some(no), zero))
}

/// A symbol where a Boolean node is true, and undefined elsewhere; a truth value is false there. An
/// option that is undefined occurs.
#[tactic(auto, using(crate::proofs::GoingOn::goes_both, crate::proofs::GoingOn::goes_most))]
pub fn guarded(run: &mut Run, d: Id, a: Symbol) -> Result<Symbol, Stop>
    ensures goes { GoesOnBy 20 run.old run.new }
    ensures means { Means symbol_seen result run.old run.new (λ r. give (held r.mode (as_argument a.base a.occurs (guarded_value r d a)))) }
{
    match a.occurs {
        None => {
            let term = kept_node(run, a.base, d, a.term)?;
            Ok(symbol(a.base, None, term))
        }
        Some(o) => {
            let term = guard_node(run, d, a.term)?;
            let there = occurs_unless(run, d, o)?;
            Ok(symbol(a.base, Some(there), term))
        }
    }
}

/// A choice from this domain, the next one, as `take` makes it; the value of an option of a truth
/// value is an integer node.
#[tactic(auto, using(crate::proofs::GoingOn::goes_both, crate::proofs::GoingOn::goes_most))]
pub fn choice(run: &mut Run, base: Base, opt: bool, set: &RangeSet) -> Result<Symbol, Stop>
    ensures goes { GoesOnBy 12 run.old run.new }
    ensures means { Means symbol_seen result run.old run.new (λ r s. runs.Out (held r.mode (choice_at r.mode (length s.taken))) (noted r.mode (choice_domain base opt set.now ∷ []) 0 s)) }
{
    let taken = run.take(base, opt, set)?;
    match taken.occurs {
        None => Ok(taken),
        Some(o) => {
            let term = whole_node(run, taken.base, taken.term)?;
            Ok(symbol(taken.base, Some(o), term))
        }
    }
}

// ---- variables

/// Whether this is an option of a truth value.
fn is_truth_option(a: Symbol) -> bool {
    match a.base {
        Base::Bool => a.occurs.is_some(),
        _ => false,
    }
}

/// The same option, with the integer node of its value. What this may cost is drawn.
#[tactic(auto, using(crate::proofs::GoingOn::goes_drawn))]
fn whole_option(run: &mut Run, a: Symbol) -> Result<Symbol, Memory>
    ensures goes { GoesOn run.old run.new }
    ensures same { IfOk result (λ _. (r : Reading) → Reads r run.new → state_of r run.old ≡ state_of r run.new) }
    ensures whole { IfOk result (IsWholeOf run.new a) }
{
    run.draw(4)?;
    let Ok(term) = whole_node(run, a.base, a.term) else {
        return Err(Memory);
    };
    Ok(symbol(a.base, a.occurs, term))
}

/// The same symbol, where its value's node has a value, as a variable's has; the value of an option
/// of a truth value is an integer node, and a variable's own node is Boolean.
///
/// What the node may cost is drawn from the charges that are saved. Out of memory too where fewer
/// than 4 are.
#[tactic(auto, using(crate::proofs::WholeLaws::same_whole))]
pub fn with_whole_value(run: &mut Run, a: Symbol) -> Result<Symbol, Memory>
    ensures goes { GoesOn run.old run.new }
    ensures same { IfOk result (λ _. (r : Reading) → Reads r run.new → state_of r run.old ≡ state_of r run.new) }
    ensures whole { IfOk result (IsWholeOf run.new a) }
{
    if is_truth_option(a) {
        whole_option(run, a)
    } else {
        Ok(a)
    }
}
