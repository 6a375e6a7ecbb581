// Branches of Booleans that are no options, of which one has no value: what is chosen may be undefined.

ghost use Rattle.std.specs.Prelude.{◌*◌, ◌+◌, [], IfOk, None, length};
ghost use Rattle.mz_meaning.specs.Runs.{give};
ghost use Rattle.mz_symbol.specs.Makes.{GoesOn, GoesOnBy, Means};
ghost use Rattle.mz_eval_symbols.specs.Taken.{cell_value};
ghost use Rattle.mz_eval_arrays.specs.StepsBranches.{branch_value, branches_value, one_value};
ghost use Rattle.mz_eval_branches.specs.Truths.{IsNodeOf, truth_seen};

use crate::folding::{is_none, split};
use crate::undefined::has_no_value;
use mz_arena::Id;
use mz_base::{Memory, Stop};
use mz_core::Base;
use mz_eval_arrays::condition;
use mz_eval_cells::Known;
use mz_eval_symbols::symbol_in;
use mz_symbol::{Run, Symbol};
use mz_symbol_access::if_node;
use std::alloc::Global;

// ---- one branch

/// The node that is true where a Boolean is; out of memory of what is none, and of an option.
#[tactic(auto, using(crate::proofs::TruthLaws::node_told))]
fn node_of(s: Symbol) -> Result<Id, Memory>
    ensures { IfOk result (IsNodeOf s) }
{
    match s.base {
        Base::Bool => match s.occurs {
            None => Ok(s.term),
            Some(_) => Err(Memory),
        },
        _ => Err(Memory),
    }
}

/// The nodes of a Boolean without a value.
fn no_truth(run: &mut Run) -> Result<(Id, Id), Stop>
    ensures goes { GoesOn run.old run.new }
    ensures means { Means truth_seen result run.old run.new (λ r. give None) }
{
    let no = run.truth_node(false)?;
    Ok((no, no))
}

/// The nodes of a Boolean that is defined.
fn whole_truth(alloc: Global, run: &mut Run, k: &Known) -> Result<(Id, Id), Stop>
    ensures goes { GoesOnBy 8 run.old run.new }
    ensures means { Means truth_seen result run.old run.new (λ r. give (cell_value r k.now)) }
{
    let s = symbol_in(alloc, run, Base::Bool, false, k)?;
    let id = node_of(s)?;
    let yes = run.truth_node(true)?;
    Ok((id, yes))
}

/// The nodes of a branch.
fn truth_of(alloc: Global, run: &mut Run, k: &Known) -> Result<(Id, Id), Stop>
    ensures goes { GoesOnBy 8 run.old run.new }
    ensures means { Means truth_seen result run.old run.new (λ r. give (branches_value r [] k.now)) }
{
    if has_no_value(k) {
        return no_truth(run);
    }
    whole_truth(alloc, run, k)
}

// ---- one of them

/// The first of two under a condition, else the second.
fn picked(run: &mut Run, id: Id, x: (Id, Id), y: (Id, Id)) -> Result<(Id, Id), Stop>
    ensures goes { GoesOnBy 32 run.old run.new }
    ensures means { Means truth_seen result run.old run.new (λ r. give (one_value r id (truth_seen r x) (truth_seen r y))) }
{
    let yes = if_node(run, id, x.0, y.0)?;
    let defined = if_node(run, id, x.1, y.1)?;
    Ok((yes, defined))
}

/// One branch more before the others.
fn with_first(
    alloc: Global,
    run: &mut Run,
    p: &(Known, Known),
    rest: (Id, Id),
) -> Result<(Id, Id), Stop>
    ensures goes { GoesOnBy 48 run.old run.new }
    ensures means { Means truth_seen result run.old run.new (λ r. give (branch_value r p.now (truth_seen r rest))) }
{
    let Ok(id) = condition(alloc, run, &p.0) else {
        return Err(Stop::Memory);
    };
    let x = truth_of(alloc, run, &p.1)?;
    let z = picked(run, id, x, rest)?;
    Ok(z)
}

/// The nodes of the first branch whose condition is true, and else of the last: it is true where the
/// first node is; else false where the second is, and undefined elsewhere.
pub(crate) fn chosen_truth(
    alloc: Global,
    run: &mut Run,
    branches: &[(Known, Known)],
    last: &Known,
) -> Result<(Id, Id), Stop>
    ensures goes { GoesOnBy (48 * length branches.now + 8) run.old run.new }
    ensures means { Means truth_seen result run.old run.new (λ r. give (branches_value r branches.now last.now)) }
{
    if is_none(branches) {
        return truth_of(alloc, run, last);
    }
    let Some(x) = split(branches) else {
        return Err(Stop::Memory);
    };
    let rest = chosen_truth(alloc, run, x.1, last)?;
    let z = with_first(alloc, run, x.0, rest)?;
    Ok(z)
}
