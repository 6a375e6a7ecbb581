// What var conditions say of the elements after them.

ghost use Rattle.std.specs.Prelude.{◌≡◌, IfOk, MatchOption, None, Option, Some, false, true, ℕ};
ghost use Rattle.mz_arena.specs.Values as terms;
ghost use Rattle.mz_arena.specs.Values.{Term};
ghost use Rattle.mz_meaning.specs.Cells.{is_true, value_of};
ghost use Rattle.mz_meaning.specs.Comprehensions as comps;
ghost use Rattle.mz_meaning.specs.Comprehensions.{if_given};
ghost use Rattle.mz_meaning.specs.Runs.{give};
ghost use Rattle.mz_symbol.specs.Makes.{GoesOn, Means};
ghost use Rattle.mz_symbol.specs.Readings.{Reading};
ghost use Rattle.mz_eval_cells.specs.declared.types.Origin.TheVariants as origin;
ghost use Rattle.mz_eval_cells.specs.Views.{origin_value, seen, var_content};
ghost use Rattle.mz_eval_comprehensions.specs.Presences.{presence_seen, where_true};
ghost use Rattle.mz_eval_comprehensions.specs.StepsDrawn.{IsWhere};

use crate::presences::Presence;
use glob_nodes::truth;
use mz_arena::Id;
use mz_base::{Memory, Stop};
use mz_core::Base;
use mz_eval_cells::{Known, Origin, VarValue};
use mz_symbol::{Run, Symbol};
use std::alloc::Global;

/// Elements that occur where two nodes are true. What the node may cost is drawn.
#[tactic(auto, using(mz_symbol_rows::proofs::GoingOn::goes_drawn))]
fn where_both(run: &mut Run, x: Id, y: Id) -> Result<Presence, Stop>
    ensures goes { GoesOn run.old run.new }
    ensures means { Means presence_seen result run.old run.new (λ r. give (comps.both_occur (where_true r x) (where_true r y))) }
{
    run.draw(6)?;
    let p = crate::presences::both_occur(run, Presence::Where(x), Presence::Where(y))?;
    Ok(p)
}

fn where_with(run: &mut Run, x: Id, q: Presence) -> Result<Presence, Stop>
    ensures goes { GoesOn run.old run.new }
    ensures means { Means presence_seen result run.old run.new (λ r. give (comps.both_occur (where_true r x) (presence_seen r q))) }
{
    match q {
        Presence::Always => Ok(Presence::Where(x)),
        Presence::Where(y) => where_both(run, x, y),
    }
}

/// Elements that occur where both say so. Where neither surely does, what the node may cost is drawn:
/// 6.
pub fn both_occur(run: &mut Run, p: Presence, q: Presence) -> Result<Presence, Stop>
    ensures goes { GoesOn run.old run.new }
    ensures means { Means presence_seen result run.old run.new (λ r. give (comps.both_occur (presence_seen r p) (presence_seen r q))) }
{
    match p {
        Presence::Always => Ok(q),
        Presence::Where(x) => where_with(run, x, q),
    }
}

// ---- conditions

/// The node of a Boolean that is no option.
#[tactic(auto, using(crate::proofs::WhereLaws::plain_truth))]
fn truth_symbol(s: &Symbol) -> Option<Id>
    ensures { MatchOption result (Unit {0}) (λ id. (t : ℕ → Term) → is_true (origin_value t (origin.Symbol s.now)) ≡ terms.is_true (t id)) }
{
    match s.base {
        Base::Bool => match s.occurs {
            None => Some(s.term),
            Some(_) => None,
        },
        _ => None,
    }
}

/// A node that is true where a Boolean is.
#[tactic(auto, using(crate::proofs::WhereLaws::first_true))]
fn origin_truth(o: &Origin) -> Option<Id>
    ensures { MatchOption result (Unit {0}) (λ id. (t : ℕ → Term) → is_true (origin_value t o.now) ≡ terms.is_true (t id)) }
{
    match o {
        Origin::Nothing => None,
        Origin::Item(_) => None,
        Origin::Symbol(s) => truth_symbol(s),
        Origin::Truth(yes, _) => Some(*yes),
    }
}

#[tactic(auto, using(crate::proofs::WhereLaws::uncast))]
fn var_truth(v: &VarValue) -> Option<Id>
    ensures { MatchOption result (Unit {0}) (λ id. (t : ℕ → Term) → is_true (var_content t v.now) ≡ terms.is_true (t id)) }
{
    if v.cast.is_some() {
        return None;
    }
    origin_truth(&v.origin)
}

/// A node that is true where a var cell is; None where none is at hand.
#[tactic(auto, using(crate::proofs::WhereLaws::cell_true))]
fn truth_of(k: &Known) -> Option<Id>
    ensures { MatchOption result (Unit {0}) (λ id. (r : Reading) → Some (if_given r.mode (is_true (value_of (seen r k.now)))) ≡ where_true r id) }
{
    match k {
        Known::Var(v) => var_truth(v),
        _ => None,
    }
}

/// Whether nothing tells the value of a var cell that is no array.
#[tactic(auto, using(crate::proofs::WhereLaws::none_content))]
pub fn is_nothing(v: &VarValue) -> bool
    ensures { result ≡ true → (t : ℕ → Term) → var_content t v.now ≡ None }
{
    match &v.origin {
        Origin::Nothing => true,
        Origin::Item(_) => false,
        Origin::Symbol(_) => false,
        Origin::Truth(_, _) => false,
    }
}

/// Whether nothing tells the value of a var cell.
#[tactic(auto, using(crate::proofs::WhereLaws::none_held))]
fn is_untold(k: &Known) -> bool
    ensures { result ≡ true → (r : Reading) → value_of (seen r k.now) ≡ None }
{
    match k {
        Known::Var(v) => is_nothing(v),
        Known::Unshaped(_) => true,
        _ => false,
    }
}

#[tactic(auto, using(crate::proofs::WhereLaws::nowhere_told))]
fn nowhere(run: &mut Run) -> Result<Presence, Memory>
    ensures goes { GoesOn run.old run.new }
    ensures presence { IfOk result (IsWhere run.old run.new (λ r. Some (if_given r.mode false))) }
{
    let no = truth(run, false)?;
    Ok(Presence::Where(no))
}

/// What the nodes may cost is drawn.
#[tactic(auto, using(mz_symbol_rows::proofs::GoingOn::goes_drawn))]
fn asked(alloc: Global, run: &mut Run, k: &Known) -> Result<Presence, Stop>
    ensures goes { GoesOn run.old run.new }
    ensures means { Means presence_seen result run.old run.new (λ r. give (Some (if_given r.mode (is_true (value_of (seen r k.now)))))) }
{
    run.draw(8)?;
    let p = crate::presences::occurs_where(alloc, run, k)?;
    Ok(p)
}

fn untold_or_asked(alloc: Global, run: &mut Run, k: &Known) -> Result<Presence, Stop>
    ensures goes { GoesOn run.old run.new }
    ensures means { Means presence_seen result run.old run.new (λ r. give (Some (if_given r.mode (is_true (value_of (seen r k.now)))))) }
{
    if is_untold(k) {
        let p = nowhere(run)?;
        return Ok(p);
    }
    asked(alloc, run, k)
}

fn condition(alloc: Global, run: &mut Run, k: &Known) -> Result<Presence, Stop>
    ensures goes { GoesOn run.old run.new }
    ensures means { Means presence_seen result run.old run.new (λ r. give (Some (if_given r.mode (is_true (value_of (seen r k.now)))))) }
{
    match truth_of(k) {
        Some(id) => Ok(Presence::Where(id)),
        None => untold_or_asked(alloc, run, k),
    }
}

/// Elements that occur where a var condition is true too.
///
/// What the nodes may cost is drawn, none where the condition has a node that is true where it is.
/// Out of memory too where the condition isn't a Boolean's cell, or that of an option.
#[tactic(auto, using(mz_symbol::proofs::RunLaws::goes_on))]
pub fn occurs_where(
    alloc: Global,
    run: &mut Run,
    p: Presence,
    cond: &Known,
) -> Result<Presence, Stop>
    ensures goes { GoesOn run.old run.new }
    ensures means { Means presence_seen result run.old run.new
        (λ r. give (comps.both_occur (presence_seen r p) (Some (if_given r.mode (is_true (value_of (seen r cond.now))))))) }
{
    let q = condition(alloc, run, cond)?;
    let x = both_occur(run, p, q)?;
    Ok(x)
}
