// What constraints tell, as guards.

ghost use Rattle.std.specs.Prelude.{◌≡◌, ℕ, IfOk, Some, false};
ghost use Rattle.mz_arena.specs.Values as terms;
ghost use Rattle.mz_arena.specs.Values.{Term};
ghost use Rattle.mz_meaning.specs.Cells as cells;
ghost use Rattle.mz_meaning.specs.Cells.{held};
ghost use Rattle.mz_symbol.specs.Makes.{GoesOn};
ghost use Rattle.glob_nodes.specs.Says.{Tells};
ghost use Rattle.mz_eval_cells.specs.declared.types.Origin.TheVariants as origin;
ghost use Rattle.mz_eval_cells.specs.Views.{item_content, origin_value, seen, var_content};
ghost use Rattle.mz_eval_guards.specs.Guards.{IsGuard};
ghost use Rattle.mz_eval_names.specs.Steps.{met};

use crate::values::is_valueless;
use glob_nodes::truth;
use mz_arena::Id;
use mz_base::Memory;
use mz_core::Base;
use mz_eval_cells::{Item, Known, Origin, VarValue};
use mz_eval_guards::{Guard, never};
use mz_symbol::{Run, Symbol};

fn is_true_item(i: &Item) -> bool
    ensures { result ≡ cells.is_true (Some (item_content i.now)) }
{
    match i {
        Item::Bool(b) => *b,
        Item::Int(_) => false,
        Item::Enum(_, _) => false,
        Item::Absent => false,
        Item::Set(_) => false,
        Item::Text(_) => false,
    }
}

/// A truth value that is known.
#[tactic(auto, using(mz_eval_guards::proofs::Joined::tells_of))]
fn known_truth(run: &mut Run, is: bool) -> Result<Id, Memory>
    ensures goes { GoesOn run.old run.new }
    ensures tells { IfOk result (Tells run.old run.new (λ _. is)) }
{
    let id = truth(run, is)?;
    Ok(id)
}

/// The node of a truth value that is no option.
#[tactic(auto, using(crate::proofs::ConditionLaws::symbol_told))]
fn symbol_node(s: Symbol) -> Result<Id, Memory>
    ensures { IfOk result (λ id. (t : ℕ → Term) → terms.is_true (t id) ≡ cells.is_true (origin_value t (origin.Symbol s))) }
{
    match s.base {
        Base::Bool => match s.occurs {
            None => Ok(s.term),
            Some(_) => Err(Memory),
        },
        _ => Err(Memory),
    }
}

#[tactic(auto, using(crate::proofs::ConditionLaws::stands, crate::proofs::GuardLaws::goes_on))]
fn symbol_true(run: &mut Run, s: Symbol) -> Result<Id, Memory>
    ensures goes { GoesOn run.old run.new }
    ensures tells { IfOk result (Tells run.old run.new (λ r. cells.is_true (origin_value r.term (origin.Symbol s)))) }
{
    let _nodes = run.arena();
    let id = symbol_node(s)?;
    Ok(id)
}

/// A truth value that may be undefined is true where its first node is.
#[tactic(auto, using(crate::proofs::ConditionLaws::truth_tells, crate::proofs::GuardLaws::goes_on))]
fn origin_true(run: &mut Run, o: &Origin) -> Result<Id, Memory>
    ensures goes { GoesOn run.old run.new }
    ensures tells { IfOk result (Tells run.old run.new (λ r. cells.is_true (origin_value r.term o.now))) }
{
    match o {
        Origin::Nothing => known_truth(run, false),
        Origin::Item(i) => known_truth(run, is_true_item(i)),
        Origin::Symbol(s) => symbol_true(run, *s),
        Origin::Truth(yes, _) => Ok(*yes),
    }
}

#[tactic(auto, using(crate::proofs::ConditionLaws::origin_met))]
fn plain_met(run: &mut Run, v: &VarValue) -> Result<Guard, Memory>
    ensures goes { GoesOn run.old run.new }
    ensures guards { IfOk result (IsGuard run.old run.new (λ r. record { par = false; is = cells.is_true (held r.mode (var_content r.term v.now)) })) }
{
    if v.cast.is_some() {
        return Err(Memory);
    }
    let id = origin_true(run, &v.origin)?;
    Ok(Guard::Open(id))
}

#[tactic(auto, using(crate::proofs::ConditionLaws::none_met))]
fn var_met(run: &mut Run, v: &VarValue) -> Result<Guard, Memory>
    ensures goes { GoesOn run.old run.new }
    ensures guards { IfOk result (IsGuard run.old run.new (λ r. record { par = false; is = cells.is_true (held r.mode (var_content r.term v.now)) })) }
{
    if is_valueless(v) {
        never(run)
    } else {
        plain_met(run, v)
    }
}

/// Whether a constraint holds. Out of memory too of a var cell that is no Boolean, is recast or may
/// be absent.
pub(crate) fn condition(run: &mut Run, k: &Known) -> Result<Guard, Memory>
    ensures goes { GoesOn run.old run.new }
    ensures guards { IfOk result (IsGuard run.old run.new (λ r. met (seen r k.now))) }
{
    match k {
        Known::Undefined => Ok(Guard::Par(false)),
        Known::One(i) => Ok(Guard::Par(is_true_item(i))),
        Known::Array(_, _) => Ok(Guard::Par(false)),
        Known::Var(v) => var_met(run, v),
        Known::Row(_, _) => Err(Memory),
        Known::Unshaped(_) => never(run),
    }
}
