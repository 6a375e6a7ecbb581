// The nodes of unions and intersections.

ghost use Rattle.std.specs.Prelude.{◌≡◌, IfOk, false};
ghost use Rattle.mz_arena.specs.Charges.{charge_of};
ghost use Rattle.mz_arena.specs.Entries.{is_free};
ghost use Rattle.mz_arena.specs.Values.{guard_term, set_term};
ghost use Rattle.mz_meaning.specs.Runs.{give};
ghost use Rattle.mz_symbol.specs.Makes.{GoesOnBy, Means};
ghost use Rattle.mz_symbol_rows.specs.StepsNodes.{meaning_over, symbol_of};
ghost use Rattle.mz_core.specs.declared.types.Base.TheVariants as base;
ghost use Rattle.mz_symbol_arrays.specs.StepsUnions.{IsSetNode};

use mz_arena::{Id, Node, NodeKind};
use mz_base::{Memory, Stop};
use mz_core::Base;
use mz_operations::SetOp;
use mz_symbol::{Run, Symbol};

fn made(run: &mut Run, kind: NodeKind, a: Id, b: Id) -> Result<Id, Stop>
    requires { is_free kind ≡ false }
    ensures goes { GoesOnBy (charge_of kind) run.old run.new }
    ensures means { Means (λ r. r.term) result run.old run.new (λ r. give (meaning_over kind a b r)) }
{
    let n = Node {
        kind,
        a,
        b,
        c: 0,
        number: 0,
    };
    run.node(&n)
}

/// What is made of two sets.
pub(crate) fn joined(run: &mut Run, op: SetOp, s: Id, t: Id) -> Result<Id, Stop>
    ensures goes { GoesOnBy 4 run.old run.new }
    ensures means { Means (λ r. r.term) result run.old run.new (λ r. give (set_term op (r.term s) (r.term t))) }
{
    match op {
        SetOp::Union => made(run, NodeKind::Union, s, t),
        SetOp::Intersect => made(run, NodeKind::Intersect, s, t),
        SetOp::Diff => made(run, NodeKind::Diff, s, t),
        SetOp::Symdiff => made(run, NodeKind::Symdiff, s, t),
    }
}

/// A set where a Boolean node is true, else undefined.
pub(crate) fn guard_node(run: &mut Run, d: Id, s: Id) -> Result<Id, Stop>
    ensures goes { GoesOnBy 8 run.old run.new }
    ensures means { Means (λ r. r.term) result run.old run.new (λ r. give (guard_term (r.term d) (r.term s))) }
{
    made(run, NodeKind::Guard, d, s)
}

/// The node of a set.
pub(crate) fn set_node(s: Symbol) -> Result<Id, Memory>
    ensures { IfOk result (λ id. IsSetNode id s) }
{
    match s.occurs {
        None => match s.base {
            Base::SetInt => Ok(s.term),
            Base::SetEnum(_) => Ok(s.term),
            _ => Err(Memory),
        },
        Some(_) => Err(Memory),
    }
}

/// A set of integers.
pub(crate) fn whole(term: Id) -> Symbol
    ensures { result ≡ symbol_of base.SetInt term }
{
    Symbol {
        base: Base::SetInt,
        occurs: None,
        term,
    }
}
