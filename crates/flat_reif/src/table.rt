// The arguments of ids, and tests of kinds and sorts.

ghost use Rattle.std.specs.Prelude.{◌≡◌, ◌<◌, IfOk, OnOk, length};
ghost use Rattle.fz_program.specs.Arguments.{Plain, plain};
ghost use Rattle.flat_reif.specs.States.{plain_args, put_at};
ghost use Rattle.mz_arena.specs.Entries.{is_local};
ghost use Rattle.flat_reif.specs.NodeKinds.{divides, place_of, row_of_element};

use fz_program::{Arg, RowName};
use mz_arena::{Id, NodeKind, Sort};
use mz_base::Memory;
use std::alloc::Global;

// A copy of an argument that is no array.
pub(crate) fn copied(alloc: Global, a: &Arg) -> Result<Arg, Memory>
    ensures { IfOk result (λ b. plain b ≡ plain a.now) }
{
    match a {
        Arg::Var(k) => Ok(Arg::Var(*k)),
        Arg::Int(n) => Ok(Arg::Int(*n)),
        Arg::Bool(b) => Ok(Arg::Bool(*b)),
        Arg::Set(s) => Ok(Arg::Set(s.copy(alloc)?)),
        Arg::Array(_) => Ok(Arg::Array(Vec::new(alloc))),
    }
}

// A place for this id.
#[tactic(auto, using(crate::proofs::Puts::push_put))]
fn reach(args: &mut Vec<Option<Arg>>, id: Id) -> Result<(), Memory>
    ensures long { OnOk result (id < length args.new.items) }
    ensures same { (p : Plain) → put_at (plain_args args.new.items) id p ≡ put_at (plain_args args.old.items) id p }
{
    'longer: while args.len() as u64 <= id {
        args.push(None)?;
    }
    Ok(())
}

// Puts an argument at its id's place.
fn set(args: &mut Vec<Option<Arg>>, id: Id, a: Arg)
    requires { id < length args.old.items }
    ensures { plain_args args.new.items ≡ put_at (plain_args args.old.items) id (plain a) }
{
    args[id as usize] = Some(a);
}

// Gives an id of an arena its argument.
pub(crate) fn put(args: &mut Vec<Option<Arg>>, id: Id, a: Arg) -> Result<(), Memory>
    ensures { OnOk result (plain_args args.new.items ≡ put_at (plain_args args.old.items) id (plain a)) }
{
    given!(reach(args, id));
    set(args, id, a);
    Ok(())
}

// The row of an access to a list whose elements are of this sort.
pub(crate) fn row_of_element(sort: Sort) -> RowName
    ensures { result ≡ row_of_element sort }
{
    match sort {
        Sort::Integer => RowName::ArrayVarIntElement,
        Sort::Boolean => RowName::ArrayVarBoolElement,
        _ => RowName::ArrayVarSetElement,
    }
}

// Whether a node of this kind is a choice.
pub(crate) fn is_local(kind: NodeKind) -> bool
    ensures { result ≡ is_local kind }
{
    matches!(kind, NodeKind::Local | NodeKind::SetLocal)
}

// Whether a node of this kind has no value where its second child is 0.
pub(crate) fn divides(kind: NodeKind) -> bool
    ensures { result ≡ divides kind }
{
    matches!(kind, NodeKind::Div | NodeKind::Mod)
}

// The place of the variable that an argument is.
pub(crate) fn place_of(a: &Arg) -> Option<u64>
    ensures { result ≡ place_of (plain a.now) }
{
    match a {
        Arg::Var(k) => Some(*k),
        Arg::Int(_) => None,
        Arg::Bool(_) => None,
        Arg::Set(_) => None,
        Arg::Array(_) => None,
    }
}
