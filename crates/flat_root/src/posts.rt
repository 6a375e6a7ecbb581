// The rows of roots.

ghost use Rattle.std.specs.Prelude.{◌≡◌, ◌++◌, ◌<◌, IfOk, OnOk, Some, false, length, pos, true};
ghost use Rattle.std.specs.Ordering.{int_eq};
ghost use Rattle.mz_arena.specs.Entries.{at};
ghost use Rattle.mz_partial.specs.Totals.{AreParts};
ghost use Rattle.fz_program.specs.Arguments.{bool, plain};
ghost use Rattle.flat_reif.specs.States.{state};
ghost use Rattle.flat_reif.specs.Lists.{HasArg, IsNode};
ghost use Rattle.flat_reif.specs.Roots.{IsTrueAt, IsTruthNode};
ghost use Rattle.flat_root.specs.Keeps.{AllTrue, HasChoices, IsReadyState, Leads};
ghost use Rattle.flat_root.specs.Totals.{AreRoots, Totals};
ghost use Rattle.flat_root.specs.Posts.{ArePostable, IsPostable, all_seeds, is_constant, seeds_at};

use crate::given::flatten_for;
use crate::parts::root_parts;
use crate::totals::totals;
use flat_reif::Flat;
use flat_reif_rows::test_of;
use fz_program::Arg;
use mz_arena::{Arena, Id, Node, NodeKind};
use mz_base::Memory;
use mz_partial::Memo;
use std::alloc::Global;

fn is_constant(kind: NodeKind) -> bool
    ensures { result ≡ is_constant kind }
{
    matches!(kind, NodeKind::Bool)
}

fn is_one(n: &Node) -> bool
    ensures { result ≡ int_eq n.now.number (pos 1) }
{
    n.number == 1
}

// Posts a constant: `true` adds nothing, and `false` leaves no solution.
fn post_constant(flat: &mut Flat, id: Id, n: &Node) -> Result<(), Memory>
    requires ready { IsReadyState (state flat.old) }
    requires node { IsNode (state flat.old).es id n.now }
    requires kind { is_constant n.now.kind ≡ true }
    ensures { IfOk result (λ _. Leads (state flat.old) (state flat.new) (IsTrueAt (state flat.old).es id)) }
{
    if is_one(n) { Ok(()) } else { flat.post_false() }
}

// Whether an argument is `true`.
fn is_true(a: &Arg) -> bool
    ensures { result ≡ true → plain a.now ≡ bool true }
{
    match a {
        Arg::Bool(b) => *b,
        Arg::Int(_) => false,
        Arg::Set(_) => false,
        Arg::Var(_) => false,
        Arg::Array(_) => false,
    }
}

// Whether the argument of an id is `true`.
fn is_true_at(flat: &Flat, id: Id) -> Result<bool, Memory>
    requires { HasArg (state flat.now) id }
    ensures { IfOk result (λ holds. holds ≡ true → at (state flat.now).args id ≡ Some (bool true)) }
{
    let a = given!(flat.arg(id));
    Ok(is_true(&a))
}

// Posts a node by its argument: `true` adds nothing.
fn post_argument(flat: &mut Flat, id: Id) -> Result<(), Memory>
    requires ready { IsReadyState (state flat.old) }
    requires truth { IsTruthNode (state flat.old).es id }
    requires has { HasArg (state flat.old) id }
    ensures { IfOk result (λ _. Leads (state flat.old) (state flat.new) (IsTrueAt (state flat.old).es id)) }
{
    let holds = given!(is_true_at(flat, id));
    if holds { Ok(()) } else { flat.post_true(id) }
}

// Posts a node that is no constant: by the row that tests it, or by its argument.
fn post_row(flat: &mut Flat, id: Id, n: &Node) -> Result<(), Memory>
    requires ready { IsReadyState (state flat.old) }
    requires part { IsPostable (state flat.old) id }
    requires node { IsNode (state flat.old).es id n.now }
    requires kind { is_constant n.now.kind ≡ false }
    ensures { IfOk result (λ _. Leads (state flat.old) (state flat.new) (IsTrueAt (state flat.old).es id)) }
{
    match test_of(n.kind) {
        Some(name) => flat.post_test(id, name),
        None => post_argument(flat, id),
    }
}

// Posts that a Boolean node is true.
fn post_part(flat: &mut Flat, id: Id) -> Result<(), Memory>
    requires ready { IsReadyState (state flat.old) }
    requires part { IsPostable (state flat.old) id }
    ensures { IfOk result (λ _. Leads (state flat.old) (state flat.new) (IsTrueAt (state flat.old).es id)) }
{
    let n = flat.arena().node(id);
    if is_constant(n.kind) {
        post_constant(flat, id, &n)
    } else {
        post_row(flat, id, &n)
    }
}

// Posts that these Boolean nodes are true.
fn post_parts(flat: &mut Flat, parts: &[Id]) -> Result<(), Memory>
    requires ready { IsReadyState (state flat.old) }
    requires parts { ArePostable (state flat.old) parts.now }
    ensures { IfOk result (λ _. Leads (state flat.old) (state flat.new) (AllTrue (state flat.old).es parts.now)) }
{
    'parts: for id in parts {
        given!(post_part(flat, *id));
    }
    Ok(())
}

// The ids whose arguments the row of a root takes.
fn add_seeds(arena: &Arena, id: Id, seeds: &mut Vec<Id>) -> Result<(), Memory>
    requires { id < length arena.now }
    ensures { OnOk result (seeds.new.items ≡ seeds.old.items ++ seeds_at arena.now id) }
{
    let n = arena.node(id);
    if is_constant(n.kind) {
        return Ok(());
    }
    match test_of(n.kind) {
        Some(_) => {
            seeds.push(n.a)?;
            seeds.push(n.b)?;
        }
        None => {
            seeds.push(id)?;
        }
    }
    Ok(())
}

fn all_seeds(alloc: Global, arena: &Arena, ids: &[Id]) -> Result<Vec<Id>, Memory>
    requires { AreRoots arena.now ids.now }
    ensures { IfOk result (λ seeds. seeds.items ≡ all_seeds arena.now ids.now) }
{
    let mut seeds = Vec::new(alloc);
    'ids: for id in ids {
        given!(add_seeds(arena, *id, &mut seeds));
    }
    Ok(seeds)
}

// What must be true for these roots, with the conjunctions taken apart.
fn all_parts(
    alloc: Global,
    flat: &mut Flat,
    memo: &mut Memo,
    roots: &[Id],
) -> Result<Vec<Id>, Memory>
    requires ready { IsReadyState (state flat.old) }
    requires memo { AreParts (state flat.old).es memo.old }
    requires roots { AreRoots (state flat.old).es roots.now }
    ensures totals { IfOk result (λ parts. Totals (state flat.old) (state flat.new) roots.now parts.items) }
    ensures memo { OnOk result (AreParts (state flat.new).es memo.new) }
{
    let mut defined = Vec::new(alloc);
    let mut terms = Vec::new(alloc);
    given!(totals(flat, memo, roots, &mut defined, &mut terms));
    let parts = given!(root_parts(alloc, flat.arena(), defined.as_slice(), terms.as_slice()));
    Ok(parts)
}

/// Posts that these Boolean nodes are true: keeps just the solutions in which each has a value and is true.
///
/// Each is made total, and conjunctions are taken apart; what the rows of the parts take gets its arguments.
/// Then the parts of what says where the roots have values are posted, each once; and then those of each root,
/// in order and each once for the root, so that two equal roots are two rows. What is true adds nothing.
/// A comparison, a disjunction, an equivalence or another test is one row without a variable of its own. Each
/// choice gets a variable.
pub fn post_roots(
    alloc: Global,
    flat: &mut Flat,
    memo: &mut Memo,
    roots: &[Id],
) -> Result<(), Memory>
    requires ready { IsReadyState (state flat.old) }
    requires memo { AreParts (state flat.old).es memo.old }
    requires roots { AreRoots (state flat.old).es roots.now }
    ensures posted { IfOk result (λ _. Leads (state flat.old) (state flat.new) (AllTrue (state flat.old).es roots.now)) }
    ensures choices { IfOk result (λ _. HasChoices (state flat.new)) }
    ensures memo { OnOk result (AreParts (state flat.new).es memo.new) }
{
    let parts = given!(all_parts(alloc, flat, memo, roots));
    let seeds = given!(all_seeds(alloc, flat.arena(), parts.as_slice()));
    given!(flatten_for(alloc, flat, seeds.as_slice()));
    post_parts(flat, parts.as_slice())
}
