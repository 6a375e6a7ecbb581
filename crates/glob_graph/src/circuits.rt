// `circuit`.

ghost use Rattle.std.specs.Prelude.{◌≡◌, ◌+◌, ◌*◌, ◌∷◌, ◌&&◌, [], IfOk, Some, length, true};
ghost use Rattle.mz_index.specs.Places.{length_of};
ghost use Rattle.mz_core.specs.declared.types.Base.TheVariants as base;
ghost use Rattle.mz_globals.specs.declared.global.Global.TheVariants as global;
ghost use Rattle.mz_globals.specs.Lists.{pairwise};
ghost use Rattle.mz_symbol.specs.Makes.{GoesOnBy};
ghost use Rattle.glob_nodes.specs.declared.nodes.Compare.TheVariants as compare;
ghost use Rattle.glob_nodes.specs.Arguments.{IsWhole, array_value};
ghost use Rattle.glob_nodes.specs.Rows.{IsRow, row_cost};
ghost use Rattle.glob_nodes.specs.Says.{Says, Tells, compares, num, pair_count};
ghost use Rattle.glob_nodes.specs.Numbers.{IsNumber};
ghost use Rattle.glob_graph.specs.Walks.{IsNext, IsRound, IsWalked, range_of};

use glob_nodes::{
    Compare, Compared, Join, Numbers, compared, constant, each_two, joined, list_of, made,
};
use mz_arena::{Id, NodeKind};
use mz_base::Memory;
use mz_index::length_of;
use mz_symbol::Run;
use mz_symbol_access::alone_node;
use std::alloc::Global;

/// `circuit`: the elements lead from the first index through all others and back to it. Out of
/// memory too where there aren't as many elements as indices.
pub fn circuit(alloc: Global, run: &mut Run, xs: &Numbers) -> Result<Id, Memory>
    requires { IsWhole run.old xs.now }
    ensures goes { GoesOnBy (56 * row_cost global.Circuit (length xs.now.items.items ∷ [])) run.old run.new }
    ensures row { IfOk result (IsRow base.Bool run.old run.new global.Circuit (λ r. array_value r xs.now ∷ [])) }
{
    let body = round(alloc, run, xs)?;
    joined(run, Join::Both, xs.defined, body)
}

/// Whether there are as many elements as indices.
fn has_count(xs: &Numbers) -> bool
    ensures { result ≡ true → length_of (range_of xs.now) ≡ length xs.now.items.items }
{
    length_of(&(xs.first, xs.last)) == xs.items.len() as u128
}

fn round(alloc: Global, run: &mut Run, xs: &Numbers) -> Result<Id, Memory>
    ensures goes { GoesOnBy (64 * length xs.now.items.items + 12 * (length xs.now.items.items * length xs.now.items.items) + 12) run.old run.new }
    ensures round { IfOk result (IsRound run.old run.new xs.now) }
{
    if has_count(xs) {
        let id = walk_round(alloc, run, xs)?;
        Ok(id)
    } else {
        Err(Memory)
    }
}

/// That a walk of as many steps as there are indices leaves each once, and ends where it began.
fn walk_round(alloc: Global, run: &mut Run, xs: &Numbers) -> Result<Id, Memory>
    requires { length_of (range_of xs.now) ≡ length xs.now.items.items }
    ensures goes { GoesOnBy (64 * length xs.now.items.items + 12 * (length xs.now.items.items * length xs.now.items.items) + 12) run.old run.new }
    ensures round { IfOk result (IsRound run.old run.new xs.now) }
{
    let list = list_of(run, &xs.items)?;
    let mut walk = Vec::new(alloc);
    let end = walked(run, xs, list, &mut walk)?;
    closed(run, xs, walk.as_slice(), end)
}

/// That the indices of a walk differ, and that it ends at the first one.
#[tactic(auto, using(mz_symbol_rows::proofs::GoingOn::goes_both, mz_symbol_rows::proofs::GoingOn::goes_most))]
fn closed(run: &mut Run, xs: &Numbers, walk: &[Id], end: Id) -> Result<Id, Memory>
    ensures goes { GoesOnBy (12 * pair_count walk.now + 12) run.old run.new }
    ensures tells { IfOk result (Tells run.old run.new (λ r. compares compare.Equal (num r end) (Some xs.now.first) && pairwise (λ x y. compares compare.Differ (num r x) (num r y)) walk.now)) }
{
    let differ = each_two(
        run,
        &Compared {
            op: Compare::Differ,
        },
        walk,
    )?;
    let back = is_first(run, xs, end)?;
    let id = joined(run, Join::Both, back, differ)?;
    Ok(id)
}

fn first_index(run: &mut Run, xs: &Numbers) -> Result<Id, Memory>
    ensures goes { GoesOnBy 0 run.old run.new }
    ensures is { IfOk result (IsNumber run.old run.new (λ _. Some xs.now.first)) }
{
    constant(run, xs.first)
}

#[tactic(auto, using(mz_symbol_rows::proofs::GoingOn::goes_both))]
fn is_first(run: &mut Run, xs: &Numbers, x: Id) -> Result<Id, Memory>
    ensures goes { GoesOnBy 6 run.old run.new }
    ensures says { IfOk result (Says run.old run.new (λ r. compares compare.Equal (num r x) (Some xs.now.first))) }
{
    let first = first_index(run, xs)?;
    compared(run, Compare::Equal, x, first)
}

/// The element that an index leads to; undefined where it leads outside.
#[tactic(auto, using(mz_symbol_rows::proofs::GoingOn::goes_both))]
fn following(run: &mut Run, range: &(i64, i64), list: Id, p: Id) -> Result<Id, Memory>
    ensures goes { GoesOnBy 56 run.old run.new }
    ensures next { IfOk result (IsNext run.old run.new range.now list p) }
{
    let place = alone_node(run, range, p)?;
    made(run, NodeKind::Access, place, list)
}

/// The indices that a walk from the first index leaves, as many as there are elements, and the one
/// where it ends.
fn walked(run: &mut Run, xs: &Numbers, list: Id, walk: &mut Vec<Id>) -> Result<Id, Memory>
    requires none { walk.old.items ≡ [] }
    requires count { length_of (range_of xs.now) ≡ length xs.now.items.items }
    ensures goes { GoesOnBy (56 * length xs.now.items.items) run.old run.new }
    ensures walked { IfOk result (IsWalked run.old run.new xs.now list walk.new.items) }
    ensures long { IfOk result (λ _. length walk.new.items ≡ length xs.now.items.items) }
{
    let mut at = first_index(run, xs)?;
    'steps: while walk.len() < xs.items.len() {
        walk.push(at)?;
        at = following(run, &(xs.first, xs.last), list, at)?;
    }
    Ok(at)
}
