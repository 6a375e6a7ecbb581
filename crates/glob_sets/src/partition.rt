// `partition_set`.

ghost use Rattle.std.specs.Prelude.{◌≡◌, ◌+◌, ◌*◌, ◌∷◌, ◌&&◌, [], IfOk, is_some, length};
ghost use Rattle.mz_core.specs.declared.types.Base.TheVariants as base;
ghost use Rattle.mz_globals.specs.declared.global.Global.TheVariants as global;
ghost use Rattle.mz_operations.specs.Sets.{same_set};
ghost use Rattle.mz_arena.specs.Values.{as_set, holds, is_true};
ghost use Rattle.mz_symbol.specs.Makes.{GoesOnBy};
ghost use Rattle.glob_nodes.specs.Rows.{IsRow, row_cost};
ghost use Rattle.glob_nodes.specs.Says.{Gives, Says, Tells, pair_count};
ghost use Rattle.glob_nodes.specs.Sets.{set_value};
ghost use Rattle.glob_sets.specs.Arrays.{AreSets, IsSet, sets_value};
ghost use Rattle.glob_sets.specs.Senses.{make_up, united_from};

use crate::disjoint::{all_apart, equal};
use glob_nodes::{Join, Numbers, joined, made, where_set};
use mz_arena::{Id, NodeKind};
use mz_base::Memory;
use mz_symbol::Run;

/// `partition_set`: no two of the sets of an array share an element, and together they are a set. The
/// array's elements are nodes of sets, and `none` is a node of the empty set.
pub fn partition_set(run: &mut Run, ss: &Numbers, u: Id, none: Id) -> Result<Id, Memory>
    requires sets { AreSets run.old ss.now }
    requires none { IsSet run.old none [] }
    ensures goes { GoesOnBy (56 * row_cost global.Partition (length ss.now.items.items ∷ 0 ∷ [])) run.old run.new }
    ensures row { IfOk result (IsRow base.Bool run.old run.new global.Partition (λ r. sets_value r ss.now ∷ set_value r u ∷ [])) }
{
    let body = make_up(run, ss, u, none)?;
    where_both(run, ss, u, body)
}

/// A truth value where an array and a set are defined, else false.
#[tactic(auto, using(mz_symbol_rows::proofs::GoingOn::goes_both))]
fn where_both(run: &mut Run, ss: &Numbers, u: Id, body: Id) -> Result<Id, Memory>
    ensures goes { GoesOnBy 18 run.old run.new }
    ensures says { IfOk result (Says run.old run.new (λ r. is_true (r.term ss.now.defined) && (is_some (as_set (r.term u)) && is_true (r.term body)))) }
{
    let inner = where_set(run, u, body)?;
    joined(run, Join::Both, ss.defined, inner)
}

/// That sets share no element and together are a set.
#[tactic(auto, using(mz_symbol_rows::proofs::GoingOn::goes_both, mz_symbol_rows::proofs::GoingOn::goes_most))]
fn make_up(run: &mut Run, ss: &Numbers, u: Id, none: Id) -> Result<Id, Memory>
    ensures goes { GoesOnBy (16 * pair_count ss.now.items.items + (4 * length ss.now.items.items + 6) + 6) run.old run.new }
    ensures tells { IfOk result (Tells run.old run.new (λ r. make_up r none ss.now u)) }
{
    let apart = all_apart(run, ss, none)?;
    let whole = are_whole(run, ss, u, none)?;
    let id = joined(run, Join::Both, apart, whole)?;
    Ok(id)
}

/// That the union of sets is a set.
fn are_whole(run: &mut Run, ss: &Numbers, u: Id, none: Id) -> Result<Id, Memory>
    ensures goes { GoesOnBy (4 * length ss.now.items.items + 6) run.old run.new }
    ensures says { IfOk result (Says run.old run.new (λ r. holds (as_set (united_from r (r.term none) ss.now.items.items)) (as_set (r.term u)) same_set)) }
{
    let union = united(run, &ss.items, none)?;
    equal(run, union, u)
}

/// The union of sets, from the first one on.
fn united(run: &mut Run, sets: &[Id], none: Id) -> Result<Id, Memory>
    ensures goes { GoesOnBy (4 * length sets.now) run.old run.new }
    ensures gives { IfOk result (Gives run.old run.new (λ r. united_from r (r.term none) sets.now)) }
{
    let mut acc = none;
    let mut k = 0;
    'each: while k < sets.len() {
        acc = made(run, NodeKind::Union, acc, sets[k])?;
        k += 1;
    }
    Ok(acc)
}
