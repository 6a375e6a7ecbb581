// `all_disjoint`.

ghost use Rattle.std.specs.Prelude.{◌≡◌, ◌+◌, ◌*◌, ◌∷◌, ◌&&◌, [], IfOk, length};
ghost use Rattle.mz_core.specs.declared.types.Base.TheVariants as base;
ghost use Rattle.mz_globals.specs.declared.global.Global.TheVariants as global;
ghost use Rattle.mz_operations.specs.Sets.{same_set};
ghost use Rattle.mz_globals.specs.Lists.{pairwise};
ghost use Rattle.mz_arena.specs.Values.{as_set, holds};
ghost use Rattle.mz_symbol.specs.Makes.{GoesOnBy};
ghost use Rattle.glob_nodes.specs.Rows.{IsRow, row_cost};
ghost use Rattle.glob_nodes.specs.Says.{Says, Tells, pair_count};
ghost use Rattle.glob_sets.specs.Arrays.{AreSets, IsSet, sets_value};
ghost use Rattle.glob_sets.specs.Senses.{all_apart, are_apart};

use glob_nodes::{Join, Numbers, Relation, each_two, joined, made};
use mz_arena::{Id, NodeKind};
use mz_base::Memory;
use mz_symbol::Run;

/// `all_disjoint`: no two of the sets of an array share an element. The array's elements are nodes of
/// sets, and `none` is a node of the empty set.
pub fn all_disjoint(run: &mut Run, ss: &Numbers, none: Id) -> Result<Id, Memory>
    requires sets { AreSets run.old ss.now }
    requires none { IsSet run.old none [] }
    ensures goes { GoesOnBy (56 * row_cost global.Disjoint (length ss.now.items.items ∷ [])) run.old run.new }
    ensures row { IfOk result (IsRow base.Bool run.old run.new global.Disjoint (λ r. sets_value r ss.now ∷ [])) }
{
    let body = all_apart(run, ss, none)?;
    joined(run, Join::Both, ss.defined, body)
}

/// That each two sets share no element.
pub(crate) fn all_apart(run: &mut Run, ss: &Numbers, none: Id) -> Result<Id, Memory>
    ensures goes { GoesOnBy (16 * pair_count ss.now.items.items) run.old run.new }
    ensures tells { IfOk result (Tells run.old run.new (λ r. all_apart r none ss.now)) }
{
    each_apart(run, &ss.items, none)
}

fn each_apart(run: &mut Run, ids: &[Id], none: Id) -> Result<Id, Memory>
    ensures goes { GoesOnBy (16 * pair_count ids.now) run.old run.new }
    ensures tells { IfOk result (Tells run.old run.new (λ r. pairwise (are_apart r none) ids.now)) }
{
    let id = each_two(run, &Apart { none }, ids)?;
    Ok(id)
}

/// Two sets without a common element.
#[derive(Clone, Copy)]
struct Apart {
    none: Id,
}

impl Relation<Id> for Apart {
    ghost use Rattle.glob_sets.specs.Senses.{are_apart};

    ghost related = { λ c x y r. are_apart r c.none x y };

    ghost room = { 10 };

    fn relate(&self, run: &mut Run, x: &Id, y: &Id) -> Result<Id, Memory> {
        let id = are_apart(run, *x, *y, self.none)?;
        Ok(id)
    }
}

#[tactic(auto, using(mz_symbol_rows::proofs::GoingOn::goes_both))]
fn are_apart(run: &mut Run, x: Id, y: Id, none: Id) -> Result<Id, Memory>
    ensures goes { GoesOnBy 10 run.old run.new }
    ensures says { IfOk result (Says run.old run.new (λ r. are_apart r none x y)) }
{
    let common = made(run, NodeKind::Intersect, x, y)?;
    equal(run, common, none)
}

/// Whether two sets are equal.
pub(crate) fn equal(run: &mut Run, s: Id, t: Id) -> Result<Id, Memory>
    ensures goes { GoesOnBy 6 run.old run.new }
    ensures says { IfOk result (Says run.old run.new (λ r. holds (as_set (r.term s)) (as_set (r.term t)) same_set)) }
{
    made(run, NodeKind::SetEq, s, t)
}
