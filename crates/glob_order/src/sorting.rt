// `sort`.

ghost use Rattle.std.specs.Prelude.{◌≡◌, ◌+◌, ◌*◌, ◌∷◌, [], IfOk, length};
ghost use Rattle.std.specs.List.{list_all};
ghost use Rattle.mz_core.specs.declared.types.Base.TheVariants as base;
ghost use Rattle.mz_globals.specs.declared.global.Global.TheVariants as global;
ghost use Rattle.mz_symbol.specs.Makes.{GoesOnBy};
ghost use Rattle.glob_nodes.specs.Arguments.{IsWhole, array_value};
ghost use Rattle.glob_nodes.specs.Rows.{IsRow, row_cost};
ghost use Rattle.glob_nodes.specs.Says.{Tells};
ghost use Rattle.glob_order.specs.Senses.{are_as_often, both_room, is_as_often, often_room, sort_room, sorted};

use glob_nodes::{
    Compare, Compared, Join, Numbers, Test, all_pass, compared, counted, each_next, joined,
    where_arrays,
};
use mz_arena::Id;
use mz_base::Memory;
use mz_symbol::Run;

/// `sort`: the second array is the first one sorted. It is increasing, and both have each element
/// of either as often, so that they are of one length.
pub fn sort(run: &mut Run, xs: &Numbers, ys: &Numbers) -> Result<Id, Memory>
    requires first { IsWhole run.old xs.now }
    requires second { IsWhole run.old ys.now }
    ensures goes { GoesOnBy (56 * row_cost global.Sort (length xs.now.items.items ∷ length ys.now.items.items ∷ [])) run.old run.new }
    ensures row { IfOk result (IsRow base.Bool run.old run.new global.Sort (λ r. array_value r xs.now ∷ array_value r ys.now ∷ [])) }
{
    let body = sorted(run, &xs.items, &ys.items)?;
    where_arrays(run, xs, ys, body)
}

#[tactic(auto, using(mz_symbol_rows::proofs::GoingOn::goes_both, mz_symbol_rows::proofs::GoingOn::goes_most))]
fn sorted(run: &mut Run, xs: &[Id], ys: &[Id]) -> Result<Id, Memory>
    ensures goes { GoesOnBy (sort_room (length xs.now) (length ys.now)) run.old run.new }
    ensures tells { IfOk result (Tells run.old run.new (λ r. sorted r xs.now ys.now)) }
{
    let least = Compared {
        op: Compare::AtMost,
    };
    let order = each_next(run, &least, ys)?;
    let often = all_as_often(run, xs, ys)?;
    let id = joined(run, Join::Both, order, often)?;
    Ok(id)
}

#[tactic(auto, using(mz_symbol_rows::proofs::GoingOn::goes_both, mz_symbol_rows::proofs::GoingOn::goes_most))]
fn all_as_often(run: &mut Run, xs: &[Id], ys: &[Id]) -> Result<Id, Memory>
    ensures goes { GoesOnBy (both_room (length xs.now) (length ys.now)) run.old run.new }
    ensures tells { IfOk result (Tells run.old run.new (λ r. are_as_often r xs.now ys.now)) }
{
    let first = each_as_often(run, xs, ys, xs)?;
    let second = each_as_often(run, xs, ys, ys)?;
    let id = joined(run, Join::Both, first, second)?;
    Ok(id)
}

fn each_as_often(run: &mut Run, xs: &[Id], ys: &[Id], items: &[Id]) -> Result<Id, Memory>
    ensures goes { GoesOnBy (often_room (length xs.now) (length ys.now) (length items.now)) run.old run.new }
    ensures tells { IfOk result (Tells run.old run.new (λ r. list_all (λ v. is_as_often r xs.now ys.now v) items.now)) }
{
    let id = all_pass(run, &AsOften { xs, ys }, items)?;
    Ok(id)
}

/// Lists that have an integer equally often.
#[derive(Clone, Copy)]
struct AsOften<'a> {
    xs: &'a [Id],
    ys: &'a [Id],
}

impl<'a> Test<Id> for AsOften<'a> {
    ghost use Rattle.std.specs.Prelude.{◌+◌, ◌*◌, length};
    ghost use Rattle.glob_order.specs.Senses.{is_as_often};

    ghost holds = { λ c x r. is_as_often r c.xs.now c.ys.now x };

    ghost room = { λ c. 14 * length c.xs.now + 14 * length c.ys.now + 6 };

    fn test(&self, run: &mut Run, x: &Id) -> Result<Id, Memory> {
        let id = as_often(run, self.xs, self.ys, *x)?;
        Ok(id)
    }
}

#[tactic(auto, using(mz_symbol_rows::proofs::GoingOn::goes_both, mz_symbol_rows::proofs::GoingOn::goes_most))]
fn as_often(run: &mut Run, xs: &[Id], ys: &[Id], v: Id) -> Result<Id, Memory>
    ensures goes { GoesOnBy (14 * length xs.now + 14 * length ys.now + 6) run.old run.new }
    ensures tells { IfOk result (Tells run.old run.new (λ r. is_as_often r xs.now ys.now v)) }
{
    let equal = Compared { op: Compare::Equal };
    let first = counted(run, &equal, &v, xs)?;
    let second = counted(run, &equal, &v, ys)?;
    let id = compared(run, Compare::Equal, first, second)?;
    Ok(id)
}
