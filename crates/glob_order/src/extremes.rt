// The extremes of an array, and its members.

ghost use Rattle.std.specs.Prelude.{◌≡◌, ◌+◌, ◌*◌, ◌∷◌, [], IfOk, false, length};
ghost use Rattle.mz_arena.specs.Values.{as_number, extreme_term};
ghost use Rattle.mz_core.specs.declared.types.Base.TheVariants as base;
ghost use Rattle.mz_globals.specs.declared.global.Global.TheVariants as global;
ghost use Rattle.mz_symbol.specs.Makes.{GoesOnBy};
ghost use Rattle.mz_symbol.specs.Symbols.{list_term};
ghost use Rattle.glob_nodes.specs.declared.nodes.Compare.TheVariants as compare;
ghost use Rattle.glob_nodes.specs.declared.nodes.Join.TheVariants as join;
ghost use Rattle.glob_nodes.specs.Says.{Says, Tells, compares, joined_each, num};
ghost use Rattle.glob_nodes.specs.Arguments.{IsWhole, array_value, number_value};
ghost use Rattle.glob_nodes.specs.Rows.{IsRow, row_cost};

use glob_nodes::{
    Compare, Compared, Join, Numbers, compared, extreme, to_each, truth, where_number_array,
};
use mz_arena::Id;
use mz_base::Memory;
use mz_operations::Side;
use mz_symbol::Run;

/// `maximum` and `minimum`: an integer is the greatest or the least element.
pub fn extreme_is(run: &mut Run, side: Side, m: Id, xs: &Numbers) -> Result<Id, Memory>
    requires { IsWhole run.old xs.now }
    ensures goes { GoesOnBy (56 * row_cost (global.Extreme side) (1 ∷ length xs.now.items.items ∷ [])) run.old run.new }
    ensures row { IfOk result (IsRow base.Bool run.old run.new (global.Extreme side) (λ r. number_value r m ∷ array_value r xs.now ∷ [])) }
{
    let body = extreme_equals(run, side, m, &xs.items)?;
    where_number_array(run, m, xs, body)
}

#[tactic(auto, using(mz_symbol_rows::proofs::GoingOn::goes_both, mz_symbol_rows::proofs::GoingOn::goes_most))]
fn extreme_equals(run: &mut Run, side: Side, m: Id, ids: &[Id]) -> Result<Id, Memory>
    ensures goes { GoesOnBy (8 * length ids.now + 14) run.old run.new }
    ensures says { IfOk result (Says run.old run.new (λ r. compares compare.Equal (as_number (extreme_term side (list_term r.term ids.now))) (num r m))) }
{
    let most = extreme(run, side, ids)?;
    compared(run, Compare::Equal, most, m)
}

/// `member`: an integer is some element.
pub fn member(run: &mut Run, xs: &Numbers, y: Id) -> Result<Id, Memory>
    requires { IsWhole run.old xs.now }
    ensures goes { GoesOnBy (56 * row_cost global.Member (length xs.now.items.items ∷ 1 ∷ [])) run.old run.new }
    ensures row { IfOk result (IsRow base.Bool run.old run.new global.Member (λ r. array_value r xs.now ∷ number_value r y ∷ [])) }
{
    let body = equals_one(run, y, &xs.items)?;
    where_number_array(run, y, xs, body)
}

fn equals_one(run: &mut Run, y: Id, ids: &[Id]) -> Result<Id, Memory>
    ensures goes { GoesOnBy (12 * length ids.now) run.old run.new }
    ensures tells { IfOk result (Tells run.old run.new (λ r. joined_each join.Either (λ x. compares compare.Equal (num r y) (num r x)) ids.now false)) }
{
    let start = truth(run, false)?;
    let equal = Compared { op: Compare::Equal };
    to_each(run, &equal, Join::Either, &y, ids, start)
}
