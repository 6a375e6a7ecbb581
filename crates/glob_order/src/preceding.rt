// `value_precede`.

ghost use Rattle.std.specs.Prelude.{◌≡◌, ◌+◌, ◌*◌, ◌∷◌, ◌&&◌, ◌||◌, [], IfOk, length, map};
ghost use Rattle.mz_core.specs.declared.types.Base.TheVariants as base;
ghost use Rattle.mz_arena.specs.Values.{is_true};
ghost use Rattle.mz_globals.specs.declared.global.Global.TheVariants as global;
ghost use Rattle.mz_symbol.specs.Makes.{GoesOnBy};
ghost use Rattle.glob_nodes.specs.declared.nodes.Compare.TheVariants as compare;
ghost use Rattle.glob_nodes.specs.Arguments.{IsWhole, array_value, number_value};
ghost use Rattle.glob_nodes.specs.Rows.{IsRow, row_cost};
ghost use Rattle.glob_nodes.specs.Says.{Says, Tells, compares, num};
ghost use Rattle.glob_order.specs.Senses.{preceded_by};

use glob_nodes::{Compare, Join, Numbers, compared, joined, truth, where_numbers_array};
use mz_arena::Id;
use mz_base::Memory;
use mz_symbol::Run;

/// `value_precede`: where `t` is an element, `s` is one before it.
pub fn precede(run: &mut Run, s: Id, t: Id, xs: &Numbers) -> Result<Id, Memory>
    requires { IsWhole run.old xs.now }
    ensures goes { GoesOnBy (56 * row_cost global.Precede (1 ∷ 1 ∷ length xs.now.items.items ∷ [])) run.old run.new }
    ensures row { IfOk result (IsRow base.Bool run.old run.new global.Precede (λ r. number_value r s ∷ number_value r t ∷ array_value r xs.now ∷ [])) }
{
    let body = preceded_by(run, s, t, &xs.items)?;
    where_numbers_array(run, s, t, xs, body)
}

fn preceded_by(run: &mut Run, s: Id, t: Id, ids: &[Id]) -> Result<Id, Memory>
    ensures goes { GoesOnBy (24 * length ids.now) run.old run.new }
    ensures tells { IfOk result (Tells run.old run.new (λ r. preceded_by (num r s) (num r t) (map (num r) ids.now))) }
{
    let mut acc = truth(run, true)?;
    let mut k = ids.len();
    while k > 0 {
        k -= 1;
        acc = one_before(run, s, t, ids[k], acc)?;
    }
    Ok(acc)
}

/// An element, and what is told of those after it.
#[tactic(auto, using(mz_symbol_rows::proofs::GoingOn::goes_both, mz_symbol_rows::proofs::GoingOn::goes_most))]
fn one_before(run: &mut Run, s: Id, t: Id, x: Id, told: Id) -> Result<Id, Memory>
    ensures goes { GoesOnBy 24 run.old run.new }
    ensures says { IfOk result (Says run.old run.new (λ r. compares compare.Differ (num r t) (num r x) && (compares compare.Equal (num r s) (num r x) || is_true (r.term told)))) }
{
    let seen = compared(run, Compare::Equal, s, x)?;
    let rest = joined(run, Join::Either, seen, told)?;
    let other = compared(run, Compare::Differ, t, x)?;
    let id = joined(run, Join::Both, other, rest)?;
    Ok(id)
}
