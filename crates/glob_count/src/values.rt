// How many values an array has.

ghost use Rattle.std.specs.Prelude.{◌≡◌, ◌+◌, ◌*◌, ◌∷◌, [], IfOk, Some, length, map, pos};
ghost use Rattle.std.specs.List.{list_all};
ghost use Rattle.mz_core.specs.declared.types.Base.TheVariants as base;
ghost use Rattle.mz_arena.specs.Values as terms;
ghost use Rattle.mz_globals.specs.declared.global.Global.TheVariants as global;
ghost use Rattle.mz_symbol.specs.Makes.{GoesOnBy};
ghost use Rattle.glob_nodes.specs.declared.nodes.Compare.TheVariants as compare;
ghost use Rattle.glob_nodes.specs.Arguments.{IsWhole, array_value, number_value};
ghost use Rattle.glob_nodes.specs.Rows.{IsRow, row_cost};
ghost use Rattle.glob_nodes.specs.Says.{Gives, Says, Tells, compares, num, pair_count};
ghost use Rattle.glob_count.specs.Senses.{distinct_among, with_last};

use glob_nodes::{
    Compare, Compared, Join, Numbers, add, compared, number, to_each, to_number, truth,
    where_number_array,
};
use mz_arena::Id;
use mz_base::Memory;
use mz_symbol::Run;

/// `nvalue`: the elements have so many values.
pub fn different_values(run: &mut Run, n: Id, xs: &Numbers) -> Result<Id, Memory>
    requires { IsWhole run.old xs.now }
    ensures goes { GoesOnBy (56 * row_cost global.DifferentValues (1 ∷ length xs.now.items.items ∷ [])) run.old run.new }
    ensures row { IfOk result (IsRow base.Bool run.old run.new global.DifferentValues (λ r. number_value r n ∷ array_value r xs.now ∷ [])) }
{
    let body = distinct_are(run, n, &xs.items)?;
    where_number_array(run, n, xs, body)
}

#[tactic(auto, using(mz_symbol_rows::proofs::GoingOn::goes_both))]
fn distinct_are(run: &mut Run, n: Id, ids: &[Id]) -> Result<Id, Memory>
    ensures goes { GoesOnBy (20 * (length ids.now + pair_count ids.now) + 6) run.old run.new }
    ensures says { IfOk result (Says run.old run.new (λ r. compares compare.Equal (Some (pos (distinct_among (map (num r) ids.now)))) (num r n))) }
{
    let count = distinct(run, ids)?;
    compared(run, Compare::Equal, count, n)
}

/// Each element is counted where it isn't met again.
fn distinct(run: &mut Run, ids: &[Id]) -> Result<Id, Memory>
    ensures goes { GoesOnBy (20 * (length ids.now + pair_count ids.now)) run.old run.new }
    ensures gives { IfOk result (Gives run.old run.new (λ r. Some (terms.number (pos (distinct_among (map (num r) ids.now)))))) }
{
    let mut acc = number(run, 0)?;
    let mut k = ids.len();
    while k > 0 {
        let later = &ids[k..];
        k -= 1;
        acc = one_more(run, ids[k], later, acc)?;
    }
    Ok(acc)
}

#[tactic(auto, using(mz_symbol_rows::proofs::GoingOn::goes_both, mz_symbol_rows::proofs::GoingOn::goes_most))]
fn one_more(run: &mut Run, x: Id, later: &[Id], count: Id) -> Result<Id, Memory>
    ensures goes { GoesOnBy (12 * length later.now + 8) run.old run.new }
    ensures gives { IfOk result (Gives run.old run.new (λ r. with_last r x later.now (r.term count))) }
{
    let new = is_last(run, x, later)?;
    let bit = to_number(run, new)?;
    let all = add(run, bit, count)?;
    Ok(all)
}

/// That an integer is none of those after it.
fn is_last(run: &mut Run, x: Id, later: &[Id]) -> Result<Id, Memory>
    ensures goes { GoesOnBy (12 * length later.now) run.old run.new }
    ensures tells { IfOk result (Tells run.old run.new (λ r. list_all (λ y. compares compare.Differ (num r x) (num r y)) later.now)) }
{
    let start = truth(run, true)?;
    let differ = Compared {
        op: Compare::Differ,
    };
    to_each(run, &differ, Join::Both, &x, later, start)
}
