// Sums of consecutive elements.

ghost use Rattle.std.specs.Prelude.{◌≡◌, ◌-◌, ◌+◌, ◌*◌, ◌∷◌, ◌&&◌, [], IfOk, length, suc};
ghost use Rattle.std.specs.List.{list_all};
ghost use Rattle.mz_core.specs.declared.types.Base.TheVariants as base;
ghost use Rattle.mz_arena.specs.Values.{is_true};
ghost use Rattle.mz_globals.specs.declared.global.Global.TheVariants as global;
ghost use Rattle.mz_globals.specs.Lists.{windows};
ghost use Rattle.mz_symbol.specs.Makes.{GoesOnBy};
ghost use Rattle.glob_nodes.specs.declared.nodes.Compare.TheVariants as compare;
ghost use Rattle.glob_nodes.specs.Arguments.{IsWhole, array_value, number_value};
ghost use Rattle.glob_nodes.specs.Rows.{IsRow, row_cost};
ghost use Rattle.glob_nodes.specs.Says.{Says, Tells, compares, num};
ghost use Rattle.glob_nodes.specs.Numbers.{IsNumber};
ghost use Rattle.glob_count.specs.Windows.{count_value, sum_fits, sum_in};

use glob_nodes::{
    Compare, Join, Numbers, compared, constant, joined, plus, truth, where_numbers_array,
};
use mz_arena::Id;
use mz_base::Memory;
use mz_symbol::Run;

/// `sliding_sum`: each sum of `seq` consecutive elements lies between two integers. Each is added
/// from the left, as the sum of an array is, so that it leaves the limit where that does.
pub fn sliding_sum(run: &mut Run, low: Id, up: Id, seq: usize, xs: &Numbers) -> Result<Id, Memory>
    requires { IsWhole run.old xs.now }
    ensures goes { GoesOnBy (56 * row_cost global.SlidingSum (1 ∷ 1 ∷ 1 ∷ length xs.now.items.items ∷ [])) run.old run.new }
    ensures row { IfOk result (IsRow base.Bool run.old run.new global.SlidingSum (λ r. number_value r low ∷ number_value r up ∷ count_value seq ∷ array_value r xs.now ∷ [])) }
{
    let body = slides(run, low, up, seq, &xs.items)?;
    where_numbers_array(run, low, up, xs, body)
}

fn slides(run: &mut Run, low: Id, up: Id, seq: usize, ids: &[Id]) -> Result<Id, Memory>
    ensures goes { GoesOnBy ((4 * seq + 24) * (suc (length ids.now) - seq)) run.old run.new }
    ensures tells { IfOk result (Tells run.old run.new (λ r. list_all (λ w. sum_fits r low up w) (windows seq ids.now))) }
{
    let mut acc = truth(run, true)?;
    let mut i = windows_in(ids, seq);
    while i > 0 {
        i -= 1;
        acc = one_window(run, low, up, &ids[i..i + seq], acc)?;
    }
    Ok(acc)
}

/// How many lists of so many consecutive elements there are.
fn windows_in(ids: &[Id], seq: usize) -> usize
    ensures { result ≡ suc (length ids.now) - seq }
{
    if seq > ids.len() {
        0
    } else {
        ids.len() - seq + 1
    }
}

/// What is told of one sum, with what is told already.
#[tactic(auto, using(mz_symbol_rows::proofs::GoingOn::goes_both))]
fn one_window(run: &mut Run, low: Id, up: Id, w: &[Id], told: Id) -> Result<Id, Memory>
    ensures goes { GoesOnBy (4 * length w.now + 18 + 6) run.old run.new }
    ensures says { IfOk result (Says run.old run.new (λ r. sum_fits r low up w.now && is_true (r.term told))) }
{
    let fits = window_fits(run, low, up, w)?;
    joined(run, Join::Both, fits, told)
}

#[tactic(auto, using(mz_symbol_rows::proofs::GoingOn::goes_both))]
fn window_fits(run: &mut Run, low: Id, up: Id, w: &[Id]) -> Result<Id, Memory>
    ensures goes { GoesOnBy (4 * length w.now + 18) run.old run.new }
    ensures says { IfOk result (Says run.old run.new (λ r. sum_fits r low up w.now)) }
{
    let sum = sum_of(run, w)?;
    is_between(run, low, sum, up)
}

#[tactic(auto, using(mz_symbol_rows::proofs::GoingOn::goes_both, mz_symbol_rows::proofs::GoingOn::goes_most))]
fn is_between(run: &mut Run, low: Id, x: Id, up: Id) -> Result<Id, Memory>
    ensures goes { GoesOnBy 18 run.old run.new }
    ensures says { IfOk result (Says run.old run.new (λ r. compares compare.AtMost (num r low) (num r x) && compares compare.AtMost (num r x) (num r up))) }
{
    let first = compared(run, Compare::AtMost, low, x)?;
    let last = compared(run, Compare::AtMost, x, up)?;
    let id = joined(run, Join::Both, first, last)?;
    Ok(id)
}

/// The sum of these integers, added from the left.
fn sum_of(run: &mut Run, ids: &[Id]) -> Result<Id, Memory>
    ensures goes { GoesOnBy (4 * length ids.now) run.old run.new }
    ensures is { IfOk result (IsNumber run.old run.new (λ r. sum_in r ids.now)) }
{
    let mut acc = constant(run, 0)?;
    let mut k = 0;
    while k < ids.len() {
        acc = plus(run, acc, ids[k])?;
        k += 1;
    }
    Ok(acc)
}
