// Things in bins.

ghost use Rattle.std.specs.Prelude.{◌≡◌, ◌+◌, ◌*◌, ◌∷◌, ◌&&◌, [], IfOk, is_some, length, zip};
ghost use Rattle.mz_core.specs.declared.types.Base.TheVariants as base;
ghost use Rattle.mz_arena.specs.Values.{is_true};
ghost use Rattle.mz_globals.specs.declared.global.Global.TheVariants as global;
ghost use Rattle.mz_symbol.specs.Makes.{GoesOnBy};
ghost use Rattle.glob_nodes.specs.declared.nodes.Compare.TheVariants as compare;
ghost use Rattle.glob_nodes.specs.Arguments.{IsWhole, array_value, number_value};
ghost use Rattle.glob_nodes.specs.Rows.{IsRow, row_cost};
ghost use Rattle.glob_nodes.specs.Says.{Says, Tells, compares, num};
ghost use Rattle.glob_nodes.specs.Numbers.{IsNumber, added};
ghost use Rattle.glob_sched.specs.Senses.{all_bins_fit, weight, weight_in};

use crate::resources::is_positive;
use glob_nodes::{
    Compare, Join, Numbers, Part, Test, all_pass, compared, joined, one_if, product, summed,
    where_arrays, where_defined, zipped,
};
use mz_arena::Id;
use mz_base::Memory;
use mz_symbol::Run;
use std::alloc::Global;

/// `bin_packing`: the things in each bin weigh at most `c`, which isn't negative. Only bins that
/// have a thing are looked at, so the terms don't grow with the number of bins.
pub fn packing(
    alloc: Global,
    run: &mut Run,
    c: Id,
    bins: &Numbers,
    weights: &Numbers,
) -> Result<Id, Memory>
    requires bins { IsWhole run.old bins.now }
    requires weights { IsWhole run.old weights.now }
    ensures goes { GoesOnBy (56 * row_cost global.Packing (1 ∷ length bins.now.items.items ∷ length weights.now.items.items ∷ [])) run.old run.new }
    ensures row { IfOk result (IsRow base.Bool run.old run.new global.Packing (λ r. number_value r c ∷ array_value r bins.now ∷ array_value r weights.now ∷ [])) }
{
    let body = all_fit(alloc, run, bins, weights, c)?;
    where_things(run, c, bins, weights, body)
}

fn all_fit(
    alloc: Global,
    run: &mut Run,
    bins: &Numbers,
    weights: &Numbers,
    most: Id,
) -> Result<Id, Memory>
    ensures goes { GoesOnBy ((18 * length (zip bins.now.items.items weights.now.items.items) + 6 + 6) * length (zip bins.now.items.items weights.now.items.items) + 12) run.old run.new }
    ensures tells { IfOk result (Tells run.old run.new (λ r. all_bins_fit r (zip bins.now.items.items weights.now.items.items) most)) }
{
    let things = zipped(alloc, &bins.items, &weights.items)?;
    bins_fit(run, &things, most)
}

#[tactic(auto, using(mz_symbol_rows::proofs::GoingOn::goes_both, mz_symbol_rows::proofs::GoingOn::goes_most))]
fn bins_fit(run: &mut Run, things: &[(Id, Id)], most: Id) -> Result<Id, Memory>
    ensures goes { GoesOnBy ((18 * length things.now + 6 + 6) * length things.now + 12) run.old run.new }
    ensures tells { IfOk result (Tells run.old run.new (λ r. all_bins_fit r things.now most)) }
{
    let in_bins = all_pass(run, &BinFits { things, most }, things)?;
    let enough = is_positive(run, most)?;
    let id = joined(run, Join::Both, enough, in_bins)?;
    Ok(id)
}

/// Things of which those in one bin weigh at most this.
#[derive(Clone, Copy)]
struct BinFits<'a> {
    things: &'a [(Id, Id)],
    most: Id,
}

impl<'a> Test<(Id, Id)> for BinFits<'a> {
    ghost use Rattle.std.specs.Prelude.{◌+◌, ◌*◌, length};
    ghost use Rattle.glob_sched.specs.Senses.{bin_fits};

    ghost holds = { λ c x r. bin_fits r c.things.now c.most x };

    ghost room = { λ c. 18 * length c.things.now + 6 };

    fn test(&self, run: &mut Run, x: &(Id, Id)) -> Result<Id, Memory> {
        let id = fits(run, self.things, self.most, x.0)?;
        Ok(id)
    }
}

/// What the things in a bin weigh is at most this.
#[tactic(auto, using(mz_symbol_rows::proofs::GoingOn::goes_both))]
fn fits(run: &mut Run, things: &[(Id, Id)], most: Id, bin: Id) -> Result<Id, Memory>
    ensures goes { GoesOnBy (18 * length things.now + 6) run.old run.new }
    ensures says { IfOk result (Says run.old run.new (λ r. compares compare.AtMost (added (λ q. weight_in r bin q) things.now) (num r most))) }
{
    let load = load(run, things, bin)?;
    compared(run, Compare::AtMost, load, most)
}

/// What the things in a bin weigh.
pub(crate) fn load(run: &mut Run, things: &[(Id, Id)], bin: Id) -> Result<Id, Memory>
    ensures goes { GoesOnBy (18 * length things.now) run.old run.new }
    ensures is { IfOk result (IsNumber run.old run.new (λ r. added (λ q. weight_in r bin q) things.now)) }
{
    let sum = summed(run, &WeightIn { bin }, things)?;
    Ok(sum)
}

/// What a thing adds to the load of a bin.
#[derive(Clone, Copy)]
struct WeightIn {
    bin: Id,
}

impl Part<(Id, Id)> for WeightIn {
    ghost use Rattle.glob_sched.specs.Senses.{weight_in};

    ghost amount = { λ c x r. weight_in r c.bin x };

    ghost room = { 14 };

    fn part(&self, run: &mut Run, x: &(Id, Id)) -> Result<Id, Memory> {
        let id = weight_in(run, self.bin, x.0, x.1)?;
        Ok(id)
    }
}

#[tactic(auto, using(mz_symbol_rows::proofs::GoingOn::goes_both, mz_symbol_rows::proofs::GoingOn::goes_most))]
fn weight_in(run: &mut Run, bin: Id, b: Id, w: Id) -> Result<Id, Memory>
    ensures goes { GoesOnBy 14 run.old run.new }
    ensures is { IfOk result (IsNumber run.old run.new (λ r. weight (num r bin) (num r b) (num r w))) }
{
    let there = compared(run, Compare::Equal, b, bin)?;
    let bit = one_if(run, there)?;
    let id = product(run, bit, w)?;
    Ok(id)
}

/// A truth value where an integer and two arrays are defined, else false.
#[tactic(auto, using(mz_symbol_rows::proofs::GoingOn::goes_both))]
fn where_things(
    run: &mut Run,
    c: Id,
    bins: &Numbers,
    weights: &Numbers,
    body: Id,
) -> Result<Id, Memory>
    ensures goes { GoesOnBy 24 run.old run.new }
    ensures says { IfOk result (Says run.old run.new (λ r. is_some (num r c) && (is_true (r.term bins.now.defined) && (is_true (r.term weights.now.defined) && is_true (r.term body))))) }
{
    let inner = where_arrays(run, bins, weights, body)?;
    let id = where_defined(run, c, inner)?;
    Ok(id)
}
