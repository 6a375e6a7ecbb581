// The loads of bins.

ghost use Rattle.std.specs.Prelude.{◌≡◌, ◌+◌, ◌*◌, ◌∷◌, [], IfOk, length, zip};
ghost use Rattle.std.specs.List.{list_all};
ghost use Rattle.mz_core.specs.declared.types.Base.TheVariants as base;
ghost use Rattle.mz_arena.specs.Values.{is_true};
ghost use Rattle.mz_globals.specs.declared.global.Global.TheVariants as global;
ghost use Rattle.mz_globals.specs.Lists.{numbered};
ghost use Rattle.mz_symbol.specs.Makes.{GoesOnBy};
ghost use Rattle.glob_nodes.specs.declared.nodes.Compare.TheVariants as compare;
ghost use Rattle.glob_nodes.specs.Arguments.{IsWhole, array_value};
ghost use Rattle.glob_nodes.specs.Rows.{IsRow, row_cost};
ghost use Rattle.glob_nodes.specs.Says.{Says, Tells, compares, num};
ghost use Rattle.glob_nodes.specs.Numbers.{added};
ghost use Rattle.glob_nodes.specs.Places.{known};
ghost use Rattle.glob_nodes.specs.Several.{all_defined};
ghost use Rattle.glob_sched.specs.Senses.{all_in_bins, are_loads, has_load, load_room, weight_in};

use crate::bins::load;
use glob_nodes::{
    Compare, Join, Numbers, Test, all_pass, compared, is_index, joined, places_of, where_arrays,
    zipped,
};
use mz_arena::Id;
use mz_base::Memory;
use mz_symbol::Run;
use std::alloc::Global;

/// `bin_packing_load`: each thing is in a bin that has a load, and each load is what the things in
/// its bin weigh.
pub fn packing_load(
    alloc: Global,
    run: &mut Run,
    loads: &Numbers,
    bins: &Numbers,
    weights: &Numbers,
) -> Result<Id, Memory>
    requires loads { IsWhole run.old loads.now }
    requires bins { IsWhole run.old bins.now }
    requires weights { IsWhole run.old weights.now }
    ensures goes { GoesOnBy (56 * row_cost global.PackingLoad (length loads.now.items.items ∷ length bins.now.items.items ∷ length weights.now.items.items ∷ [])) run.old run.new }
    ensures row { IfOk result (IsRow base.Bool run.old run.new global.PackingLoad (λ r. array_value r loads.now ∷ array_value r bins.now ∷ array_value r weights.now ∷ [])) }
{
    let body = loads_are(alloc, run, loads, bins, weights)?;
    where_loads(run, loads, bins, weights, body)
}

fn loads_are(
    alloc: Global,
    run: &mut Run,
    loads: &Numbers,
    bins: &Numbers,
    weights: &Numbers,
) -> Result<Id, Memory>
    ensures goes { GoesOnBy (load_room (length (zip bins.now.items.items weights.now.items.items)) (length loads.now.items.items)) run.old run.new }
    ensures tells { IfOk result (Tells run.old run.new (λ r. are_loads r (loads.now.first, loads.now.last) loads.now.items.items (zip bins.now.items.items weights.now.items.items))) }
{
    let things = zipped(alloc, &bins.items, &weights.items)?;
    in_bins_with_loads(alloc, run, loads, &things)
}

#[tactic(auto, using(mz_symbol_rows::proofs::GoingOn::goes_both, mz_symbol_rows::proofs::GoingOn::goes_most))]
fn in_bins_with_loads(
    alloc: Global,
    run: &mut Run,
    loads: &Numbers,
    things: &[(Id, Id)],
) -> Result<Id, Memory>
    ensures goes { GoesOnBy (load_room (length things.now) (length loads.now.items.items)) run.old run.new }
    ensures tells { IfOk result (Tells run.old run.new (λ r. are_loads r (loads.now.first, loads.now.last) loads.now.items.items things.now)) }
{
    let there = all_in_bins(run, loads, things)?;
    let have = bins_have_loads(alloc, run, loads, things)?;
    let id = joined(run, Join::Both, there, have)?;
    Ok(id)
}

/// That each thing is in a bin that has a load.
fn all_in_bins(run: &mut Run, loads: &Numbers, things: &[(Id, Id)]) -> Result<Id, Memory>
    ensures goes { GoesOnBy (24 * length things.now) run.old run.new }
    ensures tells { IfOk result (Tells run.old run.new (λ r. all_in_bins r (loads.now.first, loads.now.last) things.now)) }
{
    let id = all_pass(run, &InBin { loads }, things)?;
    Ok(id)
}

/// Bins that have loads.
#[derive(Clone, Copy)]
struct InBin<'a> {
    loads: &'a Numbers,
}

impl<'a> Test<(Id, Id)> for InBin<'a> {
    ghost use Rattle.glob_nodes.specs.Says.{num};
    ghost use Rattle.glob_nodes.specs.Places.{lies_within};

    ghost holds = { λ c x r. lies_within (c.loads.now.first, c.loads.now.last) (num r x.0) };

    ghost room = { λ c. 18 };

    fn test(&self, run: &mut Run, x: &(Id, Id)) -> Result<Id, Memory> {
        let id = is_index(run, self.loads, x.0)?;
        Ok(id)
    }
}

/// That each load is what the things in its bin weigh.
fn bins_have_loads(
    alloc: Global,
    run: &mut Run,
    loads: &Numbers,
    things: &[(Id, Id)],
) -> Result<Id, Memory>
    ensures goes { GoesOnBy ((18 * length things.now + 6 + 6) * length loads.now.items.items) run.old run.new }
    ensures tells { IfOk result (Tells run.old run.new (λ r. list_all (λ p. has_load r things.now (known p)) (numbered loads.now.first loads.now.items.items))) }
{
    let places = places_of(alloc, run, loads)?;
    all_pass(run, &HasLoad { things }, &places)
}

/// Things that weigh so much in a bin.
#[derive(Clone, Copy)]
struct HasLoad<'a> {
    things: &'a [(Id, Id)],
}

impl<'a> Test<(Id, Id)> for HasLoad<'a> {
    ghost use Rattle.std.specs.Prelude.{◌+◌, ◌*◌, length};
    ghost use Rattle.glob_nodes.specs.Places.{indexed};
    ghost use Rattle.glob_sched.specs.Senses.{has_load};

    ghost holds = { λ c x r. has_load r c.things.now (indexed r x) };

    ghost room = { λ c. 18 * length c.things.now + 6 };

    fn test(&self, run: &mut Run, x: &(Id, Id)) -> Result<Id, Memory> {
        let id = has_load(run, self.things, x.0, x.1)?;
        Ok(id)
    }
}

#[tactic(auto, using(mz_symbol_rows::proofs::GoingOn::goes_both))]
fn has_load(run: &mut Run, things: &[(Id, Id)], bin: Id, total: Id) -> Result<Id, Memory>
    ensures goes { GoesOnBy (18 * length things.now + 6) run.old run.new }
    ensures says { IfOk result (Says run.old run.new (λ r. compares compare.Equal (added (λ q. weight_in r bin q) things.now) (num r total))) }
{
    let sum = load(run, things, bin)?;
    compared(run, Compare::Equal, sum, total)
}

/// A truth value where three arrays are defined, else false.
#[tactic(auto, using(mz_symbol_rows::proofs::GoingOn::goes_both, mz_symbol_rows::proofs::GoingOn::goes_most))]
fn where_loads(
    run: &mut Run,
    loads: &Numbers,
    bins: &Numbers,
    weights: &Numbers,
    body: Id,
) -> Result<Id, Memory>
    ensures goes { GoesOnBy 18 run.old run.new }
    ensures says { IfOk result (Says run.old run.new (λ r. all_defined r (loads.now ∷ bins.now ∷ weights.now ∷ []) (is_true (r.term body)))) }
{
    let inner = where_arrays(run, bins, weights, body)?;
    let id = joined(run, Join::Both, loads.defined, inner)?;
    Ok(id)
}
