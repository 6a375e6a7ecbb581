// `int_set_channel`.

ghost use Rattle.std.specs.Prelude.{◌≡◌, ◌+◌, ◌*◌, ◌∷◌, ◌&&◌, [], IfOk, length};
ghost use Rattle.std.specs.List.{list_all};
ghost use Rattle.mz_core.specs.declared.types.Base.TheVariants as base;
ghost use Rattle.mz_globals.specs.declared.global.Global.TheVariants as global;
ghost use Rattle.mz_symbol.specs.Makes.{GoesOnBy};
ghost use Rattle.glob_nodes.specs.Arguments.{IsWhole, array_value};
ghost use Rattle.glob_nodes.specs.Rows.{IsRow, row_cost};
ghost use Rattle.glob_nodes.specs.Says.{Says, Tells};
ghost use Rattle.glob_nodes.specs.Places.{indexed};
ghost use Rattle.glob_sets.specs.Arrays.{AreSets, sets_value};
ghost use Rattle.glob_sets.specs.Senses.{all_belong, are_channel, belong, have_indices, name_indices};

use crate::indices::have_indices;
use glob_nodes::{
    Compare, Join, Numbers, Test, all_pass, are_indices, compared, joined, lies_in, places_of,
    where_arrays,
};
use mz_arena::Id;
use mz_base::Memory;
use mz_symbol::Run;
use std::alloc::Global;

/// `int_set_channel`: the integers are indices of the sets, the sets have indices of the integers
/// alone, and an integer is the index of just the sets that have its index. The lengths may differ.
/// Out of memory too where an index lies outside the limit.
pub fn channel(alloc: Global, run: &mut Run, xs: &Numbers, ys: &Numbers) -> Result<Id, Memory>
    requires xs { IsWhole run.old xs.now }
    requires ys { AreSets run.old ys.now }
    ensures goes { GoesOnBy (56 * row_cost global.Channel (length xs.now.items.items ∷ length ys.now.items.items ∷ [])) run.old run.new }
    ensures row { IfOk result (IsRow base.Bool run.old run.new global.Channel (λ r. array_value r xs.now ∷ sets_value r ys.now ∷ [])) }
{
    let body = are_channel(alloc, run, xs, ys)?;
    where_arrays(run, xs, ys, body)
}

#[tactic(auto, using(mz_symbol_rows::proofs::GoingOn::goes_both, mz_symbol_rows::proofs::GoingOn::goes_most))]
fn are_channel(alloc: Global, run: &mut Run, xs: &Numbers, ys: &Numbers) -> Result<Id, Memory>
    ensures goes { GoesOnBy (24 * length xs.now.items.items + 12 * length ys.now.items.items + 6 + (24 * length ys.now.items.items + 6) * length xs.now.items.items + 6) run.old run.new }
    ensures tells { IfOk result (Tells run.old run.new (λ r. are_channel r xs.now ys.now)) }
{
    let there = lie_in_ranges(alloc, run, xs, ys)?;
    let paired = all_belong(alloc, run, xs, ys)?;
    let id = joined(run, Join::Both, there, paired)?;
    Ok(id)
}

/// That each array speaks of indices of the other alone.
#[tactic(auto, using(mz_symbol_rows::proofs::GoingOn::goes_both, mz_symbol_rows::proofs::GoingOn::goes_most))]
fn lie_in_ranges(alloc: Global, run: &mut Run, xs: &Numbers, ys: &Numbers) -> Result<Id, Memory>
    ensures goes { GoesOnBy (24 * length xs.now.items.items + 12 * length ys.now.items.items + 6) run.old run.new }
    ensures tells { IfOk result (Tells run.old run.new (λ r. name_indices r xs.now ys.now && have_indices r xs.now ys.now)) }
{
    let named = name_indices(run, xs, ys)?;
    let had = have_indices(alloc, run, xs, ys)?;
    let id = joined(run, Join::Both, named, had)?;
    Ok(id)
}

fn name_indices(run: &mut Run, xs: &Numbers, ys: &Numbers) -> Result<Id, Memory>
    ensures goes { GoesOnBy (24 * length xs.now.items.items) run.old run.new }
    ensures tells { IfOk result (Tells run.old run.new (λ r. name_indices r xs.now ys.now)) }
{
    are_indices(run, ys, &xs.items)
}

/// That each integer is the index of just the sets that have its index.
fn all_belong(alloc: Global, run: &mut Run, xs: &Numbers, ys: &Numbers) -> Result<Id, Memory>
    ensures goes { GoesOnBy ((24 * length ys.now.items.items + 6) * length xs.now.items.items) run.old run.new }
    ensures tells { IfOk result (Tells run.old run.new (λ r. all_belong r xs.now ys.now)) }
{
    let ps = places_of(alloc, run, xs)?;
    let qs = places_of(alloc, run, ys)?;
    places_belong(run, &ps, &qs)
}

fn places_belong(run: &mut Run, ps: &[(Id, Id)], qs: &[(Id, Id)]) -> Result<Id, Memory>
    ensures goes { GoesOnBy ((24 * length qs.now + 6) * length ps.now) run.old run.new }
    ensures tells { IfOk result (Tells run.old run.new (λ r. list_all (λ p. list_all (λ q. belong r (indexed r p) (indexed r q)) qs.now) ps.now)) }
{
    let id = all_pass(run, &BelongsToEach { sets: qs }, ps)?;
    Ok(id)
}

/// Integers of which each belongs to each of these sets, or is apart from it.
#[derive(Clone, Copy)]
struct BelongsToEach<'a> {
    sets: &'a [(Id, Id)],
}

impl<'a> Test<(Id, Id)> for BelongsToEach<'a> {
    ghost use Rattle.std.specs.Prelude.{◌*◌, length};
    ghost use Rattle.std.specs.List.{list_all};
    ghost use Rattle.glob_nodes.specs.Places.{indexed};
    ghost use Rattle.glob_sets.specs.Senses.{belong};

    ghost holds = { λ c x r. list_all (λ q. belong r (indexed r x) (indexed r q)) c.sets.now };

    ghost room = { λ c. 24 * length c.sets.now };

    fn test(&self, run: &mut Run, x: &(Id, Id)) -> Result<Id, Memory> {
        let id = belongs_to_each(run, x, self.sets)?;
        Ok(id)
    }
}

fn belongs_to_each(run: &mut Run, p: &(Id, Id), sets: &[(Id, Id)]) -> Result<Id, Memory>
    ensures goes { GoesOnBy (24 * length sets.now) run.old run.new }
    ensures tells { IfOk result (Tells run.old run.new (λ r. list_all (λ q. belong r (indexed r p.now) (indexed r q)) sets.now)) }
{
    let id = all_pass(run, &BelongsTo { p }, sets)?;
    Ok(id)
}

/// Sets to which an integer belongs, or from which it is apart.
#[derive(Clone, Copy)]
struct BelongsTo<'a> {
    p: &'a (Id, Id),
}

impl<'a> Test<(Id, Id)> for BelongsTo<'a> {
    ghost use Rattle.glob_nodes.specs.Places.{indexed};
    ghost use Rattle.glob_sets.specs.Senses.{belong};

    ghost holds = { λ c x r. belong r (indexed r c.p.now) (indexed r x) };

    ghost room = { λ c. 18 };

    fn test(&self, run: &mut Run, x: &(Id, Id)) -> Result<Id, Memory> {
        let id = belong(run, self.p, x)?;
        Ok(id)
    }
}

/// Whether an integer is the index of a set exactly where the set has the integer's index.
#[tactic(auto, using(mz_symbol_rows::proofs::GoingOn::goes_both, mz_symbol_rows::proofs::GoingOn::goes_most))]
fn belong(run: &mut Run, p: &(Id, Id), q: &(Id, Id)) -> Result<Id, Memory>
    ensures goes { GoesOnBy 18 run.old run.new }
    ensures says { IfOk result (Says run.old run.new (λ r. belong r (indexed r p.now) (indexed r q.now))) }
{
    let named = compared(run, Compare::Equal, p.1, q.0)?;
    let had = lies_in(run, p.0, q.1)?;
    let id = joined(run, Join::Alike, named, had)?;
    Ok(id)
}
