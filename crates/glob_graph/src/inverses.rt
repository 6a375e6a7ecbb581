// `inverse`.

ghost use Rattle.std.specs.Prelude.{◌≡◌, ◌+◌, ◌*◌, ◌∷◌, [], IfOk, length};
ghost use Rattle.std.specs.List.{list_all};
ghost use Rattle.mz_core.specs.declared.types.Base.TheVariants as base;
ghost use Rattle.mz_globals.specs.declared.global.Global.TheVariants as global;
ghost use Rattle.mz_symbol.specs.Makes.{GoesOnBy};
ghost use Rattle.glob_nodes.specs.Arguments.{IsWhole, array_value};
ghost use Rattle.glob_nodes.specs.Rows.{IsRow, row_cost};
ghost use Rattle.glob_nodes.specs.Says.{Says, Tells};
ghost use Rattle.glob_nodes.specs.Places.{indexed};
ghost use Rattle.glob_graph.specs.Senses.{are_in_ranges, are_inverse, are_two_way, holds_indices, lead_back};

use glob_nodes::{
    Compare, Join, Numbers, Test, all_pass, are_indices, compared, joined, places_of, where_arrays,
};
use mz_arena::Id;
use mz_base::Memory;
use mz_symbol::Run;
use std::alloc::Global;

/// `inverse`: each array holds indices of the other, and leads to an index exactly where the other
/// leads back. Their lengths may differ.
pub fn inverse(alloc: Global, run: &mut Run, f: &Numbers, g: &Numbers) -> Result<Id, Memory>
    requires f { IsWhole run.old f.now }
    requires g { IsWhole run.old g.now }
    ensures goes { GoesOnBy (56 * row_cost global.Inverse (length f.now.items.items ∷ length g.now.items.items ∷ [])) run.old run.new }
    ensures row { IfOk result (IsRow base.Bool run.old run.new global.Inverse (λ r. array_value r f.now ∷ array_value r g.now ∷ [])) }
{
    let body = are_inverse(alloc, run, f, g)?;
    where_arrays(run, f, g, body)
}

#[tactic(auto, using(mz_symbol_rows::proofs::GoingOn::goes_both, mz_symbol_rows::proofs::GoingOn::goes_most))]
fn are_inverse(alloc: Global, run: &mut Run, f: &Numbers, g: &Numbers) -> Result<Id, Memory>
    ensures goes { GoesOnBy (24 * length f.now.items.items + 24 * length g.now.items.items + 6 + (24 * length g.now.items.items + 6) * length f.now.items.items + 6) run.old run.new }
    ensures tells { IfOk result (Tells run.old run.new (λ r. are_inverse r f.now g.now)) }
{
    let there = in_ranges(run, f, g)?;
    let back = lead_back(alloc, run, f, g)?;
    let id = joined(run, Join::Both, there, back)?;
    Ok(id)
}

/// That each array holds indices of the other alone.
#[tactic(auto, using(mz_symbol_rows::proofs::GoingOn::goes_both, mz_symbol_rows::proofs::GoingOn::goes_most))]
fn in_ranges(run: &mut Run, f: &Numbers, g: &Numbers) -> Result<Id, Memory>
    ensures goes { GoesOnBy (24 * length f.now.items.items + 24 * length g.now.items.items + 6) run.old run.new }
    ensures tells { IfOk result (Tells run.old run.new (λ r. are_in_ranges r f.now g.now)) }
{
    let out = holds_indices(run, f, g)?;
    let home = holds_indices(run, g, f)?;
    let id = joined(run, Join::Both, out, home)?;
    Ok(id)
}

/// That an array holds indices of another alone.
fn holds_indices(run: &mut Run, f: &Numbers, g: &Numbers) -> Result<Id, Memory>
    ensures goes { GoesOnBy (24 * length f.now.items.items) run.old run.new }
    ensures tells { IfOk result (Tells run.old run.new (λ r. holds_indices r f.now g.now)) }
{
    are_indices(run, g, &f.items)
}

/// That each array leads to an index exactly where the other leads back.
fn lead_back(alloc: Global, run: &mut Run, f: &Numbers, g: &Numbers) -> Result<Id, Memory>
    ensures goes { GoesOnBy ((24 * length g.now.items.items + 6) * length f.now.items.items) run.old run.new }
    ensures tells { IfOk result (Tells run.old run.new (λ r. lead_back r f.now g.now)) }
{
    let fs = places_of(alloc, run, f)?;
    let gs = places_of(alloc, run, g)?;
    all_lead_back(run, &fs, &gs)
}

fn all_lead_back(run: &mut Run, fs: &[(Id, Id)], gs: &[(Id, Id)]) -> Result<Id, Memory>
    ensures goes { GoesOnBy ((24 * length gs.now + 6) * length fs.now) run.old run.new }
    ensures tells { IfOk result (Tells run.old run.new (λ r. list_all (λ p. list_all (λ q. are_two_way r (indexed r p) (indexed r q)) gs.now) fs.now)) }
{
    let id = all_pass(run, &LeadsBack { others: gs }, fs)?;
    Ok(id)
}

/// Places of the other array.
#[derive(Clone, Copy)]
struct LeadsBack<'a> {
    others: &'a [(Id, Id)],
}

impl<'a> Test<(Id, Id)> for LeadsBack<'a> {
    ghost use Rattle.std.specs.Prelude.{◌*◌, length};
    ghost use Rattle.std.specs.List.{list_all};
    ghost use Rattle.glob_nodes.specs.Places.{indexed};
    ghost use Rattle.glob_graph.specs.Senses.{are_two_way};

    ghost holds = { λ c x r. list_all (λ q. are_two_way r (indexed r x) (indexed r q)) c.others.now };

    ghost room = { λ c. 24 * length c.others.now };

    fn test(&self, run: &mut Run, x: &(Id, Id)) -> Result<Id, Memory> {
        let id = leads_back(run, x, self.others)?;
        Ok(id)
    }
}

fn leads_back(run: &mut Run, p: &(Id, Id), others: &[(Id, Id)]) -> Result<Id, Memory>
    ensures goes { GoesOnBy (24 * length others.now) run.old run.new }
    ensures tells { IfOk result (Tells run.old run.new (λ r. list_all (λ q. are_two_way r (indexed r p.now) (indexed r q)) others.now)) }
{
    let id = all_pass(run, &TwoWay { p }, others)?;
    Ok(id)
}

/// A place that leads to another exactly where the other leads back.
#[derive(Clone, Copy)]
struct TwoWay<'a> {
    p: &'a (Id, Id),
}

impl<'a> Test<(Id, Id)> for TwoWay<'a> {
    ghost use Rattle.glob_nodes.specs.Places.{indexed};
    ghost use Rattle.glob_graph.specs.Senses.{are_two_way};

    ghost holds = { λ c x r. are_two_way r (indexed r c.p.now) (indexed r x) };

    ghost room = { λ c. 18 };

    fn test(&self, run: &mut Run, x: &(Id, Id)) -> Result<Id, Memory> {
        let id = two_way(run, self.p, x)?;
        Ok(id)
    }
}

#[tactic(auto, using(mz_symbol_rows::proofs::GoingOn::goes_both, mz_symbol_rows::proofs::GoingOn::goes_most))]
fn two_way(run: &mut Run, p: &(Id, Id), q: &(Id, Id)) -> Result<Id, Memory>
    ensures goes { GoesOnBy 18 run.old run.new }
    ensures says { IfOk result (Says run.old run.new (λ r. are_two_way r (indexed r p.now) (indexed r q.now))) }
{
    let out = compared(run, Compare::Equal, p.1, q.0)?;
    let home = compared(run, Compare::Equal, q.1, p.0)?;
    let id = joined(run, Join::Alike, out, home)?;
    Ok(id)
}
