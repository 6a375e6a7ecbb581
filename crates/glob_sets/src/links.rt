// `link_set_to_booleans`.

ghost use Rattle.std.specs.Prelude.{◌≡◌, ◌+◌, ◌*◌, ◌∷◌, ◌&&◌, [], IfOk, is_some, length};
ghost use Rattle.std.specs.List.{list_all};
ghost use Rattle.mz_core.specs.declared.types.Base.TheVariants as base;
ghost use Rattle.mz_globals.specs.declared.global.Global.TheVariants as global;
ghost use Rattle.mz_arena.specs.Values.{as_set, is_true};
ghost use Rattle.mz_symbol.specs.Makes.{GoesOnBy};
ghost use Rattle.glob_nodes.specs.Rows.{IsRow, row_cost};
ghost use Rattle.glob_nodes.specs.Says.{Says, Tells};
ghost use Rattle.glob_nodes.specs.Places.{indexed};
ghost use Rattle.glob_nodes.specs.Sets.{set_value};
ghost use Rattle.glob_sets.specs.Arrays.{AreTruths, truths_value};
ghost use Rattle.glob_sets.specs.Senses.{all_linked, are_linked, is_linked};

use crate::indices::lies_among;
use glob_nodes::{Join, Numbers, Test, all_pass, joined, lies_in, places_of, where_set};
use mz_arena::Id;
use mz_base::Memory;
use mz_symbol::Run;
use std::alloc::Global;

/// `link_set_to_booleans`: the set has the indices of just the Booleans that are true. The array's
/// elements are nodes of Booleans. Out of memory too where an index lies outside the limit.
pub fn link(alloc: Global, run: &mut Run, s: Id, bs: &Numbers) -> Result<Id, Memory>
    requires { AreTruths run.old bs.now }
    ensures goes { GoesOnBy (56 * row_cost global.Link (0 ∷ length bs.now.items.items ∷ [])) run.old run.new }
    ensures row { IfOk result (IsRow base.Bool run.old run.new global.Link (λ r. set_value r s ∷ truths_value r bs.now ∷ [])) }
{
    let body = are_linked(alloc, run, s, bs)?;
    where_both(run, s, bs, body)
}

/// A truth value where a set and an array are defined, else false.
#[tactic(auto, using(mz_symbol_rows::proofs::GoingOn::goes_both))]
fn where_both(run: &mut Run, s: Id, bs: &Numbers, body: Id) -> Result<Id, Memory>
    ensures goes { GoesOnBy 18 run.old run.new }
    ensures says { IfOk result (Says run.old run.new (λ r. is_some (as_set (r.term s)) && (is_true (r.term bs.now.defined) && is_true (r.term body)))) }
{
    let inner = joined(run, Join::Both, bs.defined, body)?;
    where_set(run, s, inner)
}

#[tactic(auto, using(mz_symbol_rows::proofs::GoingOn::goes_both, mz_symbol_rows::proofs::GoingOn::goes_most))]
fn are_linked(alloc: Global, run: &mut Run, s: Id, bs: &Numbers) -> Result<Id, Memory>
    ensures goes { GoesOnBy (6 + 18 * length bs.now.items.items + 6) run.old run.new }
    ensures tells { IfOk result (Tells run.old run.new (λ r. are_linked r s bs.now)) }
{
    let there = lies_among(alloc, run, bs, s)?;
    let linked = all_linked(alloc, run, s, bs)?;
    let id = joined(run, Join::Both, there, linked)?;
    Ok(id)
}

/// That each Boolean is true exactly where the set has its index.
fn all_linked(alloc: Global, run: &mut Run, s: Id, bs: &Numbers) -> Result<Id, Memory>
    ensures goes { GoesOnBy (18 * length bs.now.items.items) run.old run.new }
    ensures tells { IfOk result (Tells run.old run.new (λ r. all_linked r s bs.now)) }
{
    let ps = places_of(alloc, run, bs)?;
    places_linked(run, s, &ps)
}

fn places_linked(run: &mut Run, s: Id, ps: &[(Id, Id)]) -> Result<Id, Memory>
    ensures goes { GoesOnBy (18 * length ps.now) run.old run.new }
    ensures tells { IfOk result (Tells run.old run.new (λ r. list_all (λ p. is_linked r s (indexed r p)) ps.now)) }
{
    let id = all_pass(run, &IsLinked { s }, ps)?;
    Ok(id)
}

/// Booleans that a set has or lacks as they are true or false.
#[derive(Clone, Copy)]
struct IsLinked {
    s: Id,
}

impl Test<(Id, Id)> for IsLinked {
    ghost use Rattle.glob_nodes.specs.Places.{indexed};
    ghost use Rattle.glob_sets.specs.Senses.{is_linked};

    ghost holds = { λ c x r. is_linked r c.s (indexed r x) };

    ghost room = { λ c. 12 };

    fn test(&self, run: &mut Run, x: &(Id, Id)) -> Result<Id, Memory> {
        let id = is_linked(run, self.s, x)?;
        Ok(id)
    }
}

#[tactic(auto, using(mz_symbol_rows::proofs::GoingOn::goes_both))]
fn is_linked(run: &mut Run, s: Id, p: &(Id, Id)) -> Result<Id, Memory>
    ensures goes { GoesOnBy 12 run.old run.new }
    ensures says { IfOk result (Says run.old run.new (λ r. is_linked r s (indexed r p.now))) }
{
    let had = lies_in(run, p.0, s)?;
    let id = joined(run, Join::Alike, had, p.1)?;
    Ok(id)
}
