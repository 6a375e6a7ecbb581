// How often an array has each of several values.

ghost use Rattle.std.specs.Prelude.{◌≡◌, ◌+◌, ◌*◌, ◌∷◌, ◌&&◌, [], IfOk, length, zip};
ghost use Rattle.std.specs.List.{list_all};
ghost use Rattle.mz_core.specs.declared.types.Base.TheVariants as base;
ghost use Rattle.mz_arena.specs.Values.{is_true};
ghost use Rattle.mz_globals.specs.declared.global.Global.TheVariants as global;
ghost use Rattle.mz_symbol.specs.Makes.{GoesOnBy};
ghost use Rattle.glob_nodes.specs.Arguments.{IsWhole, array_value};
ghost use Rattle.glob_nodes.specs.Rows.{IsRow, row_cost};
ghost use Rattle.glob_nodes.specs.Says.{Says, Tells};
ghost use Rattle.glob_count.specs.Senses.{is_count};

use crate::occurrences::occurs;
use glob_nodes::{Join, Numbers, Test, all_pass, joined, where_arrays, zipped};
use mz_arena::Id;
use mz_base::Memory;
use mz_globals::Relation;
use mz_symbol::Run;
use std::alloc::Global;

/// `global_cardinality`: each count is how often the array has the value of the cover at its place.
pub fn cardinality(
    alloc: Global,
    run: &mut Run,
    xs: &Numbers,
    cover: &Numbers,
    counts: &Numbers,
) -> Result<Id, Memory>
    requires xs { IsWhole run.old xs.now }
    requires cover { IsWhole run.old cover.now }
    requires counts { IsWhole run.old counts.now }
    ensures goes { GoesOnBy (56 * row_cost global.Cardinality (length xs.now.items.items ∷ length cover.now.items.items ∷ length counts.now.items.items ∷ [])) run.old run.new }
    ensures row { IfOk result (IsRow base.Bool run.old run.new global.Cardinality (λ r. array_value r xs.now ∷ array_value r cover.now ∷ array_value r counts.now ∷ [])) }
{
    let body = all_counted(alloc, run, xs, cover, counts)?;
    where_three(run, xs, cover, counts, body)
}

fn all_counted(
    alloc: Global,
    run: &mut Run,
    xs: &Numbers,
    cover: &Numbers,
    counts: &Numbers,
) -> Result<Id, Memory>
    ensures goes { GoesOnBy ((14 * length xs.now.items.items + 6 + 6) * length (zip cover.now.items.items counts.now.items.items)) run.old run.new }
    ensures tells { IfOk result (Tells run.old run.new (λ r. list_all (λ p. is_count r xs.now.items.items p) (zip cover.now.items.items counts.now.items.items))) }
{
    let pairs = zipped(alloc, &cover.items, &counts.items)?;
    each_counted(run, &xs.items, &pairs)
}

fn each_counted(run: &mut Run, ids: &[Id], pairs: &[(Id, Id)]) -> Result<Id, Memory>
    ensures goes { GoesOnBy ((14 * length ids.now + 6 + 6) * length pairs.now) run.old run.new }
    ensures tells { IfOk result (Tells run.old run.new (λ r. list_all (λ p. is_count r ids.now p) pairs.now)) }
{
    let id = all_pass(run, &CountIn { ids }, pairs)?;
    Ok(id)
}

/// Integers among which a value is so often.
#[derive(Clone, Copy)]
struct CountIn<'a> {
    ids: &'a [Id],
}

impl<'a> Test<(Id, Id)> for CountIn<'a> {
    ghost use Rattle.std.specs.Prelude.{◌+◌, ◌*◌, length};
    ghost use Rattle.glob_count.specs.Senses.{is_count};

    ghost holds = { λ c x r. is_count r c.ids.now x };

    ghost room = { λ c. 14 * length c.ids.now + 6 };

    fn test(&self, run: &mut Run, x: &(Id, Id)) -> Result<Id, Memory> {
        let id = occurs(run, Relation::Exactly, x.0, x.1, self.ids)?;
        Ok(id)
    }
}

/// A truth value where three arrays are defined, else false.
#[tactic(auto, using(mz_symbol_rows::proofs::GoingOn::goes_both, mz_symbol_rows::proofs::GoingOn::goes_most))]
fn where_three(
    run: &mut Run,
    xs: &Numbers,
    ys: &Numbers,
    zs: &Numbers,
    body: Id,
) -> Result<Id, Memory>
    ensures goes { GoesOnBy 18 run.old run.new }
    ensures says { IfOk result (Says run.old run.new (λ r. is_true (r.term xs.now.defined) && (is_true (r.term ys.now.defined) && (is_true (r.term zs.now.defined) && is_true (r.term body))))) }
{
    let inner = where_arrays(run, ys, zs, body)?;
    let id = joined(run, Join::Both, xs.defined, inner)?;
    Ok(id)
}
