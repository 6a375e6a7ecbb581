// `element`.

ghost use Rattle.std.specs.Prelude.{◌≡◌, ◌*◌, ◌∷◌, [], IfOk, length};
ghost use Rattle.std.specs.List.{list_any};
ghost use Rattle.mz_core.specs.declared.types.Base.TheVariants as base;
ghost use Rattle.mz_globals.specs.declared.global.Global.TheVariants as global;
ghost use Rattle.mz_globals.specs.Lists.{numbered};
ghost use Rattle.mz_symbol.specs.Makes.{GoesOnBy};
ghost use Rattle.glob_nodes.specs.Arguments.{IsWhole, array_value, number_value};
ghost use Rattle.glob_nodes.specs.Rows.{IsRow, row_cost};
ghost use Rattle.glob_nodes.specs.Says.{Says, Tells};
ghost use Rattle.glob_nodes.specs.Places.{indexed, known};
ghost use Rattle.glob_graph.specs.Senses.{is_place};

use glob_nodes::{
    Compare, Join, Numbers, Test, compared, joined, places_of, some_pass, where_numbers_array,
};
use mz_arena::Id;
use mz_base::Memory;
use mz_symbol::Run;
use std::alloc::Global;

/// `element`: an integer is the index of an element that is another.
pub fn element(alloc: Global, run: &mut Run, i: Id, xs: &Numbers, y: Id) -> Result<Id, Memory>
    requires { IsWhole run.old xs.now }
    ensures goes { GoesOnBy (56 * row_cost global.Element (1 ∷ length xs.now.items.items ∷ 1 ∷ [])) run.old run.new }
    ensures row { IfOk result (IsRow base.Bool run.old run.new global.Element (λ r. number_value r i ∷ array_value r xs.now ∷ number_value r y ∷ [])) }
{
    let body = some_place(alloc, run, i, xs, y)?;
    where_numbers_array(run, i, y, xs, body)
}

fn some_place(alloc: Global, run: &mut Run, i: Id, xs: &Numbers, y: Id) -> Result<Id, Memory>
    ensures goes { GoesOnBy (24 * length xs.now.items.items) run.old run.new }
    ensures tells { IfOk result (Tells run.old run.new (λ r. list_any (λ p. is_place r i y (known p)) (numbered xs.now.first xs.now.items.items))) }
{
    let places = places_of(alloc, run, xs)?;
    some_pass(run, &IsPlace { i, y }, &places)
}

/// An index, and what the element there is.
#[derive(Clone, Copy)]
struct IsPlace {
    i: Id,
    y: Id,
}

impl Test<(Id, Id)> for IsPlace {
    ghost use Rattle.glob_nodes.specs.Places.{indexed};
    ghost use Rattle.glob_graph.specs.Senses.{is_place};

    ghost holds = { λ c x r. is_place r c.i c.y (indexed r x) };

    ghost room = { λ c. 18 };

    fn test(&self, run: &mut Run, x: &(Id, Id)) -> Result<Id, Memory> {
        let id = is_place(run, self.i, self.y, x)?;
        Ok(id)
    }
}

#[tactic(auto, using(mz_symbol_rows::proofs::GoingOn::goes_both, mz_symbol_rows::proofs::GoingOn::goes_most))]
fn is_place(run: &mut Run, i: Id, y: Id, p: &(Id, Id)) -> Result<Id, Memory>
    ensures goes { GoesOnBy 18 run.old run.new }
    ensures says { IfOk result (Says run.old run.new (λ r. is_place r i y (indexed r p.now))) }
{
    let there = compared(run, Compare::Equal, i, p.0)?;
    let equal = compared(run, Compare::Equal, p.1, y)?;
    let id = joined(run, Join::Both, there, equal)?;
    Ok(id)
}
