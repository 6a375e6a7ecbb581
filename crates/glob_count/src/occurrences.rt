// How often an array has a value.

ghost use Rattle.std.specs.Prelude.{◌≡◌, ◌+◌, ◌*◌, ◌∷◌, ◌&&◌, [], IfOk, Some, count_by, is_some, length, pos, true};
ghost use Rattle.mz_core.specs.declared.types.Base.TheVariants as base;
ghost use Rattle.mz_arena.specs.Values.{bit, guard_term, is_true};
ghost use Rattle.mz_arena.specs.Values as terms;
ghost use Rattle.mz_globals.specs.declared.global.Global.TheVariants as global;
ghost use Rattle.mz_symbol.specs.Makes.{GoesOnBy};
ghost use Rattle.glob_nodes.specs.declared.nodes.Compare.TheVariants as compare;
ghost use Rattle.glob_nodes.specs.Arguments.{IsWhole, array_value, number_value};
ghost use Rattle.glob_nodes.specs.Rows.{IsRow, row_cost};
ghost use Rattle.glob_nodes.specs.Says.{Gives, Says, compares, num};
ghost use Rattle.glob_count.specs.Senses.{counts_so};

use glob_nodes::{
    Compare, Compared, Numbers, compared, counted, made, truth, where_number_array,
    where_numbers_array,
};
use mz_arena::{Id, NodeKind};
use mz_base::Memory;
use mz_globals::Relation;
use mz_symbol::Run;

/// `count` of three arguments: `y` is so many of the elements.
pub fn count(run: &mut Run, xs: &Numbers, y: Id, c: Id) -> Result<Id, Memory>
    requires { IsWhole run.old xs.now }
    ensures goes { GoesOnBy (56 * row_cost global.Count (length xs.now.items.items ∷ 1 ∷ 1 ∷ [])) run.old run.new }
    ensures row { IfOk result (IsRow base.Bool run.old run.new global.Count (λ r. array_value r xs.now ∷ number_value r y ∷ number_value r c ∷ [])) }
{
    let body = occurs(run, Relation::Exactly, y, c, &xs.items)?;
    where_numbers_array(run, y, c, xs, body)
}

/// `at_least`, `at_most` and `exactly`: `v` is so many of the elements.
pub fn times(run: &mut Run, relation: Relation, n: Id, xs: &Numbers, v: Id) -> Result<Id, Memory>
    requires { IsWhole run.old xs.now }
    ensures goes { GoesOnBy (56 * row_cost (global.Times relation) (1 ∷ length xs.now.items.items ∷ 1 ∷ [])) run.old run.new }
    ensures row { IfOk result (IsRow base.Bool run.old run.new (global.Times relation) (λ r. number_value r n ∷ array_value r xs.now ∷ number_value r v ∷ [])) }
{
    let body = occurs(run, relation, v, n, &xs.items)?;
    where_numbers_array(run, n, v, xs, body)
}

/// The function `count`: how many of the elements are `y`; undefined where an argument is.
pub fn count_of(run: &mut Run, xs: &Numbers, y: Id) -> Result<Id, Memory>
    requires { IsWhole run.old xs.now }
    ensures goes { GoesOnBy (56 * row_cost global.CountOf (length xs.now.items.items ∷ 1 ∷ [])) run.old run.new }
    ensures row { IfOk result (IsRow base.Int run.old run.new global.CountOf (λ r. array_value r xs.now ∷ number_value r y ∷ [])) }
{
    let count = occurrences(run, y, &xs.items)?;
    where_both(run, xs, y, count)
}

fn occurrences(run: &mut Run, y: Id, ids: &[Id]) -> Result<Id, Memory>
    ensures goes { GoesOnBy (14 * length ids.now) run.old run.new }
    ensures gives { IfOk result (Gives run.old run.new (λ r. Some (terms.number (pos (count_by (λ x. compares compare.Equal (num r y) (num r x)) ids.now))))) }
{
    let equal = Compared { op: Compare::Equal };
    let count = counted(run, &equal, &y, ids)?;
    Ok(count)
}

/// A number where an array and an integer are defined.
#[tactic(auto, using(mz_symbol_rows::proofs::GoingOn::goes_both, mz_symbol_rows::proofs::GoingOn::goes_most))]
fn where_both(run: &mut Run, xs: &Numbers, y: Id, count: Id) -> Result<Id, Memory>
    ensures goes { GoesOnBy 26 run.old run.new }
    ensures gives { IfOk result (Gives run.old run.new (λ r. guard_term (bit (is_some (num r y) && (is_true (r.term xs.now.defined) && true))) (r.term count))) }
{
    let yes = truth(run, true)?;
    let there = where_number_array(run, y, xs, yes)?;
    made(run, NodeKind::Guard, there, count)
}

#[tactic(auto, using(mz_symbol_rows::proofs::GoingOn::goes_both))]
pub(crate) fn occurs(
    run: &mut Run,
    relation: Relation,
    v: Id,
    n: Id,
    ids: &[Id],
) -> Result<Id, Memory>
    ensures goes { GoesOnBy (14 * length ids.now + 6) run.old run.new }
    ensures says { IfOk result (Says run.old run.new (λ r. counts_so relation (num r n) (Some (pos (count_by (λ x. compares compare.Equal (num r v) (num r x)) ids.now))))) }
{
    let equal = Compared { op: Compare::Equal };
    let count = counted(run, &equal, &v, ids)?;
    related(run, relation, n, count)
}

fn related(run: &mut Run, relation: Relation, n: Id, count: Id) -> Result<Id, Memory>
    ensures goes { GoesOnBy 6 run.old run.new }
    ensures says { IfOk result (Says run.old run.new (λ r. counts_so relation (num r n) (num r count))) }
{
    match relation {
        Relation::AtLeast => compared(run, Compare::AtMost, n, count),
        Relation::AtMost => compared(run, Compare::AtMost, count, n),
        Relation::Exactly => compared(run, Compare::Equal, count, n),
    }
}
