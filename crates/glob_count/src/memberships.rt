// How often an array has a value of a set.

ghost use Rattle.std.specs.Prelude.{◌≡◌, ◌+◌, ◌*◌, ◌∷◌, ◌&&◌, [], IfOk, Some, count_by, is_some, length, pos};
ghost use Rattle.mz_core.specs.declared.types.Base.TheVariants as base;
ghost use Rattle.mz_arena.specs.Values.{as_set, is_member, is_true};
ghost use Rattle.mz_globals.specs.declared.global.Global.TheVariants as global;
ghost use Rattle.mz_symbol.specs.Makes.{GoesOnBy};
ghost use Rattle.glob_nodes.specs.declared.nodes.Compare.TheVariants as compare;
ghost use Rattle.glob_nodes.specs.Arguments.{IsWhole, array_value, number_value};
ghost use Rattle.glob_nodes.specs.Rows.{IsRow, row_cost};
ghost use Rattle.glob_nodes.specs.Says.{Says, compares, num};
ghost use Rattle.glob_nodes.specs.Sets.{set_value};

use glob_nodes::{
    Compare, Numbers, Relation, compared, counted, lies_in, where_number_array, where_set,
};
use mz_arena::Id;
use mz_base::Memory;
use mz_symbol::Run;

/// `among`: so many of the elements lie in the set.
pub fn among(run: &mut Run, n: Id, xs: &Numbers, v: Id) -> Result<Id, Memory>
    requires { IsWhole run.old xs.now }
    ensures goes { GoesOnBy (56 * row_cost global.Among (1 ∷ length xs.now.items.items ∷ 0 ∷ [])) run.old run.new }
    ensures row { IfOk result (IsRow base.Bool run.old run.new global.Among (λ r. number_value r n ∷ array_value r xs.now ∷ set_value r v ∷ [])) }
{
    let body = among_are(run, n, &xs.items, v)?;
    where_among(run, n, xs, v, body)
}

#[tactic(auto, using(mz_symbol_rows::proofs::GoingOn::goes_both))]
fn among_are(run: &mut Run, n: Id, ids: &[Id], v: Id) -> Result<Id, Memory>
    ensures goes { GoesOnBy (14 * length ids.now + 6) run.old run.new }
    ensures says { IfOk result (Says run.old run.new (λ r. compares compare.Equal (Some (pos (count_by (λ x. is_member (num r x) (as_set (r.term v))) ids.now))) (num r n))) }
{
    let count = counted(run, &LiesIn {}, &v, ids)?;
    compared(run, Compare::Equal, count, n)
}

/// A set in which an integer lies.
#[derive(Clone, Copy)]
struct LiesIn {}

impl Relation<Id> for LiesIn {
    ghost use Rattle.mz_arena.specs.Values.{as_set, is_member};
    ghost use Rattle.glob_nodes.specs.Says.{num};

    ghost related = { λ c s x r. is_member (num r x) (as_set (r.term s)) };

    ghost room = { 6 };

    fn relate(&self, run: &mut Run, x: &Id, y: &Id) -> Result<Id, Memory> {
        let id = lies_in(run, *y, *x)?;
        Ok(id)
    }
}

/// A truth value where an integer, an array and a set are defined, else false.
#[tactic(auto, using(mz_symbol_rows::proofs::GoingOn::goes_both))]
fn where_among(run: &mut Run, n: Id, xs: &Numbers, v: Id, body: Id) -> Result<Id, Memory>
    ensures goes { GoesOnBy 30 run.old run.new }
    ensures says { IfOk result (Says run.old run.new (λ r. is_some (num r n) && (is_true (r.term xs.now.defined) && (is_some (as_set (r.term v)) && is_true (r.term body))))) }
{
    let inner = where_set(run, v, body)?;
    let id = where_number_array(run, n, xs, inner)?;
    Ok(id)
}
