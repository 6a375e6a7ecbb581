// Globals over the pairs of one array.

ghost use Rattle.std.specs.Prelude.{◌≡◌, ◌*◌, ◌∷◌, [], IfOk, length};
ghost use Rattle.mz_core.specs.declared.types.Base.TheVariants as base;
ghost use Rattle.mz_globals.specs.declared.global.Global.TheVariants as global;
ghost use Rattle.mz_symbol.specs.Makes.{GoesOnBy};
ghost use Rattle.glob_nodes.specs.Arguments.{IsWhole, array_value};
ghost use Rattle.glob_nodes.specs.Rows.{IsRow, row_cost};

use crate::relations::{DifferOrZero, InOrder};
use glob_nodes::{Compare, Compared, Join, Numbers, each_next, each_two, joined};
use mz_arena::Id;
use mz_base::Memory;
use mz_operations::Comparison;
use mz_symbol::Run;

/// `all_different`: each two elements differ.
pub fn all_different(run: &mut Run, xs: &Numbers) -> Result<Id, Memory>
    requires { IsWhole run.old xs.now }
    ensures goes { GoesOnBy (56 * row_cost global.AllDifferent (length xs.now.items.items ∷ [])) run.old run.new }
    ensures row { IfOk result (IsRow base.Bool run.old run.new global.AllDifferent (λ r. array_value r xs.now ∷ [])) }
{
    let differ = Compared {
        op: Compare::Differ,
    };
    let body = each_two(run, &differ, &xs.items)?;
    joined(run, Join::Both, xs.defined, body)
}

/// `alldifferent_except_0`: each two elements differ, or are 0.
pub fn different_but_zero(run: &mut Run, xs: &Numbers) -> Result<Id, Memory>
    requires { IsWhole run.old xs.now }
    ensures goes { GoesOnBy (56 * row_cost global.DifferentButZero (length xs.now.items.items ∷ [])) run.old run.new }
    ensures row { IfOk result (IsRow base.Bool run.old run.new global.DifferentButZero (λ r. array_value r xs.now ∷ [])) }
{
    let body = each_two(run, &DifferOrZero {}, &xs.items)?;
    joined(run, Join::Both, xs.defined, body)
}

/// `increasing` and its kin: each element stands so to the next.
pub fn ordered(run: &mut Run, op: Comparison, xs: &Numbers) -> Result<Id, Memory>
    requires { IsWhole run.old xs.now }
    ensures goes { GoesOnBy (56 * row_cost (global.Ordered op) (length xs.now.items.items ∷ [])) run.old run.new }
    ensures row { IfOk result (IsRow base.Bool run.old run.new (global.Ordered op) (λ r. array_value r xs.now ∷ [])) }
{
    let order = InOrder { op };
    let body = each_next(run, &order, &xs.items)?;
    joined(run, Join::Both, xs.defined, body)
}

/// `all_equal`: each element is the next one.
pub fn all_equal(run: &mut Run, xs: &Numbers) -> Result<Id, Memory>
    requires { IsWhole run.old xs.now }
    ensures goes { GoesOnBy (56 * row_cost global.AllEqual (length xs.now.items.items ∷ [])) run.old run.new }
    ensures row { IfOk result (IsRow base.Bool run.old run.new global.AllEqual (λ r. array_value r xs.now ∷ [])) }
{
    let equal = Compared { op: Compare::Equal };
    let body = each_next(run, &equal, &xs.items)?;
    joined(run, Join::Both, xs.defined, body)
}
