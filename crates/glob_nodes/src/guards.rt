// Truth values where arguments are defined.

ghost use Rattle.std.specs.Prelude.{◌≡◌, ◌&&◌, IfOk, is_some};
ghost use Rattle.mz_arena.specs.Values.{is_true};
ghost use Rattle.mz_symbol.specs.Makes.{GoesOnBy};
ghost use Rattle.glob_nodes.specs.Says.{Says, num};

use crate::arguments::Numbers;
use crate::nodes::{Join, joined, where_defined};
use mz_arena::Id;
use mz_base::Memory;
use mz_symbol::Run;

/// A truth value where two arrays are defined, else false.
#[tactic(auto, using(mz_symbol_rows::proofs::GoingOn::goes_both, mz_symbol_rows::proofs::GoingOn::goes_most))]
pub fn where_arrays(run: &mut Run, x: &Numbers, y: &Numbers, body: Id) -> Result<Id, Memory>
    ensures goes { GoesOnBy 12 run.old run.new }
    ensures says { IfOk result (Says run.old run.new (λ r. is_true (r.term x.now.defined) && (is_true (r.term y.now.defined) && is_true (r.term body)))) }
{
    let inner = joined(run, Join::Both, y.defined, body)?;
    joined(run, Join::Both, x.defined, inner)
}

/// A truth value where an integer and an array are defined, else false.
#[tactic(auto, using(mz_symbol_rows::proofs::GoingOn::goes_both, mz_symbol_rows::proofs::GoingOn::goes_most))]
pub fn where_number_array(run: &mut Run, x: Id, y: &Numbers, body: Id) -> Result<Id, Memory>
    ensures goes { GoesOnBy 18 run.old run.new }
    ensures says { IfOk result (Says run.old run.new (λ r. is_some (num r x) && (is_true (r.term y.now.defined) && is_true (r.term body)))) }
{
    let inner = joined(run, Join::Both, y.defined, body)?;
    where_defined(run, x, inner)
}

/// A truth value where two integers and an array are defined, else false.
#[tactic(auto, using(mz_symbol_rows::proofs::GoingOn::goes_both, mz_symbol_rows::proofs::GoingOn::goes_most))]
pub fn where_numbers_array(run: &mut Run, x: Id, y: Id, z: &Numbers, body: Id) -> Result<Id, Memory>
    ensures goes { GoesOnBy 30 run.old run.new }
    ensures says { IfOk result (Says run.old run.new (λ r. is_some (num r x) && (is_some (num r y) && (is_true (r.term z.now.defined) && is_true (r.term body))))) }
{
    let inner = where_number_array(run, y, z, body)?;
    where_defined(run, x, inner)
}
