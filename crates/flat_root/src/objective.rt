// The objective as a variable.

ghost use Rattle.std.specs.Prelude.{IfOk, OnOk};
ghost use Rattle.mz_partial.specs.Totals.{AreParts};
ghost use Rattle.flat_reif.specs.States.{state};
ghost use Rattle.flat_root.specs.Keeps.{IsReadyState};
ghost use Rattle.flat_root.specs.Objectives.{HasObjective, IsWholeRoot};

use crate::given::flatten_for;
use crate::posts::post_roots;
use flat_reif::Flat;
use mz_arena::Id;
use mz_base::Memory;
use mz_partial::Memo;
use std::alloc::Global;

/// The place of a variable that is this integer in each solution; and keeps just the solutions in which it
/// has a value.
///
/// The variable is the model's where the integer is that variable alone. A number gets a variable of its own.
pub fn post_objective(
    alloc: Global,
    flat: &mut Flat,
    memo: &mut Memo,
    id: Id,
) -> Result<u64, Memory>
    requires ready { IsReadyState (state flat.old) }
    requires memo { AreParts (state flat.old).es memo.old }
    requires whole { IsWholeRoot (state flat.old).es id }
    ensures { IfOk result (HasObjective (state flat.old) (state flat.new) id) }
{
    let p = given!(flat.total(id, memo));
    let roots = [p.defined];
    given!(post_roots(alloc, flat, memo, &roots));
    let ids = [p.term];
    given!(flatten_for(alloc, flat, &ids));
    flat.variable(p.term)
}
