// What is asked for.

ghost use Rattle.std.specs.Prelude.{IfOk};
ghost use Rattle.mz_partial.specs.Totals.{AreParts};
ghost use Rattle.flat_reif.specs.States.{state};
ghost use Rattle.flat_root.specs.Keeps.{HasChoices, IsReadyState};
ghost use Rattle.flat.specs.Flattening.{IsAimed, IsGoalRoot};

use flat_reif::Flat;
use flat_root::post_objective;
use fz_program::FzGoal;
use mz_arena::InstanceGoal;
use mz_base::Memory;
use mz_partial::Memo;
use std::alloc::Global;

/// The solve item of a goal. Keeps just the solutions in which its objective has a value.
pub(crate) fn post_goal(
    alloc: Global,
    flat: &mut Flat,
    memo: &mut Memo,
    goal: InstanceGoal,
) -> Result<FzGoal, Memory>
    requires ready { IsReadyState (state flat.old) }
    requires choices { HasChoices (state flat.old) }
    requires memo { AreParts (state flat.old).es memo.old }
    requires goal { IsGoalRoot (state flat.old).es goal }
    ensures { IfOk result (IsAimed (state flat.old) (state flat.new) goal) }
{
    match goal {
        InstanceGoal::Satisfy => Ok(FzGoal::Satisfy),
        InstanceGoal::Minimize(id) => {
            let k = given!(post_objective(alloc, flat, memo, id));
            Ok(FzGoal::Minimize(k))
        }
        InstanceGoal::Maximize(id) => {
            let k = given!(post_objective(alloc, flat, memo, id));
            Ok(FzGoal::Maximize(k))
        }
    }
}
