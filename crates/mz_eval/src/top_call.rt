// The call: an expression's value, with the work that it takes.

ghost use Rattle.std.specs.Prelude.{◌≡◌, ◌+◌, ◌-◌, ◌<◌, ◌≤◌, ◌≤ℤ◌, ◌^◌, IfOk, pos};
ghost use Rattle.std.specs.Option.{option_map};
ghost use Rattle.mz_value.specs.Contents.{content};
ghost use Rattle.mz_value.specs.Ranges.{greatest};
ghost use Rattle.mz_core.specs.Program.{plain_program};
ghost use Rattle.mz_core.specs.TreeViews.{tree};
ghost use Rattle.mz_meaning.specs.Contexts.{Untested};
ghost use Rattle.mz_meaning.specs.Evaluation.{eval};
ghost use Rattle.mz_symbol.specs.Makes.{GoesOn, Means};
ghost use Rattle.mz_eval_cells.specs.Views.{cell_of, seen};
ghost use Rattle.mz_eval_scopes.specs.Runs.{Meets, at_work};
ghost use Rattle.mz_eval_scopes.specs.Seen.{ctx_of, world_seen};
ghost use Rattle.mz_eval_scopes.specs.Views.{env_cells, env_cells_by, world_of};
ghost use Rattle.mz_eval.specs.Values.{value_in};
ghost use Rattle.mz_eval.specs.Answers.{StopsAtFewKinds};

use crate::forms::eval_expression;
use crate::types::Level;
use crate::weights::sound;
use mz_base::{Depth, Steps, Stop};
use mz_core::{Core, Program};
use mz_eval_cells::Known;
use mz_eval_scopes::{Context, Env, Scope, World};
use mz_symbol::Run;
use mz_value::Value;
use std::alloc::Global;

// the budget, which is what is used once too much is asked for
fn budget_of(steps: &Steps) -> u64
    requires { steps.now.budget < 2 ^ 63 }
    ensures { result ≡ steps.now.budget }
{
    let mut probe = *steps;
    let _within = probe.spend(u64::MAX);
    probe.used() - 1
}

// how many levels of nesting are left
fn levels_left(depth: &Depth) -> u64
    requires { depth.now.limit ≤ 600 }
    ensures { result ≡ depth.now.limit - depth.now.nesting }
{
    let mut probe = *depth;
    let mut levels = 0;
    'levels: while probe.enter() {
        levels += 1;
    }
    levels
}

// these steps, of which this many are spent
fn spent_of(budget: u64, work: u64) -> Steps
    requires small { budget < 2 ^ 63 }
    requires within { work ≤ budget + 1 }
    ensures budget { result.budget ≡ budget }
    ensures used { result.used ≡ work }
{
    let mut steps = Steps::new(budget);
    let _within = steps.spend(work);
    steps
}

/// The cell of an expression, par or var, over the top-level names of `world`, in a place of this
/// context, with the nodes that it makes: at most `left` levels of nesting are open at once.
///
/// Refused Bounds, Budget, Depth, AssertFailed, IndexMismatch, NegativeArgument, and FreeInContext
/// where a free local stands in another place than a positive one, each at its place and where it
/// comes first. Out of memory too where a node isn't made yet, or may not be made. After an error the
/// run tells nothing.
pub fn expanded(
    alloc: Global,
    world: &World,
    ctx: Context,
    e: &Core,
    left: u64,
    run: &mut Run,
) -> Result<Known, Stop>
    ensures goes { GoesOn run.old run.new }
    ensures means { Means seen result run.old run.new
        (λ r. eval (world_seen r world.now) left (ctx_of ctx) (tree e.now) (env_cells_by (seen r) world.now.env.now)) }
{
    let level = Level {
        alloc,
        world: &*world,
        left,
        ctx,
    };
    let top = Scope::Top;
    eval_expression(&level, e, &top, run)
}

/// The cell of an expression, par or var, over the top-level names of `world`: at most `left` levels
/// of nesting are open at once. `work` is what is spent so far, at most the budget and 1, and then
/// with what the expression takes. A free local has no value here, nor has a part of a var type; no
/// context is tested.
///
/// Refused Bounds, Budget, Depth, AssertFailed, IndexMismatch and NegativeArgument, each at its place
/// and where it comes first. After an error the work tells nothing.
pub fn evaluated(
    alloc: Global,
    world: &World,
    e: &Core,
    left: u64,
    work: &mut u64,
) -> Result<Known, Stop>
    requires { work.old ≤ world.now.budget + 1 }
    ensures answer { Meets cell_of result work.new (eval (world_of world.now) left Untested (tree e.now) (env_cells world.now.env.now) (at_work work.old)) }
    ensures kinds { StopsAtFewKinds result }
    ensures within { IfOk result (λ _. work.new ≤ world.now.budget + 1) }
{
    let mut run = Run::after(alloc, *work);
    let cell = expanded(alloc, world, Context::Untested, e, left, &mut run);
    sound(&run);
    *work = run.work();
    cell
}

/// The value of a par expression, `None` exactly where it is undefined, with the work that the
/// language counts for it.
///
/// `env` has the values of the top-level names that the expression, and the functions that it calls,
/// may name. A free local has no value here, nor has a part of a var type: what doesn't depend on
/// these is the same in every run. No context is tested. `int_range` is how far the domain of a
/// `var int` without a value reaches from 0; it lies between 0 and the greatest integer of a model.
/// The budget of `steps` lies below 2^63, and the limit of `depth` is at most 600; at most as many
/// calls and parts are open at once as it has levels left.
///
/// Refused Bounds, Budget, Depth, AssertFailed, IndexMismatch and NegativeArgument, each at its place
/// and where it comes first. After an error the budget stands, and `env` and `depth` always do; a
/// caller goes on with none of the steps.
#[tactic(auto, unfolding(mz_core::specs::Program::plain_program))]
pub fn value(
    alloc: Global,
    e: &Core,
    env: &Env,
    program: &Program,
    int_range: i64,
    steps: &mut Steps,
    depth: &mut Depth,
) -> Result<Option<Value>, Stop>
    requires small { steps.old.budget < 2 ^ 63 }
    requires few { depth.old.limit ≤ 600 }
    requires from_zero { pos 0 ≤ℤ int_range }
    requires in_limit { int_range ≤ℤ greatest }
    ensures answer { Meets (option_map content) result steps.new.used (value_in (plain_program program.now) int_range (env_cells env.now) steps.old depth.old (tree e.now)) }
    ensures kinds { StopsAtFewKinds result }
    ensures budget { steps.new.budget ≡ steps.old.budget }
    ensures kept { depth.new ≡ depth.old }
{
    let budget = budget_of(steps);
    let world = World {
        program,
        env,
        budget,
        int_range,
    };
    let mut work = steps.used();
    let cell = evaluated(alloc, &world, e, levels_left(depth), &mut work)?;
    *steps = spent_of(budget, work);
    Ok(cell.into_value(alloc)?)
}
