// An instance as a FlatZinc program.

ghost use Rattle.std.specs.Prelude.{IfOk};
ghost use Rattle.mz_arena.specs.Instances.{instance};
ghost use Rattle.mz_instance.specs.Instance.{IsInstance};
ghost use Rattle.flat_meaning.specs.Front.{AreNamed};
ghost use Rattle.fz_program.specs.Flat.{program};
ghost use Rattle.flat_meaning.specs.Faithful.{Faithful};

use crate::absent::fix_absent;
use crate::cleared::clear_vars;
use crate::declare_front;
use crate::goal::post_goal;
use flat_reif::Flat;
use flat_root::post_roots;
use fz_program::FzProgram;
use mz_arena::Instance;
use mz_base::{Memory, Names};
use mz_partial::Memo;
use std::alloc::Global;

/// The FlatZinc program of an instance: its variables and arrays, with the solutions of the instance in both
/// directions.
///
/// The names of the instance's variables are identifiers of the table, each of one variable, and don't begin
/// with `X_`.
pub fn flatten(alloc: Global, inst: Instance, names: &Names) -> Result<FzProgram, Memory>
    requires instance { IsInstance (instance inst) }
    requires named { AreNamed names.now (instance inst).vars }
    ensures { IfOk result (λ p. Faithful (instance inst) names.now (program p)) }
{
    let Instance {
        arena,
        vars,
        roots,
        goal,
        pars: _pars,
    } = inst;
    let list = vars.as_slice();
    let mut arena = arena;
    let mut defaults = Vec::new(alloc);
    given!(fix_absent(&mut arena, list, &mut defaults));
    let mut flat = Flat::begin(alloc, arena);
    given!(declare_front(alloc, &mut flat, names, list));
    given!(clear_vars(&mut flat, list));
    let mut memo = Memo::new(alloc);
    given!(post_roots(alloc, &mut flat, &mut memo, defaults.as_slice()));
    given!(post_roots(alloc, &mut flat, &mut memo, roots.as_slice()));
    let goal = given!(post_goal(alloc, &mut flat, &mut memo, goal));
    Ok(flat.finish(goal))
}
