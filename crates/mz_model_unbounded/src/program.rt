// The first declaration without a bound in a typed program.

ghost use Rattle.std.specs.Prelude.{◌≡◌, None, map};
ghost use Rattle.std.specs.List.{flat_map};
ghost use Rattle.mz_core.specs.TreeViews.{decl};
ghost use Rattle.mz_core.specs.Program.{function, goal, plain_program};
ghost use Rattle.mz_meaning.specs.Unbounded.{all_unbounded, first_unbounded, in_goal};
ghost use Rattle.mz_model_unbounded.specs.Firsts.{first_place};
ghost use Rattle.mz_model_unbounded.specs.StepsLayers.{in_local, in_param, in_function};

use crate::walk::{in_all, in_local, in_tree, in_type};
use mz_base::Span;
use mz_core::{CoreDecl, CoreFunction, CoreGoal, Program};

fn in_declarations(found: &mut Option<Span>, ds: &[CoreDecl])
    ensures { found.new ≡ first_place found.old (flat_map in_local (map decl ds.now)) }
{
    for d in ds {
        in_local(found, d);
    }
}

fn in_parameter(found: &mut Option<Span>, d: &CoreDecl)
    ensures { found.new ≡ first_place found.old (in_param (decl d.now)) }
{
    in_type(found, &d.ty);
}

fn in_parameters(found: &mut Option<Span>, ds: &[CoreDecl])
    ensures { found.new ≡ first_place found.old (flat_map in_param (map decl ds.now)) }
{
    for d in ds {
        in_parameter(found, d);
    }
}

fn in_function(found: &mut Option<Span>, f: &CoreFunction)
    ensures { found.new ≡ first_place found.old (in_function (function f.now)) }
{
    in_parameters(found, f.params.as_slice());
    in_type(found, &f.result);
    in_tree(found, &f.body);
}

fn in_functions(found: &mut Option<Span>, fs: &[CoreFunction])
    ensures { found.new ≡ first_place found.old (flat_map in_function (map function fs.now)) }
{
    for f in fs {
        in_function(found, f);
    }
}

fn in_goal(found: &mut Option<Span>, objective: &CoreGoal)
    ensures { found.new ≡ first_place found.old (in_goal (goal objective.now)) }
{
    match objective {
        CoreGoal::Satisfy => {}
        CoreGoal::Minimize(e) => in_tree(found, e),
        CoreGoal::Maximize(e) => in_tree(found, e),
    }
}

/// The name of the first declaration, in source order, that has no value and whose type has no bound:
/// a var set of int without a set, or an array with an index `int`; and None where there is none. Also
/// the declarations of lets count, in functions and output items too. It goes once through the
/// program, and takes no memory.
pub fn first_unbounded(program: &Program) -> Option<Span>
    ensures { result ≡ first_unbounded (plain_program program.now) }
{
    let mut found = None;
    in_declarations(&mut found, program.decls.as_slice());
    in_functions(&mut found, program.functions.as_slice());
    in_all(&mut found, program.constraints.as_slice());
    in_goal(&mut found, &program.goal);
    in_all(&mut found, program.outputs.as_slice());
    found
}
