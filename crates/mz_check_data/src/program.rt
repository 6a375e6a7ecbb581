// The names of the texts in the parts of a typed program.

ghost use Rattle.std.specs.Prelude.{◌≡◌, ◌++◌, IfOk, OnOk, map};
ghost use Rattle.std.specs.List.{flat_map};
ghost use Rattle.mz_core.specs.TreeViews.{tree, decl};
ghost use Rattle.mz_core.specs.Program.{function, goal};
ghost use Rattle.mz_check_meaning.specs.Texts.{in_decl, in_function, in_goal};
ghost use Rattle.mz_check_data.specs.StepsLayers.{names_in};

use crate::walk::{in_all, in_declaration, in_declared, in_tree};
use mz_base::{Memory, Name};
use mz_core::{Core, CoreDecl, CoreFunction, CoreGoal};
use std::alloc::Global;

fn in_decl(out: &mut Vec<Name>, d: &CoreDecl) -> Result<(), Memory>
    ensures { OnOk result (out.new.items ≡ out.old.items ++ in_decl (decl d.now)) }
{
    in_declaration(out, d)?;
    Ok(())
}

fn in_decls(out: &mut Vec<Name>, ds: &[CoreDecl]) -> Result<(), Memory>
    ensures { OnOk result (out.new.items ≡ out.old.items ++ flat_map in_decl (map decl ds.now)) }
{
    for d in ds {
        in_decl(out, d)?;
    }
    Ok(())
}

fn in_function(out: &mut Vec<Name>, f: &CoreFunction) -> Result<(), Memory>
    ensures { OnOk result (out.new.items ≡ out.old.items ++ in_function (function f.now)) }
{
    in_decls(out, f.params.as_slice())?;
    in_declared(out, &f.result)?;
    in_tree(out, &f.body)?;
    Ok(())
}

fn in_functions(out: &mut Vec<Name>, fs: &[CoreFunction]) -> Result<(), Memory>
    ensures { OnOk result (out.new.items ≡ out.old.items ++ flat_map in_function (map function fs.now)) }
{
    for f in fs {
        in_function(out, f)?;
    }
    Ok(())
}

fn in_goal(out: &mut Vec<Name>, g: &CoreGoal) -> Result<(), Memory>
    ensures { OnOk result (out.new.items ≡ out.old.items ++ in_goal (goal g.now)) }
{
    match g {
        CoreGoal::Satisfy => Ok(()),
        CoreGoal::Minimize(e) => {
            in_tree(out, e)?;
            Ok(())
        }
        CoreGoal::Maximize(e) => {
            in_tree(out, e)?;
            Ok(())
        }
    }
}

/// The names of the texts in the parts of a program, as often as they are there.
pub(crate) fn names_in(
    alloc: Global,
    decls: &[CoreDecl],
    functions: &[CoreFunction],
    constraints: &[Core],
    objective: &CoreGoal,
    outputs: &[Core],
) -> Result<Vec<Name>, Memory>
    ensures { IfOk result (λ v. v.items ≡ names_in (map decl decls.now) (map function functions.now) (map tree constraints.now) (goal objective.now) (map tree outputs.now)) }
{
    let mut out = Vec::new(alloc);
    in_decls(&mut out, decls)?;
    in_functions(&mut out, functions)?;
    in_all(&mut out, constraints)?;
    in_goal(&mut out, objective)?;
    in_all(&mut out, outputs)?;
    Ok(out)
}
