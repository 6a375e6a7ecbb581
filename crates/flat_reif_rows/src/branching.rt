// Variables for two branches.

ghost use Rattle.std.specs.Prelude.{◌≡◌, ◌∷◌, [], IfOk, if◌then◌else◌, pos};
ghost use Rattle.fz_program.specs.Arguments.{argument, int, one, plain, plains};
ghost use Rattle.flat_reif_rows.specs.Branches.{AreBranches, MakesBranch};

use crate::access::made_of_access;
use crate::constant::{are_one, truth_in};
use crate::making::{made_of_one, made_of_sum};
use fz_build::Build;
use fz_program::{Arg, RowName};
use mz_arena::NodeKind;
use mz_base::Memory;
use std::alloc::Global;

fn one_argument() -> Arg
    ensures { argument result ≡ one (int (pos 1)) }
{
    Arg::Int(1)
}

// The branch of a false condition, and then that of a true one.
fn listed(alloc: Global, y: Arg, z: Arg) -> Result<Vec<Arg>, Memory>
    ensures { IfOk result (λ all. plains all.items ≡ plain z ∷ plain y ∷ []) }
{
    Ok(vec![in alloc; z, y]?)
}

// A variable for `y` where a condition is true, and for `z` where it is false: the element of the list
// of both at the place that is 1 more than the condition as an integer. It takes three variables and
// three rows.
fn made_by_element(
    alloc: Global,
    build: &mut Build,
    name: RowName,
    c: Arg,
    y: Arg,
    z: Arg,
) -> Result<Arg, Memory>
    requires { AreBranches build.old.vars name (plain c) (plain y) (plain z) }
    ensures makes { IfOk result (λ out. MakesBranch build.old build.new name (plain c) (plain y) (plain z) (plain out)) }
{
    let flag = given!(made_of_one(build, NodeKind::ToInt, RowName::BoolToInt, c));
    let place = given!(made_of_sum(alloc, build, flag, one_argument()));
    let items = given!(listed(alloc, y, z));
    made_of_access(alloc, build, name, place, items)
}

// The first where a condition is true, and else the second.
fn chosen(b: bool, y: Arg, z: Arg) -> Arg
    ensures { plain result ≡ (if b then plain y else plain z) }
{
    if b { y } else { z }
}

// The same where the condition isn't constant: of two branches that are one it is that.
fn made_of_both(
    alloc: Global,
    build: &mut Build,
    name: RowName,
    c: Arg,
    y: Arg,
    z: Arg,
) -> Result<Arg, Memory>
    requires { AreBranches build.old.vars name (plain c) (plain y) (plain z) }
    ensures makes { IfOk result (λ out. MakesBranch build.old build.new name (plain c) (plain y) (plain z) (plain out)) }
{
    if are_one(&y, &z) {
        Ok(y)
    } else {
        made_by_element(alloc, build, name, c, y, z)
    }
}

/// An argument for `y` where a condition is true, and for `z` where it is false: one of them where the
/// condition is constant or both are one, else a variable, with three rows and two variables more.
///
/// The branches are of the sort of the row, which is that of an access to a list of such elements. After
/// `Memory` the program may have grown by steps that no node stands for.
pub fn made_of_branches(
    alloc: Global,
    build: &mut Build,
    name: RowName,
    c: Arg,
    y: Arg,
    z: Arg,
) -> Result<Arg, Memory>
    requires { AreBranches build.old.vars name (plain c) (plain y) (plain z) }
    ensures makes { IfOk result (λ out. MakesBranch build.old build.new name (plain c) (plain y) (plain z) (plain out)) }
{
    match truth_in(&c) {
        Some(b) => Ok(chosen(b, y, z)),
        None => made_of_both(alloc, build, name, c, y, z),
    }
}
