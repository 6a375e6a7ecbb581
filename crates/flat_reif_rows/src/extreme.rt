// Variables for the least and the greatest of lists.

ghost use Rattle.std.specs.Prelude.{◌≡◌, ◌∷◌, [], IfOk, OnErr};
ghost use Rattle.fz_program.specs.Arguments.{argument, plain, plains};
ghost use Rattle.flat_reif_rows.specs.Extremes.{AreCompared, IsExtreme, side_row};
ghost use Rattle.flat_reif_rows.specs.Making.{Gives, MayGive};

use crate::making::defined;
use fz_build::Build;
use fz_program::{Arg, RowName};
use mz_base::Memory;
use mz_operations::Side;

fn side_row(side: Side) -> RowName
    ensures { result ≡ side_row side }
{
    match side {
        Side::Least => RowName::IntMin,
        Side::Greatest => RowName::IntMax,
    }
}

// The less or the greater of two.
fn nearer(build: &mut Build, side: Side, a: Arg, b: Arg) -> Result<Arg, Memory>
    requires { MayGive build.old (side_row side) (argument a ∷ argument b ∷ []) }
    ensures gives { IfOk result (λ out. Gives build.old build.new (side_row side) (argument a ∷ argument b ∷ []) (plain out)) }
    ensures err { OnErr result (build.new ≡ build.old) }
{
    let inputs = [a, b];
    defined(build, side_row(side), &inputs)
}

/// A variable for the least or the greatest of integers, of which there is one: from the last to the
/// first, a row for each but the last, so that lists with the same end share rows where rows are found
/// again. Of one integer it is that argument.
///
/// The arguments lie within the bounds of a list's elements.
pub fn made_of_extreme(build: &mut Build, side: Side, items: Vec<Arg>) -> Result<Arg, Memory>
    requires { AreCompared build.old (plains items.items) }
    ensures makes { IfOk result (λ out. IsExtreme build.old build.new side (plains items.items) (plain out)) }
{
    let mut rest = items;
    let mut out = match rest.pop() {
        Some(x) => x,
        None => unreachable!(),
    };
    'steps: loop {
        match rest.pop() {
            Some(x) => out = given!(nearer(build, side, x, out)),
            None => return Ok(out),
        }
    }
}
