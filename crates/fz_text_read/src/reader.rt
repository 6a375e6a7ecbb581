// A whole program.

ghost use Rattle.std.specs.Prelude.{map};
ghost use Rattle.fz_items.specs.Gives.{Gives};
ghost use Rattle.fz_program.specs.Flat.{program, variable};
ghost use Rattle.fz_text_read.specs.Lines.{body_at, named_at, program_at};
ghost use Rattle.fz_text_read.specs.Views.{body_of};

use crate::array_line::ArrayLine;
use crate::name_table::{NameTable, names_once, table_of};
use crate::parts::lines;
use crate::row_line::{RowLine, goal};
use crate::variable_line::VariableLine;
use fz_items::Miss;
use fz_program::{FzArray, FzGoal, FzProgram, FzRow, FzVar};
use std::alloc::Global;

/// What follows the variables.
#[derive(Drop)]
pub(crate) struct Body {
    arrays: Vec<FzArray>,
    rows: Vec<FzRow>,
    goal: FzGoal,
}

/// What follows the variables, up to the end.
#[tactic(auto, unfolding(crate::specs::Lines::body_at))]
fn read_body<'a>(alloc: Global, names: &NameTable<'a>, bytes: &'a [u8]) -> Result<Body, Miss>
    ensures { Gives body_of result (body_at names.now bytes.now) }
{
    let (arrays, rest) = given!(lines(alloc, &ArrayLine { alloc, names }, b"array [1..", bytes));
    let (rows, rest) = given!(lines(alloc, &RowLine { alloc, names }, b"constraint ", rest));
    let (goal, rest) = given!(goal(names, rest));
    if rest.is_empty() {
        Ok(Body { arrays, rows, goal })
    } else {
        Err(Miss::Unfit)
    }
}

/// The same, where no variable's name stands twice.
fn named<'a>(alloc: Global, vars: &'a [FzVar], bytes: &'a [u8]) -> Result<Body, Miss>
    ensures { Gives body_of result (named_at (map variable vars.now) bytes.now) }
{
    let names = given!(table_of(alloc, vars));
    read_body(alloc, &names, bytes)
}

/// What a text is read to: a program in which no name stands twice. Its time grows with the length
/// of the text, but for sets in braces, whose numbers are sorted.
///
/// `Unfit` where the text is read to nothing. What is read spells the text only where its one
/// spelling is the text, and it may be not well formed in all but its names.
#[tactic(auto, unfolding(crate::specs::Lines::program_at))]
pub fn read_program(alloc: Global, bytes: &[u8]) -> Result<FzProgram, Miss>
    ensures { Gives program result (program_at bytes.now) }
{
    let (vars, rest) = given!(lines(alloc, &VariableLine { alloc }, b"var ", bytes));
    let Body { arrays, rows, goal } = given!(named(alloc, &vars, rest));
    given!(names_once(alloc, &vars, &arrays));
    Ok(FzProgram {
        vars,
        arrays,
        rows,
        goal,
    })
}
