// A typed program → what prints its solutions.

ghost use Rattle.std.specs.Prelude.{◌<◌, ◌^◌, ◌≤ℤ◌, All, IfOk, length, map, pos};
ghost use Rattle.mz_value.specs.Ranges.{greatest};
ghost use Rattle.mz_core.specs.Program.{plain_program};
ghost use Rattle.mz_arena.specs.Instances.{instance};
ghost use Rattle.mz_meaning.specs.Walk.{ordered};
ghost use Rattle.mz_headline.specs.Keeping.{AreNumbered};
ghost use Rattle.mz_model_meaning.specs.Modeled.{Modeled};
ghost use Rattle.mz_print_model.specs.Printing.{IsPrinting, PrintingEnds};

use crate::names::top_names;
use crate::shapes;
use mz_arena::Instance;
use mz_base::{Memory, Names, Stop};
use mz_core::Program;
use mz_model::model;
use mz_print::{SolutionPrinter, are_printable, solution_printer};
use mz_value::Shape;
use std::alloc::Global;

/// What prints the solutions of a model, and the shapes of its variables, by which a solver's stream of them is read.
#[derive(Drop)]
pub struct SolutionPrinting<'a> {
    pub printer: SolutionPrinter<'a>,
    pub shapes: Vec<Shape>,
}

/// What prints the solutions of a program's instance. Out of memory too where a shape can't be printed, which no instance of a
/// typed program has.
fn of_instance<'a>(
    alloc: Global,
    program: &'a Program,
    names: &'a Names,
    inst: Instance,
    budget: u64,
    int_range: i64,
) -> Result<SolutionPrinting<'a>, Memory>
    requires small { budget < 2 ^ 63 }
    requires from_zero { pos 0 ≤ℤ int_range }
    requires in_limit { int_range ≤ℤ greatest }
    requires numbered { AreNumbered (ordered (plain_program program.now).decls (plain_program program.now).order) }
    requires known { All (λ n. n < length names.now) (map (λ d. d.name) (plain_program program.now).decls) }
    requires modeled { Modeled (record { budget = budget; int_range = int_range }) (plain_program program.now) (instance inst) }
    ensures { IfOk result (IsPrinting (record { budget = budget; int_range = int_range }) names.now (plain_program program.now)) }
{
    let top = top_names(alloc, program, &inst.pars)?;
    let shapes = shapes(alloc, &inst.vars, names)?;
    if !are_printable(&program.cases, &shapes) {
        return Err(Memory);
    }
    let printer = solution_printer(alloc, names, program, top, budget, int_range)?;
    Ok(SolutionPrinting { printer, shapes })
}

/// What prints the solutions of a typed program, by the table of its names.
///
/// The program is walked over once, under this budget, where a `var int` without a value and without a set reaches `int_range` to
/// both sides of 0 (`mz_model::model`). The text of each solution is evaluated with a budget of its own, of the same size.
///
/// Refused, at its place, where each walk over the program stops, whatever values its variables have; nothing solves it then.
pub fn printing<'a>(
    alloc: Global,
    program: &'a Program,
    names: &'a Names,
    budget: u64,
    int_range: i64,
) -> Result<SolutionPrinting<'a>, Stop>
    requires small { budget < 2 ^ 63 }
    requires from_zero { pos 0 ≤ℤ int_range }
    requires in_limit { int_range ≤ℤ greatest }
    requires numbered { AreNumbered (ordered (plain_program program.now).decls (plain_program program.now).order) }
    requires known { All (λ n. n < length names.now) (map (λ d. d.name) (plain_program program.now).decls) }
    ensures { PrintingEnds (record { budget = budget; int_range = int_range }) names.now (plain_program program.now) result }
{
    match model(alloc, program, budget, int_range) {
        Ok(inst) => Ok(of_instance(alloc, program, names, inst, budget, int_range)?),
        Err(stop) => Err(stop),
    }
}
