// A printer, made once for all of a model's solutions.

ghost use Rattle.std.specs.Prelude.{◌≡◌, ◌<◌, ◌≤ℤ◌, ◌^◌, IfOk, pos};
ghost use Rattle.std.specs.List.{AllByRecursion};
ghost use Rattle.mz_value.specs.Ranges.{greatest};
ghost use Rattle.mz_core.specs.Program.{plain_program};
ghost use Rattle.mz_print.specs.Names.{top_names};
ghost use Rattle.mz_print.specs.Printers.{IsMade, IsDeclNamed, solution_texts, texts_of};

use crate::lines_of;
use crate::names::{TopName, places, variable_slots};
use crate::printer::SolutionPrinter;
use mz_base::{Memory, Names};
use mz_core::Program;
use std::alloc::Global;

/// What prints the solutions of a program. `top` has its top-level names as its walk declares them; a solution has a value
/// for each decision variable among them, in their order. `budget` is that of each solution's text.
#[tactic(auto, unfolding(mz_core::specs::Program::plain_program))]
pub fn solution_printer<'a>(
    alloc: Global,
    names: &'a Names,
    program: &'a Program,
    top: Vec<TopName>,
    budget: u64,
    int_range: i64,
) -> Result<SolutionPrinter<'a>, Memory>
    requires named { AllByRecursion (IsDeclNamed names.now) (plain_program program.now).decls }
    requires small { budget < 2 ^ 63 }
    requires from_zero { pos 0 ≤ℤ int_range }
    requires in_limit { int_range ≤ℤ greatest }
    ensures made { IfOk result IsMade }
    ensures program { IfOk result (λ p. p.program.now ≡ program.now) }
    ensures texts { IfOk result (λ p. solution_texts p ≡ texts_of names.now budget int_range (plain_program program.now) (top_names top.items)) }
{
    let slots = variable_slots(alloc, &top)?;
    let lines = lines_of(alloc, &program.decls, &slots)?;
    let places = places(alloc, &slots, &top)?;
    Ok(SolutionPrinter {
        names,
        program,
        top,
        places,
        lines,
        budget,
        int_range,
    })
}
