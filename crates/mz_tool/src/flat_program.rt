// The call: a typed program → its FlatZinc program.

ghost use Rattle.std.specs.Prelude.{◌<◌, ◌^◌, ◌≤ℤ◌, All, map, pos};
ghost use Rattle.mz_value.specs.Ranges.{greatest};
ghost use Rattle.mz_base.specs.Names.{text_of};
ghost use Rattle.mz_core.specs.Program.{plain_program};
ghost use Rattle.mz_arena.specs.Instances.{instance};
ghost use Rattle.mz_instance.specs.Instance.{IsInstance};
ghost use Rattle.mz_meaning.specs.Walk.{ordered};
ghost use Rattle.flat_meaning.specs.Front.{AreNamed};
ghost use Rattle.fz_program.specs.Flat.{AreDistinct, program};
ghost use Rattle.flat_meaning.specs.Faithful.{Faithful};
ghost use Rattle.mz_headline.specs.Keeping.{AreNumbered};
ghost use Rattle.mz_print_model.specs.Given.{Ends};
ghost use Rattle.mz_tool.specs.Compiled.{CompileEnds};
ghost use Rattle.mz_tool.specs.Spelled.{IsSpelled};

use flat::flatten;
use fz_program::FzProgram;
use mz_arena::Instance;
use mz_base::{Names, Stop};
use mz_core::Program;
use mz_print_model::model;
use std::alloc::Global;

/// The program of an instance.
fn flattened(alloc: Global, inst: Instance, names: &Names) -> Result<FzProgram, Stop>
    requires instance { IsInstance (instance inst) }
    requires named { AreNamed names.now (instance inst).vars }
    ensures { Ends result (λ flat. Faithful (instance inst) names.now (program flat)) (λ _. ⊥) }
{
    match flatten(alloc, inst, names) {
        Ok(flat) => Ok(flat),
        Err(_) => Err(Stop::Memory),
    }
}

/// The FlatZinc program of a typed program, by the table of its names.
///
/// It is walked over once, under this budget, where a `var int` without a value and without a set
/// reaches `int_range` to both sides of 0 (`mz_model::model`); the instance that is made is
/// flattened (`flat::flatten`).
///
/// Refused, at its place, where each walk over the program stops, whatever values its variables
/// have; nothing solves it then.
pub fn compiled(
    alloc: Global,
    program: &Program,
    names: &Names,
    budget: u64,
    int_range: i64,
) -> Result<FzProgram, Stop>
    requires small { budget < 2 ^ 63 }
    requires from_zero { pos 0 ≤ℤ int_range }
    requires in_limit { int_range ≤ℤ greatest }
    requires numbered { AreNumbered (ordered (plain_program program.now).decls (plain_program program.now).order) }
    requires spelled { All (λ n. IsSpelled (text_of names.now n)) (map (λ d. d.name) (plain_program program.now).decls) }
    requires distinct { AreDistinct (map (λ d. text_of names.now d.name) (ordered (plain_program program.now).decls (plain_program program.now).order)) }
    ensures { CompileEnds (record { budget = budget; int_range = int_range }) names.now (plain_program program.now) result }
{
    match model(alloc, program, budget, int_range) {
        Ok(inst) => flattened(alloc, inst, names),
        Err(stop) => Err(stop),
    }
}
