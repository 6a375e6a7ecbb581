// A solution's text.

ghost use Rattle.std.specs.Prelude.{◌≡◌, IfOk, map};
ghost use Rattle.mz_value.specs.Contents.{content};
ghost use Rattle.mz_core.specs.Program.{plain_program};
ghost use Rattle.mz_print.specs.Output.{default_text};
ghost use Rattle.mz_print_stream.specs.Printing.{AreTaken, Says};
ghost use Rattle.mz_print.specs.Items.{items_text};
ghost use Rattle.mz_print.specs.Names.{cells_for, values_of};
ghost use Rattle.mz_print.specs.Printers.{IsMade, IsTaken, solution_texts};

use crate::default_text;
use crate::env::output_env;
use crate::items::items_text;
use crate::printer::SolutionPrinter;
use mz_base::{Memory, Stop};
use mz_print_stream::Printer;
use mz_value::{Assign, Value};
use std::alloc::Global;

fn by_default(
    printer: &SolutionPrinter<'_>,
    alloc: Global,
    values: &[Value],
) -> Result<Vec<u8>, Memory>
    requires { AreTaken (IsTaken printer.now) (map content values.now) }
    ensures { IfOk result (λ t. t.items ≡ default_text printer.now.names.now (plain_program printer.now.program.now) (values_of printer.now.top.items values.now)) }
{
    default_text(
        alloc,
        printer.names,
        &printer.program.cases,
        &printer.lines,
        values,
    )
}

fn by_items(
    printer: &SolutionPrinter<'_>,
    alloc: Global,
    values: &[Value],
    block: u64,
) -> Result<Vec<u8>, Stop>
    requires { IsMade printer.now }
    ensures { Says (items_text (plain_program printer.now.program.now) printer.now.budget printer.now.int_range (cells_for printer.now.top.items values.now) block) result }
{
    let env = output_env(alloc, &printer.top, &printer.places, values)?;
    items_text(
        alloc,
        printer.program,
        &env,
        printer.budget,
        printer.int_range,
        block,
    )
}

impl Printer for SolutionPrinter<'_> {
    ghost use Rattle.mz_print.specs.Printers.{IsTaken, solution_texts};

    ghost takes = { λ s. IsTaken s };

    ghost texts = { λ s. solution_texts s };

    fn text(&self, alloc: Global, assign: &Assign, block: u64) -> Result<Vec<u8>, Stop> {
        if self.program.outputs.is_empty() {
            Ok(by_default(self, alloc, &assign.values)?)
        } else {
            by_items(self, alloc, &assign.values, block)
        }
    }
}
