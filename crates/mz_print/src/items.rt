// The text of output items.

ghost use Rattle.std.specs.Prelude.{◌≡◌, ◌<◌, ◌≤ℤ◌, ◌^◌, IfOk, pos};
ghost use Rattle.std.specs.Option.{option_map};
ghost use Rattle.mz_value.specs.Contents.{content};
ghost use Rattle.mz_value.specs.Ranges.{greatest};
ghost use Rattle.mz_core.specs.Program.{plain_program};
ghost use Rattle.mz_eval_scopes.specs.Views.{env_cells};
ghost use Rattle.mz_print_stream.specs.Printing.{Says};
ghost use Rattle.mz_print.specs.Items.{finished, items_text, joined, next_joined, nothing_joined};

use crate::push_elements;
use mz_base::{Depth, Fault, Kind, Memory, Span, Steps, Stop};
use mz_core::Program;
use mz_eval::{Env, value};
use mz_value::Value;
use std::alloc::Global;

/// What is joined so far: the text up to the first undefined item, and that item's place.
#[derive(Drop)]
pub(crate) struct Joined {
    pub text: Vec<u8>,
    pub undefined: Option<Span>,
}

fn nothing_joined(alloc: Global) -> Joined
    ensures { joined result ≡ nothing_joined }
{
    Joined {
        text: Vec::new(alloc),
        undefined: None,
    }
}

/// Joins one item more.
fn with_item(so_far: Joined, at: Span, item: &Option<Value>) -> Result<Joined, Memory>
    ensures { IfOk result (λ all. joined all ≡ next_joined (joined so_far) (at, option_map content item.now)) }
{
    let Joined {
        mut text,
        undefined,
    } = so_far;
    if undefined.is_some() {
        return Ok(Joined { text, undefined });
    }
    match item {
        Some(x) => {
            push_elements(x, &mut text)?;
            Ok(Joined { text, undefined })
        }
        None => Ok(Joined {
            text,
            undefined: Some(at),
        }),
    }
}

/// The text of all items, or the fault of the first undefined one.
fn finished(so_far: Joined, block: u64) -> Result<Vec<u8>, Stop>
    ensures { Says (finished block (joined so_far)) result }
{
    match so_far.undefined {
        None => Ok(so_far.text),
        Some(span) => Err(Stop::Refused(Fault {
            kind: Kind::OutputUndefined,
            span,
            number: block as i128,
        })),
    }
}

/// The text of a program's output items, where `env` has the cells of its top-level names, for the block with this number.
/// Their work begins at 0.
pub(crate) fn items_text(
    alloc: Global,
    program: &Program,
    env: &Env,
    budget: u64,
    int_range: i64,
    block: u64,
) -> Result<Vec<u8>, Stop>
    requires small { budget < 2 ^ 63 }
    requires from_zero { pos 0 ≤ℤ int_range }
    requires in_limit { int_range ≤ℤ greatest }
    ensures { Says (items_text (plain_program program.now) budget int_range (env_cells env.now) block) result }
{
    let mut steps = Steps::new(budget);
    let mut depth = Depth::new(600);
    let mut joined = nothing_joined(alloc);
    for e in &program.outputs {
        let item = match value(alloc, e, env, program, int_range, &mut steps, &mut depth) {
            Ok(item) => item,
            Err(stop) => return Err(stop),
        };
        joined = match with_item(joined, e.span, &item) {
            Ok(more) => more,
            Err(Memory) => return Err(Stop::Memory),
        };
    }
    finished(joined, block)
}
