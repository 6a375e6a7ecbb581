// What is typed is kept, and what is refused is noted.

ghost use Rattle.std.specs.Prelude.{OnOk};
ghost use Rattle.std.specs.Option.{option_map};
ghost use Rattle.mz_check.specs.StepsMeeting.{met_of, IsKept};

use crate::faults::{Met, note};
use mz_base::{Memory, Span, Stop};
use mz_core::Core;

/// Keeps the value of a declaration.
pub(crate) fn keep_value(
    all: &mut Vec<Option<Core>>,
    first: &mut Option<Met>,
    at: Span,
    value: Result<Option<Core>, Stop>,
) -> Result<(), Memory>
    ensures { OnOk result (IsKept value at all.old.items all.new.items (option_map met_of first.old) (option_map met_of first.new)) }
{
    match value {
        Ok(v) => {
            all.push(v)?;
            Ok(())
        }
        Err(stop) => note(first, at, stop),
    }
}

/// Keeps a body, a constraint or an output item.
pub(crate) fn keep_tree(
    all: &mut Vec<Core>,
    first: &mut Option<Met>,
    at: Span,
    tree: Result<Core, Stop>,
) -> Result<(), Memory>
    ensures { OnOk result (IsKept tree at all.old.items all.new.items (option_map met_of first.old) (option_map met_of first.new)) }
{
    match tree {
        Ok(e) => {
            all.push(e)?;
            Ok(())
        }
        Err(stop) => note(first, at, stop),
    }
}
