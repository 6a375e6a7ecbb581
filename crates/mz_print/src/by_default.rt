// The text that is printed where there is no output item.

ghost use Rattle.std.specs.Prelude.{◌≡◌, ◌++◌, ◌<◌, IfOk, OnOk, length, map};
ghost use Rattle.std.specs.List.{AllByRecursion, flat_map};
ghost use Rattle.mz_value.specs.Contents.{case_names, content};
ghost use Rattle.mz_print.specs.Lines.{line_text, IsNamed};
ghost use Rattle.mz_print.specs.Printable.{CanPrint};

use crate::lines::Line;
use crate::shown::push_line;
use mz_base::{Memory, Names};
use mz_value::{Cases, Value};
use std::alloc::Global;

fn push_value_of(
    alloc: Global,
    names: &Names,
    cases: &Cases,
    line: Line,
    values: &[Value],
    out: &mut Vec<u8>,
) -> Result<(), Memory>
    requires named { IsNamed names.now line }
    requires printable { AllByRecursion (CanPrint (case_names cases.now)) (map content values.now) }
    ensures { OnOk result (out.new.items ≡ out.old.items ++ line_text names.now (case_names cases.now) (map content values.now) line) }
{
    if line.value < values.len() {
        let label = names.text(line.name);
        push_line(alloc, cases, label.as_bytes(), &values[line.value], out)?;
    }
    Ok(())
}

/// A line `name = value;` for each of these, with its value in a solution.
pub fn default_text(
    alloc: Global,
    names: &Names,
    cases: &Cases,
    lines: &[Line],
    values: &[Value],
) -> Result<Vec<u8>, Memory>
    requires named { AllByRecursion (IsNamed names.now) lines.now }
    requires printable { AllByRecursion (CanPrint (case_names cases.now)) (map content values.now) }
    ensures { IfOk result (λ t. t.items ≡ flat_map (line_text names.now (case_names cases.now) (map content values.now)) lines.now) }
{
    let mut out = Vec::new(alloc);
    for line in lines {
        push_value_of(alloc, names, cases, *line, values, &mut out)?;
    }
    Ok(out)
}
