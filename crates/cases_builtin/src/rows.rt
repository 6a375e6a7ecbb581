// The rows that the lines of the input name.

use mz_builtin::built_ins;
use mz_operations::{Row, row_of};

/// The row of a line of the table by its name, with how many lines of this name stand before it
/// where it isn't the first.
pub(crate) fn row_named(word: &str) -> Option<Row> {
    match word.split_once(' ') {
        None => row_at(word, 0),
        Some((name, before)) => {
            let Ok(before) = before.parse::<u32>() else {
                return None;
            };
            row_at(name, before)
        }
    }
}

fn row_at(name: &str, before: u32) -> Option<Row> {
    let mut before = before;
    for number in 0..built_ins().len() as u32 {
        if is_named(name, number) {
            if before == 0 {
                return row_of(number);
            }
            before -= 1;
        }
    }
    None
}

fn is_named(name: &str, number: u32) -> bool {
    match built_ins().get(number as usize) {
        Some(line) => line.name == name,
        None => false,
    }
}
