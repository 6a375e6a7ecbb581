// The words of typed trees: names as they stand in the line, local names with their numbers, rows by the table's names.

use cases::Page;
use mz_builtin::{built_ins, global, globals};

fn is_of_word(byte: u8) -> bool {
    byte.is_ascii_alphanumeric() || byte == b'_'
}

/// The name that stands in a line at a column, counted in bytes from 1.
pub fn put_word(page: &mut Page, line: &str, column: u32) {
    let start = column.saturating_sub(1) as usize;
    if let Some(rest) = line.as_bytes().get(start..) {
        for byte in rest {
            if !is_of_word(*byte) {
                return;
            }
            page.put(char::from(*byte));
        }
    }
}

/// The mark of a local name: its number among those in scope, from 0. The name of a declaration has none.
pub fn put_local(page: &mut Page, count: u64, slot: u64) {
    if slot >= count {
        page.put("$");
        page.put(slot - count);
    }
}

/// Local names that are bound together.
pub fn put_locals(page: &mut Page, count: u64, slots: &[u64]) {
    for slot in slots {
        page.put(" ");
        put_local(page, count, *slot);
    }
}

/// The name of a row of the table.
pub fn row_name(row: u32) -> &'static str {
    match built_ins().get(row as usize) {
        Some(line) => line.name,
        None => global_name(row),
    }
}

fn global_name(row: u32) -> &'static str {
    let Some(place) = global(row) else {
        return "?";
    };
    match globals().get(place as usize) {
        Some(line) => line.name,
        None => "?",
    }
}
