// A tall tree.

use crate::items::read;
use crate::stopped;
use cases::Page;
use mz_base::{FILE_LIMIT, Memory, OPEN_LIMIT};
use std::alloc::{AllocError, Global};

/// An operator of each level, from the tightest on, with an operand after it.
const EACH_LEVEL: &str = " ++ 1 ^ 1 * 1 + 1 .. 1 union 1 in 1 < 1 /\\ 1 \\/ 1 -> 1 <-> 1";

/// A constraint with 8713 nested expressions: each has all levels of operators, each atom as many
/// accesses as may be open, and the first index of each atom has the next expression.
fn text(alloc: Global) -> Result<String, AllocError> {
    let mut text = String::from_str(alloc, "constraint ")?;
    for _ in 0..OPEN_LIMIT {
        text.push_str("a[")?;
    }
    text.push('1')?;
    text.push_str(EACH_LEVEL)?;
    for accesses in 0..OPEN_LIMIT {
        text.push(']')?;
        for _ in 0..accesses {
            text.push_str("[1]")?;
        }
        text.push_str(EACH_LEVEL)?;
    }
    Ok(text)
}

/// How many items the tall text has, or the refusal.
pub fn print(alloc: Global, page: &mut Page) -> Result<(), Memory> {
    let text = text(alloc)?;
    let bytes = text.as_bytes();
    if bytes.len() as u64 > FILE_LIMIT {
        return Ok(());
    }
    match read(alloc, bytes) {
        Ok(read) => {
            page.line(format_args!("  {} item", read.items.len()));
            Ok(())
        }
        Err(stop) => stopped::print(page, stop),
    }
}
