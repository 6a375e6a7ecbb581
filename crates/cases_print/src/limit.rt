// A line at its limit, and one that is a byte longer.

use crate::feeder::Feeder;
use crate::shapes::shapes_of;
use cases::Page;
use mz_base::Memory;
use soln_reader::LINE_LIMIT;
use std::alloc::Global;

/// How many bytes are fed at once.
const PIECE: usize = 65_536;

/// Feeds a comment of a line's limit, in pieces.
fn feed_comment(alloc: Global, feeder: &mut Feeder, page: &mut Page) -> Result<(), Memory> {
    let piece = vec![in alloc; b'%'; PIECE]?;
    for _ in 0..LINE_LIMIT / PIECE {
        feeder.feed(&piece, page)?;
    }
    Ok(())
}

/// What a comment of a line's limit with these bytes after it gives.
fn print_with(alloc: Global, title: &str, more: &[u8], page: &mut Page) -> Result<(), Memory> {
    page.line(title);
    let mut feeder = Feeder::new(alloc, shapes_of(alloc, "small")?);
    feed_comment(alloc, &mut feeder, page)?;
    feeder.feed(more, page)?;
    feeder.end(page);
    Ok(())
}

/// A line at its limit, and one that is a byte longer, each with and without its newline.
pub fn print(alloc: Global, page: &mut Page) -> Result<(), Memory> {
    page.case("the limit of a line", LINE_LIMIT);
    print_with(
        alloc,
        "a comment at the limit, and a mark",
        b"\n==========\n",
        page,
    )?;
    print_with(
        alloc,
        "a comment at the limit, without a newline",
        b"",
        page,
    )?;
    print_with(
        alloc,
        "a comment of one byte more",
        b"%\n==========\n",
        page,
    )?;
    print_with(
        alloc,
        "a comment of one byte more, without a newline",
        b"%",
        page,
    )?;
    print_with(
        alloc,
        "a comment of one byte more with its carriage return",
        b"\r\n==========\n",
        page,
    )
}
