// A case of the input: a stream, and the shapes that it is read by.

use crate::feeder::Feeder;
use crate::shapes::shapes_of;
use cases::{Page, bytes_of};
use mz_base::Memory;
use std::alloc::Global;

/// A stream with its case's first line, which begins with the shapes' name.
#[derive(Drop)]
pub struct Case<'a> {
    title: &'a str,
    bytes: Vec<u8>,
}

/// The events of a stream in two pieces.
fn read_in_two(alloc: Global, title: &str, first: &[u8], second: &[u8]) -> Result<String, Memory> {
    let mut page = Page::new(alloc);
    let mut feeder = Feeder::new(alloc, shapes_of(alloc, title)?);
    feeder.feed(first, &mut page)?;
    feeder.feed(second, &mut page)?;
    feeder.end(&mut page);
    Ok(page.into_text()?)
}

/// The events of a stream in pieces of some bytes each.
fn read_in_pieces(alloc: Global, title: &str, bytes: &[u8], size: usize) -> Result<String, Memory> {
    let mut page = Page::new(alloc);
    let mut feeder = Feeder::new(alloc, shapes_of(alloc, title)?);
    for piece in bytes.chunks(size.max(1)) {
        feeder.feed(piece, &mut page)?;
    }
    feeder.end(&mut page);
    Ok(page.into_text()?)
}

/// In how many cuts in two the events are these.
fn count_cuts(alloc: Global, title: &str, bytes: &[u8], events: &str) -> Result<usize, Memory> {
    let mut same = 0_usize;
    for k in 0..bytes.len() {
        let text = read_in_two(alloc, title, &bytes[..k], &bytes[k..])?;
        if text.as_str() == events {
            same = same.saturating_add(1);
        }
    }
    Ok(same)
}

/// In how many sizes of pieces, from 1 to 9 bytes, the events are these.
fn count_sizes(alloc: Global, title: &str, bytes: &[u8], events: &str) -> Result<usize, Memory> {
    let mut same = 0_usize;
    for size in 1..10 {
        let text = read_in_pieces(alloc, title, bytes, size)?;
        if text.as_str() == events {
            same = same.saturating_add(1);
        }
    }
    Ok(same)
}

impl<'a> Case<'a> {
    /// A case without a stream yet.
    pub fn new(alloc: Global, title: &'a str) -> Case<'a> {
        Case {
            title,
            bytes: Vec::new(alloc),
        }
    }

    /// Adds to the stream what a line says: `|` and a line, or `+` and bytes without a newline. `@HH` writes a byte.
    pub fn add(&mut self, alloc: Global, line: &str) -> Result<(), Memory> {
        if let Some(text) = line.strip_prefix('|') {
            self.bytes.extend_from_slice(&bytes_of(alloc, text)?)?;
            self.bytes.push(b'\n')?;
        } else if let Some(text) = line.strip_prefix('+') {
            self.bytes.extend_from_slice(&bytes_of(alloc, text)?)?;
        }
        Ok(())
    }

    /// Writes the events of the whole stream, and how many cuts have the same. A comment has no answer.
    pub fn answer(self, alloc: Global, page: &mut Page) -> Result<(), Memory> {
        let title = self.title;
        if !title.starts_with("full") && !title.starts_with("small") {
            return Ok(());
        }
        let bytes = self.bytes.as_slice();
        let events = read_in_two(alloc, title, bytes, b"")?;
        page.put(events.as_str());
        let cuts = bytes.len();
        let same = count_cuts(alloc, title, bytes, events.as_str())?;
        let sizes = count_sizes(alloc, title, bytes, events.as_str())?;
        page.line(format_args!(
            "  same in {same} of {cuts} cuts and in {sizes} of 9 sizes of pieces"
        ));
        Ok(())
    }
}
