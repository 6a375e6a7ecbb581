// How bytes and the answers of the outside are written.

use cases::Page;
use mz_io::Fetched;
use std::str;

/// Bytes as a text in quotes.
pub fn put_bytes(page: &mut Page, bytes: &[u8]) {
    match str::from_utf8(bytes) {
        Ok(text) => page.show(text),
        Err(_) => page.put("no text"),
    }
}

/// What a fetch answered.
pub fn put_fetched(page: &mut Page, answer: Fetched) {
    match answer {
        Fetched::Bytes(bytes) => put_bytes(page, bytes.as_slice()),
        Fetched::Missing => page.put("Missing"),
        Fetched::TooLong => page.put("TooLong"),
        Fetched::Failed => page.put("Failed"),
        Fetched::Memory => page.put("Memory"),
    }
}

/// Each line of a text, after a mark.
pub fn put_lines(page: &mut Page, mark: &str, bytes: &[u8]) {
    match str::from_utf8(bytes) {
        Ok(text) => {
            for line in text.lines() {
                page.put(mark);
                page.line(line);
            }
        }
        Err(_) => page.line("no text"),
    }
}
