// How a refusal and a place are written.

use cases::Page;
use mz_base::{Memory, Span, Stop};

/// A place, as FILE:LINE:COL and its byte.
pub fn put_place(page: &mut Page, at: Span) {
    page.put(format_args!("{}:{}:{} {}", at.file, at.line, at.col, at.byte));
}

/// Why a stage stopped: the kind of refusal, its place and its number.
pub fn print(page: &mut Page, stop: Stop) -> Result<(), Memory> {
    match stop {
        Stop::Refused(fault) => {
            page.put(format_args!("  {} ", fault.kind.name()));
            put_place(page, fault.span);
            page.line(format_args!(" {}", fault.number));
            Ok(())
        }
        Stop::Memory => Err(Memory),
    }
}
