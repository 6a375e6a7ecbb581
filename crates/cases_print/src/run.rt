// A stream that is printed, with the takes and puts that fail.

ghost use Rattle.std.specs.Prelude.{◌<◌, ◌^◌};

use crate::fixed::Fixed;
use cases::Page;
use mz_base::Memory;
use mz_io::{MemSink, MemSource};
use mz_print_stream::print_stream;
use mz_value::{RangeSet, Shape, ShapeBase, TextValue};
use std::alloc::Global;

/// A stream, the most bytes of one take, and the first take and the first put that fail, if one does.
#[derive(Clone, Copy)]
pub struct Stream {
    text: &'static str,
    most: usize,
    take: Option<u64>,
    put: Option<u64>,
}

/// One variable `x` of 1..3.
fn shapes(alloc: Global) -> Result<Vec<Shape>, Memory> {
    let label = TextValue {
        text: String::from_str(alloc, "x")?,
    };
    let mut domains = Vec::new(alloc);
    domains.push(RangeSet::range(alloc, 1, 3)?)?;
    let mut shapes = Vec::new(alloc);
    shapes.push(Shape {
        label,
        opt: false,
        base: ShapeBase::Int,
        index: None,
        domains,
    })?;
    Ok(shapes)
}

fn listed(alloc: Global, failing: Option<u64>) -> Result<Vec<u64>, Memory> {
    let mut calls = Vec::new(alloc);
    if let Some(k) = failing {
        calls.push(k)?;
    }
    Ok(calls)
}

fn print_bytes(page: &mut Page, bytes: &[u8]) {
    match str::from_utf8(bytes) {
        Ok(text) => {
            for line in text.lines() {
                page.put("  |");
                page.line(line);
            }
        }
        Err(_) => page.line("  no text"),
    }
}

impl Stream {
    /// A stream of which no call fails.
    pub fn new(text: &'static str, most: usize) -> Stream {
        Stream {
            text,
            most,
            take: None,
            put: None,
        }
    }

    /// The same with a take that fails, counted from 0.
    pub fn failing_takes(text: &'static str, most: usize, call: u64) -> Stream {
        Stream {
            text,
            most,
            take: Some(call),
            put: None,
        }
    }

    /// The same with a put that fails, counted from 0.
    pub fn failing_puts(text: &'static str, most: usize, call: u64) -> Stream {
        Stream {
            text,
            most,
            take: None,
            put: Some(call),
        }
    }

    /// Prints the stream, and puts on the page how that ended and what went out.
    pub fn print(
        &self,
        alloc: Global,
        page: &mut Page,
        name: &str,
        printer: &Fixed,
        limit: u64,
    ) -> Result<(), Memory>
        requires { limit < 2 ^ 32 }
    {
        let bytes = Vec::from_slice(alloc, self.text.as_bytes())?;
        let most = self.most.max(1);
        let mut input = MemSource::new(bytes, most, listed(alloc, self.take)?);
        let mut out = MemSink::new(alloc, listed(alloc, self.put)?);
        let end = print_stream(alloc, shapes(alloc)?, limit, printer, &mut input, &mut out);
        page.case(name, end);
        print_bytes(page, out.bytes());
        Ok(())
    }
}
