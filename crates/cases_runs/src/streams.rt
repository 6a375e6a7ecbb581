// Streams of the system, and one that fails in mid-stream.

use cases::Page;
use mz_base::Memory;
use mz_io::{Sink, Source, StdSink, StdSource, Took};
use std::alloc::Global;
use std::io;
use std::io::{ErrorKind, Read, Write};

/// All that a source gives, as a text. What isn't text, or can't be read, is an empty text.
pub fn read_all<I: Source>(alloc: Global, input: &mut I) -> Result<String, Memory> {
    let mut bytes = Vec::new(alloc);
    let mut buffer = [0; 4096];
    for _ in 0..u64::MAX {
        match input.take(&mut buffer) {
            Took::Some(n) => bytes.extend_from_slice(&buffer[..n])?,
            Took::End => break,
            Took::Failed => return Ok(String::new(alloc)),
        }
    }
    match String::from_utf8(bytes) {
        Ok(text) => Ok(text),
        Err(_) => Ok(String::new(alloc)),
    }
}

/// Gives two bytes, an interruption before and an error after. Takes one byte in a write, an interruption before, and none
/// from the fourth write on.
#[derive(Drop)]
struct Flaky {
    calls: u8,
}

impl Read for Flaky {
    fn read(&mut self, buf: &mut [u8]) -> io::Result<usize> {
        self.calls = self.calls.saturating_add(1);
        match self.calls {
            1 => Err(io::Error::from(ErrorKind::Interrupted)),
            2 if buf.len() > 1 => Ok(2),
            _ => Err(io::Error::from(ErrorKind::Other)),
        }
    }
}

impl Write for Flaky {
    fn write(&mut self, buf: &[u8]) -> io::Result<usize> {
        self.calls = self.calls.saturating_add(1);
        match self.calls {
            1 => Err(io::Error::from(ErrorKind::Interrupted)),
            2 | 3 if !buf.is_empty() => Ok(1),
            _ => Ok(0),
        }
    }

    fn flush(&mut self) -> io::Result<()> {
        Ok(())
    }
}

/// A writer in memory that is interrupted before each write, takes three bytes at most in one, and has so much room in all.
#[derive(Drop)]
pub struct SlowWriter {
    pub bytes: Vec<u8>,
    room: u64,
    interrupted: bool,
}

impl SlowWriter {
    pub fn new(alloc: Global, room: u64) -> SlowWriter {
        SlowWriter {
            bytes: Vec::new(alloc),
            room,
            interrupted: false,
        }
    }
}

impl Write for SlowWriter {
    fn write(&mut self, buf: &[u8]) -> io::Result<usize> {
        self.interrupted = !self.interrupted;
        if self.interrupted {
            return Err(io::Error::from(ErrorKind::Interrupted));
        }
        let most = buf.len().min(3).min(self.room as usize);
        if most == 0 {
            return Err(io::Error::from(ErrorKind::Other));
        }
        self.bytes.extend_from_slice(&buf[..most])?;
        self.room = self.room.saturating_sub(most as u64);
        Ok(most)
    }

    fn flush(&mut self) -> io::Result<()> {
        Ok(())
    }
}

pub fn print(page: &mut Page) {
    page.line("# streams that are interrupted, and fail in mid-stream");
    let mut source = StdSource::new(Flaky { calls: 0 });
    page.case("take", source.take(&mut [0; 8]));
    page.case("take", source.take(&mut [0; 8]));
    let mut sink = StdSink::new(Flaky { calls: 0 });
    page.case("put ab", sink.put(b"ab"));
    page.case("put c", sink.put(b"c"));
}
