// A block of the input: a command, the files and the stream that it runs over, and the calls that fail.

use crate::gathered;
use crate::running::{print_run, print_solved, run_line};
use crate::streams::SlowWriter;
use crate::torn::TornSink;
use cases::{Page, bytes_of};
use mz_base::Memory;
use mz_io::{MemFiles, MemSink, MemSource, StdSink};
use std::alloc::Global;

/// A command with its files, its stream, and the numbers of the fetches, takes, puts and notes that fail.
#[derive(Drop)]
pub struct Block<'a> {
    command: &'a str,
    files: Vec<(String, Vec<u8>)>,
    /// The stream, and the most bytes that one take of it gives.
    stream: Vec<u8>,
    most: usize,
    fetches: Vec<u64>,
    takes: Vec<u64>,
    puts: Vec<u64>,
    notes: Vec<u64>,
    /// Whether a put fails after four bytes.
    tears: bool,
    /// How many bytes a slow writer takes, where the output is one.
    room: Option<u64>,
}

impl<'a> Block<'a> {
    /// A command over no files and an empty stream, where no call fails.
    pub fn new(alloc: Global, command: &'a str) -> Block<'a> {
        Block {
            command,
            files: Vec::new(alloc),
            stream: Vec::new(alloc),
            most: 4096,
            fetches: Vec::new(alloc),
            takes: Vec::new(alloc),
            puts: Vec::new(alloc),
            notes: Vec::new(alloc),
            tears: false,
            room: None,
        }
    }

    /// Adds what an indented line says: `NAME: TEXT`, a file, where `NAME SIZE: TEXT` fills the text with blanks up to
    /// this many bytes; `-: TEXT`, the stream, and `- N: TEXT` where one take gives at most this many bytes; `fails fetch N`,
    /// `fails take N`, `fails put N`, `fails note N` and `tears put`; `slow writer N`, an output that goes to a writer of the
    /// system which takes this many bytes.
    pub fn add(&mut self, alloc: Global, line: &str) -> Result<(), Memory> {
        if let Some((name, text)) = line.split_once(':') {
            return match name.strip_prefix('-') {
                Some(most) => self.add_stream(alloc, most, text),
                None => self.add_file(alloc, name, text),
            };
        }
        if line == "tears put" {
            self.tears = true;
        } else if let Some(call) = number_after("fails fetch ", line) {
            self.fetches.push(call)?;
        } else if let Some(call) = number_after("fails take ", line) {
            self.takes.push(call)?;
        } else if let Some(call) = number_after("fails put ", line) {
            self.puts.push(call)?;
        } else if let Some(call) = number_after("fails note ", line) {
            self.notes.push(call)?;
        } else if let Some(room) = number_after("slow writer ", line) {
            self.room = Some(room);
        }
        Ok(())
    }

    fn add_stream(&mut self, alloc: Global, most: &str, text: &str) -> Result<(), Memory> {
        self.stream = bytes_of(alloc, text.strip_prefix(' ').unwrap_or(text))?;
        if let Ok(most) = most.trim().parse::<usize>() {
            self.most = most;
        }
        Ok(())
    }

    fn add_file(&mut self, alloc: Global, name: &str, text: &str) -> Result<(), Memory> {
        let text = text.strip_prefix(' ').unwrap_or(text);
        let mut bytes = bytes_of(alloc, text)?;
        let mut name = name;
        if let Some((first, size)) = name.split_once(' ') {
            name = first;
            if let Ok(size) = size.parse::<usize>() {
                bytes.resize(size, b' ')?;
            }
        }
        self.files.push((String::from_str(alloc, name)?, bytes))?;
        Ok(())
    }

    /// Writes what the command answers. A line that is no command, as a comment, has no answer.
    pub fn answer(self, alloc: Global, page: &mut Page) -> Result<(), Memory> {
        let command = self.command;
        if let Some(first) = command.strip_prefix("gather ") {
            let mut files = MemFiles::new(self.files, self.fetches);
            return gathered::print(alloc, first, &mut files, page);
        }
        if let Some(line) = command.strip_prefix("mzc") {
            return self.run(alloc, line, page);
        }
        if let Some(line) = command.strip_prefix("solutions") {
            return self.solve(alloc, line, page);
        }
        Ok(())
    }

    /// A run's status, what it noted, and the solutions of the program that it wrote.
    fn solve(self, alloc: Global, line: &str, page: &mut Page) -> Result<(), Memory> {
        let mut files = MemFiles::new(self.files, self.fetches);
        let mut input = source(self.stream, self.most, self.takes);
        let mut notes = MemSink::new(alloc, self.notes);
        let mut out = MemSink::new(alloc, self.puts);
        let status = run_line(alloc, line, &mut files, &mut input, &mut out, &mut notes)?;
        print_run(page, status, b"", notes.bytes())?;
        print_solved(alloc, page, out.bytes())
    }

    fn run(self, alloc: Global, line: &str, page: &mut Page) -> Result<(), Memory> {
        let mut files = MemFiles::new(self.files, self.fetches);
        let mut input = source(self.stream, self.most, self.takes);
        let mut notes = MemSink::new(alloc, self.notes);
        if self.tears {
            let mut out = TornSink::new(alloc);
            let status = run_line(alloc, line, &mut files, &mut input, &mut out, &mut notes)?;
            print_run(page, status, out.bytes.as_slice(), notes.bytes())
        } else if let Some(room) = self.room {
            let mut writer = SlowWriter::new(alloc, room);
            let status = run_line(
                alloc,
                line,
                &mut files,
                &mut input,
                &mut StdSink::new(&mut writer),
                &mut notes,
            )?;
            print_run(page, status, writer.bytes.as_slice(), notes.bytes())
        } else {
            let mut out = MemSink::new(alloc, self.puts);
            let status = run_line(alloc, line, &mut files, &mut input, &mut out, &mut notes)?;
            print_run(page, status, out.bytes(), notes.bytes())
        }
    }
}

/// A stream of which one take gives at least one byte.
fn source(stream: Vec<u8>, most: usize, takes: Vec<u64>) -> MemSource {
    if most == 0 {
        MemSource::new(stream, 1, takes)
    } else {
        MemSource::new(stream, most, takes)
    }
}

/// The number after these words, where a line is these words and a number.
fn number_after(words: &str, line: &str) -> Option<u64> {
    match line.strip_prefix(words) {
        Some(number) => number.parse::<u64>().ok(),
        None => None,
    }
}
