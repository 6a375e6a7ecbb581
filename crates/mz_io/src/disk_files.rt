// Files by name, of the file system. What the system answers is trusted.

ghost use Rattle.std.specs.Prelude.{◌≡◌, None};
ghost use Rattle.mz_io.specs.Files.{Tells, IsWithin, Counts, no_counts, counts_after};
ghost use Rattle.mz_io.specs.DiskFiles.{Reads, refusal_of};

use crate::files::{Fetched, Files};
use std::alloc::Global;
use std::fs::File;
use std::io::{ErrorKind, Read};
use std::marker::Model;
use std::rt;

/// Files by name, of the file system: a name is a path. They tell nothing of the texts.
///
/// A file that the system says isn't there is missing. A folder, and each other error, is a fault.
#[derive(Drop)]
pub struct DiskFiles<R> {
    system: R,
    faults: u64,
    misses: u64,
    overruns: u64,
}

impl<R> Model for DiskFiles<R> {
    ghost use Rattle.mz_io.specs.Files.{FileCounts};

    ghost Value = { FileCounts };

    ghost view = { λ s. record { faults = s.faults; misses = s.misses; overruns = s.overruns } };
}

impl<R: rt::Files> DiskFiles<R> {
    /// The files that `system` opens.
    pub fn new(system: R) -> DiskFiles<R>
        ensures { result ≡ no_counts }
    {
        DiskFiles {
            system,
            faults: 0,
            misses: 0,
            overruns: 0,
        }
    }
}

impl<R> DiskFiles<R> {
    fn count(&mut self, answer: &Fetched)
        ensures after { self.new ≡ counts_after self.old answer.now }
        ensures counted { Counts self.old self.new answer.now }
    {
        match answer {
            Fetched::Missing => self.misses = self.misses.saturating_add(1),
            Fetched::TooLong => self.overruns = self.overruns.saturating_add(1),
            Fetched::Failed => self.faults = self.faults.saturating_add(1),
            Fetched::Bytes(_) | Fetched::Memory => {}
        }
    }
}

impl<R: rt::Files> Files for DiskFiles<R> {
    ghost texts = { λ _. None };

    ghost counts = { λ s. s };

    /// Of a file with more bytes than the limit, only one more than the limit is read.
    fn fetch(&mut self, alloc: Global, name: &str, limit: u64) -> Fetched
        ensures told { Tells None name.now limit result }
        ensures within { IsWithin limit result }
        ensures counted { Counts self.old self.new result }
        ensures after { self.new ≡ counts_after self.old result }
    {
        let answer = fetched(&self.system, alloc, name, limit);
        self.count(&answer);
        answer
    }
}

fn fetched<R: rt::Files>(system: &R, alloc: Global, name: &str, limit: u64) -> Fetched
    ensures { IsWithin limit result }
{
    match File::open(system, name) {
        Ok(file) => within(alloc, file, limit),
        Err(e) => refusal(e.kind()),
    }
}

fn refusal(kind: ErrorKind) -> Fetched
    ensures { result ≡ refusal_of kind }
{
    match kind {
        ErrorKind::NotFound => Fetched::Missing,
        ErrorKind::OutOfMemory => Fetched::Memory,
        _ => Fetched::Failed,
    }
}

// The bytes that are left of a file, where these are at most `limit`.
fn within<F: Read + Drop>(alloc: Global, file: F, limit: u64) -> Fetched
    ensures bytes { Reads (F.remaining file) limit result }
    ensures within { IsWithin limit result }
{
    let mut bytes = Vec::new(alloc);
    match file.take(limit.saturating_add(1)).read_to_end(&mut bytes) {
        Ok(_) if bytes.len() as u64 > limit => Fetched::TooLong,
        Ok(_) => Fetched::Bytes(bytes),
        Err(e) if e.kind() == ErrorKind::OutOfMemory => Fetched::Memory,
        Err(_) => Fetched::Failed,
    }
}
