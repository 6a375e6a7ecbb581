// Files by name, kept in memory.

ghost use Rattle.std.specs.Prelude.{◌≡◌, ◌↔◌, map, Some, string_bytes};
ghost use Rattle.std.specs.List.{Contains};
ghost use Rattle.std.specs.Option.{option_copied};
ghost use Rattle.mz_io.specs.Files.{Tells, IsWithin, Counts, no_counts};
ghost use Rattle.mz_io.specs.MemFiles.{text_of, files_after, WantsMemory, CopiesWithin};

use crate::files::{Fetched, Files};
use std::alloc::Global;
use std::marker::Model;

/// Files by name, kept in memory.
///
/// They count their fetches from 0, and fail those whose numbers they were given.
#[derive(Drop)]
pub struct MemFiles {
    texts: Vec<(String, Vec<u8>)>,
    failing: Vec<u64>,
    calls: u64,
    faults: u64,
    misses: u64,
    overruns: u64,
}

impl Model for MemFiles {
    ghost use Rattle.std.specs.Prelude.{map, string_bytes};
    ghost use Rattle.mz_io.specs.MemFiles.{FileList};

    ghost Value = { FileList };

    ghost view = { λ s. record {
      entries = map (λ e. (string_bytes e.0, e.1.items)) s.texts.items;
      failing = s.failing.items;
      calls = s.calls;
      counts = record { faults = s.faults; misses = s.misses; overruns = s.overruns };
    } };
}

impl MemFiles {
    /// Files of these names and texts, of which the first entry of a name counts. They fail the
    /// fetches of these numbers.
    pub fn new(texts: Vec<(String, Vec<u8>)>, failing: Vec<u64>) -> MemFiles
        ensures { result ≡ record {
          entries = map (λ e. (string_bytes e.0, e.1.items)) texts.items;
          failing = failing.items;
          calls = 0;
          counts = no_counts;
        } }
    {
        MemFiles {
            texts,
            failing,
            calls: 0,
            faults: 0,
            misses: 0,
            overruns: 0,
        }
    }

    fn answer(&self, alloc: Global, name: &str, limit: u64) -> Fetched
        ensures told { Tells (Some (text_of self.now.entries)) name.now limit result }
        ensures within { IsWithin limit result }
        ensures failing { (result ≡ Fetched.Failed) ↔ Contains self.now.failing self.now.calls }
        ensures memory { WantsMemory self.now name.now limit result }
    {
        if self.failing.contains(&self.calls) {
            return Fetched::Failed;
        }
        match text_of(&self.texts, name) {
            None => Fetched::Missing,
            Some(text) => copied(alloc, text, limit),
        }
    }

    fn count(&mut self, answer: &Fetched)
        ensures after { self.new ≡ files_after self.old answer.now }
        ensures counted { Counts self.old.counts self.new.counts answer.now }
    {
        self.calls = self.calls.saturating_add(1);
        match answer {
            Fetched::Missing => self.misses = self.misses.saturating_add(1),
            Fetched::TooLong => self.overruns = self.overruns.saturating_add(1),
            Fetched::Failed => self.faults = self.faults.saturating_add(1),
            Fetched::Bytes(_) | Fetched::Memory => {}
        }
    }
}

fn text_of<'a>(texts: &'a [(String, Vec<u8>)], name: &str) -> Option<&'a [u8]>
    ensures { option_copied result ≡ text_of (map (λ e. (string_bytes e.0, e.1.items)) texts.now) name.now }
{
    for (key, text) in texts {
        if key.as_str() == name {
            return Some(text.as_slice());
        }
    }
    None
}

fn copied(alloc: Global, text: &[u8], limit: u64) -> Fetched
    ensures { CopiesWithin text.now limit result }
{
    if text.len() as u64 > limit {
        return Fetched::TooLong;
    }
    match text.to_vec(alloc) {
        Ok(bytes) => Fetched::Bytes(bytes),
        Err(_) => Fetched::Memory,
    }
}

impl Files for MemFiles {
    ghost texts = { λ s. Some (text_of s.entries) };

    ghost counts = { λ s. s.counts };

    /// `Memory` comes only where a text within the limit was to be copied.
    fn fetch(&mut self, alloc: Global, name: &str, limit: u64) -> Fetched
        ensures told { Tells (Some (text_of self.old.entries)) name.now limit result }
        ensures within { IsWithin limit result }
        ensures kept { Some (text_of self.new.entries) ≡ Some (text_of self.old.entries) }
        ensures counted { Counts self.old.counts self.new.counts result }
        ensures failing { (result ≡ Fetched.Failed) ↔ Contains self.old.failing self.old.calls }
        ensures memory { WantsMemory self.old name.now limit result }
        ensures after { self.new ≡ files_after self.old result }
    {
        let answer = self.answer(alloc, name, limit);
        self.count(&answer);
        answer
    }
}
