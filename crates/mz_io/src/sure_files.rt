// Files by name, kept in memory, of which no fetch fails.

ghost use Rattle.std.specs.Prelude.{◌≡◌, ◌≢◌, map, Some, string_bytes};
ghost use Rattle.mz_io.specs.Files.{Tells, IsWithin, Counts};
ghost use Rattle.mz_io.specs.MemFiles.{text_of};
ghost use Rattle.mz_io.specs.SureFiles.{WantsMemory, counts_of};

use crate::{Fetched, Files, MemFiles};
use std::alloc::Global;
use std::marker::Model;

/// Files by name, kept in memory. No fetch of them fails.
#[derive(Drop)]
pub struct SureFiles {
    files: MemFiles,
}

impl Model for SureFiles {
    ghost use Rattle.std.specs.Prelude.{◌≡◌, []};
    ghost use Rattle.mz_io.specs.SureFiles.{SureTexts};

    ghost Value = { SureTexts };

    ghost view = { λ s. record {
      entries = s.files.entries;
      misses = s.files.counts.misses;
      overruns = s.files.counts.overruns;
    } };

    ghost invariant = { λ s. (s.files.failing ≡ []) × (s.files.counts.faults ≡ 0) };
}

impl SureFiles {
    /// Files of these names and texts, of which the first entry of a name counts.
    pub fn new(alloc: Global, texts: Vec<(String, Vec<u8>)>) -> SureFiles
        ensures { result ≡ record {
          entries = map (λ e. (string_bytes e.0, e.1.items)) texts.items;
          misses = 0;
          overruns = 0;
        } }
    {
        SureFiles {
            files: MemFiles::new(texts, Vec::new(alloc)),
        }
    }
}

impl Files for SureFiles {
    ghost texts = { λ s. Some (text_of s.entries) };

    ghost counts = { λ s. counts_of s };

    /// `Memory` comes only where a text within the limit was to be copied.
    fn fetch(&mut self, alloc: Global, name: &str, limit: u64) -> Fetched
        ensures told { Tells (Some (text_of self.old.entries)) name.now limit result }
        ensures within { IsWithin limit result }
        ensures kept { Some (text_of self.new.entries) ≡ Some (text_of self.old.entries) }
        ensures counted { Counts (counts_of self.old) (counts_of self.new) result }
        ensures sure { result ≢ Fetched.Failed }
        ensures memory { WantsMemory (text_of self.old.entries name.now) limit result }
    {
        self.files.fetch(alloc, name, limit)
    }
}
