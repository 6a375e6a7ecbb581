// Files by name.

use std::alloc::Global;

/// What fetching a file answers.
#[derive(Debug, Drop)]
pub enum Fetched {
    /// The file's bytes, all of them.
    Bytes(Vec<u8>),
    /// There is no file of this name.
    Missing,
    /// The file has more bytes than the limit.
    TooLong,
    /// The file can't be read.
    Failed,
    /// Memory ran out.
    Memory,
}

/// Files by name. No call changes a file's text.
pub trait Files {
    ghost use Rattle.std.specs.Prelude.{◌≡◌};
    ghost use Rattle.mz_io.specs.Files.{Texts, FileCounts, Tells, IsWithin, Counts};

    // The text of each name, where it is told.
    ghost texts: { Self → Texts };

    // How often a call answered Failed, Missing and TooLong. A count stands still at the last u64.
    ghost counts: { Self → FileCounts };

    /// The bytes of the file `name`, where it has at most `limit` of them.
    ///
    /// After every answer the files are as they were; `Failed`, `Missing` and `TooLong` are counted.
    fn fetch(&mut self, alloc: Global, name: &str, limit: u64) -> Fetched
        ensures told { Tells (texts self.old) name.now limit result }
        ensures within { IsWithin limit result }
        ensures kept { texts self.new ≡ texts self.old }
        ensures counted { Counts (counts self.old) (counts self.new) result };
}
