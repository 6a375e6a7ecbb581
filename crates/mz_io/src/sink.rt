// A stream of bytes that goes out.

/// What putting bytes answers.
#[derive(Clone, Copy, Debug, PartialEq, Eq)]
pub enum Sent {
    /// All bytes went out.
    All,
    /// A prefix of the bytes may have gone out, and no more can.
    Failed,
    /// Memory ran out; no byte went out.
    Memory,
}

/// A stream of bytes that goes out.
pub trait Sink {
    ghost use Rattle.mz_io.specs.Sink.{Held, SinkCounts, Puts, Counts};

    // The bytes held, where they are told.
    ghost held: { Self → Held };

    // How often a call answered Failed and Memory. A count stands still at the last u64.
    ghost counts: { Self → SinkCounts };

    /// Puts `bytes` after the bytes held.
    ///
    /// After `Failed` the bytes held are those before and a prefix of `bytes`, after `Memory` those
    /// before.
    fn put(&mut self, bytes: &[u8]) -> Sent
        ensures told { Puts (held self.old) (held self.new) bytes.now result }
        ensures counted { Counts (counts self.old) (counts self.new) result };
}
