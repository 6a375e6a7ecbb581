// A stream of bytes that comes in.

/// What taking bytes answers.
#[derive(Clone, Copy, Debug, PartialEq, Eq)]
pub enum Took {
    /// This many bytes, at least one, are at the beginning of the buffer.
    Some(usize),
    /// There are no more bytes.
    End,
    /// The bytes can't be read.
    Failed,
}

/// A stream of bytes that comes in.
pub trait Source {
    ghost use Rattle.std.specs.Prelude.{ℕ, ◌<◌, length};
    ghost use Rattle.mz_io.specs.Source.{Left, Gives, IsWithin, Counts};

    // The bytes that are left, where they are told.
    ghost left: { Self → Left };

    // How often a call answered Failed. The count stands still at the last u64.
    ghost faults: { Self → ℕ };

    /// Takes bytes into the beginning of `buf`, which may not be empty.
    ///
    /// After `Failed` the bytes left are those before.
    fn take(&mut self, buf: &mut [u8]) -> Took
        requires { 0 < length buf.old }
        ensures told { Gives (left self.old) (left self.new) buf.new result }
        ensures within { IsWithin (length buf.old) result }
        ensures counted { Counts (faults self.old) (faults self.new) result };
}
