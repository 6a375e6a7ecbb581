// A stream of bytes that comes in, from a reader of the system. What the system answers is trusted.

ghost use Rattle.std.specs.Prelude.{◌≡◌, ◌<◌, None, Some, IfSome, length};
ghost use Rattle.mz_io.specs.Source.{Gives, IsWithin, Counts, faults_after};
ghost use Rattle.mz_io.specs.StdSource.{reader_of, faults_of};

use crate::source::{Source, Took};
use std::io::{ErrorKind, Read};

/// A stream of bytes that comes in, from a reader such as standard input. It keeps no byte back, and
/// as a source it tells nothing of the bytes.
#[derive(Drop)]
pub struct StdSource<R> {
    reader: R,
    faults: u64,
}

impl<R: Read> StdSource<R> {
    /// The bytes that `reader` gives.
    pub fn new(reader: R) -> StdSource<R>
        ensures reader { reader_of result ≡ reader }
        ensures faults { faults_of result ≡ 0 }
    {
        StdSource { reader, faults: 0 }
    }
}

impl<R: Read> Source for StdSource<R> {
    ghost left = { λ _. None };

    ghost faults = { λ s. faults_of s };

    /// Gives what one read gives. A read that was interrupted is tried again.
    fn take(&mut self, buf: &mut [u8]) -> Took
        requires { 0 < length buf.old }
        ensures told { Gives None None buf.new result }
        ensures within { IsWithin (length buf.old) result }
        ensures counted { Counts (faults_of self.old) (faults_of self.new) result }

        // One fault more, no less, and the bytes of a reader that tells them.
        ensures faults { faults_of self.new ≡ faults_after (faults_of self.old) result }
        ensures read { IfSome (R.remaining (reader_of self.old))
            (λ left. Gives (Some left) (R.remaining (reader_of self.new)) buf.new result) }
    {
        let answer = read(&mut self.reader, buf);
        if answer == Took::Failed {
            self.faults = self.faults.saturating_add(1);
        }
        answer
    }
}

fn read<R: Read>(reader: &mut R, buf: &mut [u8]) -> Took
    requires { 0 < length buf.old }
    ensures told { IfSome (R.remaining reader.old)
        (λ left. Gives (Some left) (R.remaining reader.new) buf.new result) }
    ensures within { IsWithin (length buf.old) result }
{
    for _ in 0..u64::MAX {
        match reader.read(buf) {
            Ok(0) => return Took::End,
            Ok(n) => return Took::Some(n),
            Err(e) if e.kind() == ErrorKind::Interrupted => {}
            Err(_) => return Took::Failed,
        }
    }
    Took::Failed
}
