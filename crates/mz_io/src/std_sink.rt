// A stream of bytes that goes out, to a writer of the system. What the system answers is trusted.

ghost use Rattle.std.specs.Prelude.{◌≡◌, ◌≢◌, None, OnOk};
ghost use Rattle.std.specs.Io.KnownBytes.{Appends};
ghost use Rattle.mz_io.specs.Sink.{Puts, Counts, no_counts, counts_after};
ghost use Rattle.mz_io.specs.StdSink.{writer_of, counts_of};

use crate::sink::{Sent, Sink};
use std::io;
use std::io::Write;

/// A stream of bytes that goes out, to a writer such as standard output or standard error. It keeps
/// no byte back: where a put answers All they are out. As a sink it tells nothing of the bytes.
#[derive(Drop)]
pub struct StdSink<W> {
    writer: W,
    faults: u64,
}

impl<W: Write> StdSink<W> {
    /// The stream that `writer` writes to.
    pub fn new(writer: W) -> StdSink<W>
        ensures writer { writer_of result ≡ writer }
        ensures counts { counts_of result ≡ no_counts }
    {
        StdSink { writer, faults: 0 }
    }
}

impl<W: Write> Sink for StdSink<W> {
    ghost held = { λ _. None };

    ghost counts = { λ s. counts_of s };

    /// Goes on where a write was interrupted or took only some of the bytes, and fails where one
    /// took none.
    fn put(&mut self, bytes: &[u8]) -> Sent
        ensures told { Puts None None bytes.now result }
        ensures counted { Counts (counts_of self.old) (counts_of self.new) result }

        // One fault more, no less, and the bytes that go to a writer that tells them.
        ensures counts { counts_of self.new ≡ counts_after (counts_of self.old) result }
        ensures written { result ≡ Sent.All →
            Appends (W.contents (writer_of self.old)) (W.contents (writer_of self.new)) bytes.now }
        ensures memory { result ≢ Sent.Memory }
    {
        match send(&mut self.writer, bytes) {
            Ok(()) => Sent::All,
            Err(_) => {
                self.faults = self.faults.saturating_add(1);
                Sent::Failed
            }
        }
    }
}

fn send<W: Write>(writer: &mut W, bytes: &[u8]) -> io::Result<()>
    ensures { OnOk result (Appends (W.contents writer.old) (W.contents writer.new) bytes.now) }
{
    writer.write_all(bytes)?;
    writer.flush()
}
