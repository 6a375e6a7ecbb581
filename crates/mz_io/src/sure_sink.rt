// A stream of bytes that goes out, kept in memory, which never fails.

ghost use Rattle.std.specs.Prelude.{◌≡◌, ◌≢◌, []};
ghost use Rattle.mz_io.specs.declared.sink.Sent.TheVariants as sent;
ghost use Rattle.mz_io.specs.Sink.{Puts, Counts};
ghost use Rattle.mz_io.specs.SureSink.{counts_of};

use crate::{MemSink, Sent, Sink};
use std::alloc::Global;
use std::marker::Model;

/// A stream of bytes that goes out, kept in memory. No put of it fails; one may run out of memory.
#[derive(Drop)]
pub struct SureSink {
    sink: MemSink,
}

impl Model for SureSink {
    ghost use Rattle.std.specs.Prelude.{◌≡◌, []};
    ghost use Rattle.mz_io.specs.SureSink.{SureHeld};

    ghost Value = { SureHeld };

    ghost view = { λ s. record { held = s.sink.held; shortages = s.sink.counts.shortages } };

    ghost invariant = { λ s. (s.sink.failing ≡ []) × (s.sink.counts.faults ≡ 0) };
}

impl SureSink {
    /// A sink that holds nothing.
    pub fn new(alloc: Global) -> SureSink
        ensures { result ≡ record { held = []; shortages = 0 } }
    {
        SureSink {
            sink: MemSink::new(alloc, Vec::new(alloc)),
        }
    }

    /// The bytes held.
    pub fn bytes(&self) -> &[u8]
        ensures { result.now ≡ self.now.held }
    {
        self.sink.bytes()
    }
}

impl Sink for SureSink {
    ghost use Rattle.std.specs.Prelude.{Some};

    ghost held = { λ s. Some s.held };

    ghost counts = { λ s. counts_of s };

    fn put(&mut self, bytes: &[u8]) -> Sent
        ensures told { Puts (Some self.old.held) (Some self.new.held) bytes.now result }
        ensures counted { Counts (counts_of self.old) (counts_of self.new) result }
        ensures sure { result ≢ sent.Failed }
    {
        self.sink.put(bytes)
    }
}
