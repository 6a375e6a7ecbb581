// A stream of bytes that goes out, kept in memory.

ghost use Rattle.std.specs.Prelude.{◌≡◌, ◌↔◌, []};
ghost use Rattle.std.specs.List.{Contains};
ghost use Rattle.mz_io.specs.Sink.{Puts, Counts, no_counts};
ghost use Rattle.mz_io.specs.MemSink.{sink_after};

use crate::sink::{Sent, Sink};
use std::alloc::Global;
use std::marker::Model;

/// A stream of bytes that goes out, kept in memory.
///
/// It counts its puts from 0, and fails those whose numbers it was given.
#[derive(Drop)]
pub struct MemSink {
    bytes: Vec<u8>,
    failing: Vec<u64>,
    calls: u64,
    faults: u64,
    shortages: u64,
}

impl Model for MemSink {
    ghost use Rattle.mz_io.specs.MemSink.{ByteSink};

    ghost Value = { ByteSink };

    ghost view = { λ s. record {
      held = s.bytes.items;
      failing = s.failing.items;
      calls = s.calls;
      counts = record { faults = s.faults; shortages = s.shortages };
    } };
}

impl MemSink {
    /// A sink that holds nothing, and fails the puts of these numbers.
    pub fn new(alloc: Global, failing: Vec<u64>) -> MemSink
        ensures { result ≡ record { held = []; failing = failing.items; calls = 0; counts = no_counts } }
    {
        MemSink {
            bytes: Vec::new(alloc),
            failing,
            calls: 0,
            faults: 0,
            shortages: 0,
        }
    }

    /// The bytes held.
    pub fn bytes(&self) -> &[u8]
        ensures { result.now ≡ self.now.held }
    {
        self.bytes.as_slice()
    }
}

impl Sink for MemSink {
    ghost use Rattle.std.specs.Prelude.{Some};

    ghost held = { λ s. Some s.held };

    ghost counts = { λ s. s.counts };

    /// A put that is to fail holds no byte of the piece.
    fn put(&mut self, bytes: &[u8]) -> Sent
        ensures told { Puts (Some self.old.held) (Some self.new.held) bytes.now result }
        ensures counted { Counts self.old.counts self.new.counts result }
        ensures failing { (result ≡ Sent.Failed) ↔ Contains self.old.failing self.old.calls }
        ensures after { self.new ≡ sink_after self.old bytes.now result }
    {
        let fails = self.failing.contains(&self.calls);
        self.calls = self.calls.saturating_add(1);
        if fails {
            self.faults = self.faults.saturating_add(1);
            return Sent::Failed;
        }
        match self.bytes.extend_from_slice(bytes) {
            Ok(()) => Sent::All,
            Err(_) => {
                self.shortages = self.shortages.saturating_add(1);
                Sent::Memory
            }
        }
    }
}
