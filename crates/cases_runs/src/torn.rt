// A sink that fails in mid-text.

use mz_io::{Sent, Sink};
use std::alloc::Global;

/// How many bytes of a put go out before it fails.
const MOST: usize = 4;

/// A sink in memory of which a put fails after its first four bytes.
#[derive(Drop)]
pub struct TornSink {
    pub bytes: Vec<u8>,
    faults: u64,
    shortages: u64,
}

impl TornSink {
    pub fn new(alloc: Global) -> TornSink {
        TornSink {
            bytes: Vec::new(alloc),
            faults: 0,
            shortages: 0,
        }
    }
}

impl Sink for TornSink {
    ghost use Rattle.std.specs.Prelude.{Some};

    ghost held = { λ s. Some s.bytes.items };

    ghost counts = { λ s. record { faults = s.faults; shortages = s.shortages } };

    fn put(&mut self, bytes: &[u8]) -> Sent {
        let most = bytes.len().min(MOST);
        if self.bytes.extend_from_slice(&bytes[..most]).is_err() {
            self.shortages = self.shortages.saturating_add(1);
            return Sent::Memory;
        }
        self.faults = self.faults.saturating_add(1);
        Sent::Failed
    }
}
