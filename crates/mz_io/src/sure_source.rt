// A stream of bytes that comes in, kept in memory, which never fails.

ghost use Rattle.std.specs.Prelude.{◌≡◌, ◌≢◌, ◌<◌, length};
ghost use Rattle.mz_io.specs.declared.source.Took.TheVariants as took;
ghost use Rattle.mz_io.specs.Source.{Gives, IsWithin, Counts};

use crate::{MemSource, Source, Took};
use std::alloc::Global;
use std::marker::Model;

/// A stream of bytes that comes in, kept in memory. No take of it fails.
#[derive(Drop)]
pub struct SureSource {
    source: MemSource,
}

impl Model for SureSource {
    ghost use Rattle.std.specs.Prelude.{◌≡◌, []};
    ghost use Rattle.mz_io.specs.SureSource.{SureBytes};

    ghost Value = { SureBytes };

    ghost view = { λ s. record { left = s.source.left; most = s.source.most } };

    ghost invariant = { λ s. (s.source.failing ≡ []) × (s.source.faults ≡ 0) };
}

impl SureSource {
    /// A source that has these bytes left, and gives at most `most` of them in one take.
    pub fn new(alloc: Global, bytes: Vec<u8>, most: usize) -> SureSource
        requires { 0 < most }
        ensures { result ≡ record { left = bytes.items; most = most } }
    {
        SureSource {
            source: MemSource::new(bytes, most, Vec::new(alloc)),
        }
    }
}

impl Source for SureSource {
    ghost use Rattle.std.specs.Prelude.{Some};

    ghost left = { λ s. Some s.left };

    ghost faults = { λ _. 0 };

    fn take(&mut self, buf: &mut [u8]) -> Took
        requires { 0 < length buf.old }
        ensures told { Gives (Some self.old.left) (Some self.new.left) buf.new result }
        ensures within { IsWithin (length buf.old) result }
        ensures counted { Counts 0 0 result }
        ensures sure { result ≢ took.Failed }
    {
        self.source.take(buf)
    }
}
