// A stream of bytes that comes in, kept in memory.

ghost use Rattle.std.specs.Prelude.{◌≡◌, ◌↔◌, ◌++◌, ◌<◌, length, min, take, drop, Some};
ghost use Rattle.std.specs.List.{Contains};
ghost use Rattle.mz_io.specs.Source.{Gives, IsWithin, Counts};
ghost use Rattle.mz_io.specs.MemSource.{source_after, count_of, IsMost};

use crate::source::{Source, Took};
use std::marker::Model;

/// A stream of bytes that comes in, kept in memory.
///
/// It counts its takes from 0, and fails those whose numbers it was given.
#[derive(Drop)]
pub struct MemSource {
    bytes: Vec<u8>,
    at: usize,
    most: usize,
    failing: Vec<u64>,
    calls: u64,
    faults: u64,
}

impl Model for MemSource {
    ghost use Rattle.std.specs.Prelude.{◌<◌, ◌≤◌, drop, vec_len};
    ghost use Rattle.mz_io.specs.MemSource.{ByteSource};

    ghost Value = { ByteSource };

    ghost view = { λ s. record {
      left = drop s.at s.bytes.items;
      most = s.most;
      failing = s.failing.items;
      calls = s.calls;
      faults = s.faults;
    } };

    ghost invariant = { λ s. (s.at ≤ vec_len s.bytes) × (0 < s.most) };
}

impl MemSource {
    /// A source that has these bytes left, gives at most `most` of them in one take, and fails the
    /// takes of these numbers.
    pub fn new(bytes: Vec<u8>, most: usize, failing: Vec<u64>) -> MemSource
        requires { 0 < most }
        ensures { result ≡ record { left = bytes.items; most = most; failing = failing.items; calls = 0; faults = 0 } }
    {
        MemSource {
            bytes,
            at: 0,
            most,
            failing,
            calls: 0,
            faults: 0,
        }
    }
}

// Copies the first bytes of `left` over those of `buf`, as many bytes as both have, and at most `most`.
fn fill(buf: &mut [u8], left: &[u8], most: usize) -> usize
    ensures count { result ≡ min most (min (length buf.old) (length left.now)) }
    ensures filled { buf.new ≡ take result left.now ++ drop result buf.old }
    ensures gives { left.now ≡ take result buf.new ++ drop result left.now }
{
    let n = most.min(buf.len().min(left.len()));
    buf[..n].copy_from_slice(&left[..n]);
    n
}

impl Source for MemSource {
    ghost left = { λ s. Some s.left };

    ghost faults = { λ s. s.faults };

    /// What stands in `buf` after the bytes given stays as it was.
    fn take(&mut self, buf: &mut [u8]) -> Took
        requires { 0 < length buf.old }
        ensures told { Gives (Some self.old.left) (Some self.new.left) buf.new result }
        ensures within { IsWithin (length buf.old) result }
        ensures counted { Counts self.old.faults self.new.faults result }
        ensures failing { (result ≡ Took.Failed) ↔ Contains self.old.failing self.old.calls }
        ensures most { IsMost self.old (length buf.old) result }
        ensures filled { buf.new ≡ take (count_of result) self.old.left ++ drop (count_of result) buf.old }
        ensures after { self.new ≡ source_after self.old result }
    {
        let fails = self.failing.contains(&self.calls);
        self.calls = self.calls.saturating_add(1);
        if fails {
            self.faults = self.faults.saturating_add(1);
            return Took::Failed;
        }
        let n = fill(buf, &self.bytes.as_slice()[self.at..], self.most);
        if n == 0 {
            return Took::End;
        }
        self.at += n;
        Took::Some(n)
    }
}
