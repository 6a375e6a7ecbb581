// All bytes of a source.

ghost use Rattle.std.specs.Prelude.{◌≡◌, ◌++◌, ◌<◌, ◌^◌, OnOk};
ghost use Rattle.mz_io.specs.AllBytes.{CountsAll, ReadsAll};

use crate::{Source, Took};
use mz_base::Memory;
use std::alloc::Global;

/// Why the bytes of a source aren't all read.
#[derive(Clone, Copy, Debug, PartialEq, Eq)]
pub enum ReadEnd {
    /// The source failed.
    Failed,
    /// It has more bytes than the limit.
    TooLong,
    /// Out of memory.
    Memory,
}

/// The most bytes that are taken at once.
const PIECE: usize = 65_536;

fn append(bytes: &mut Vec<u8>, piece: &[u8]) -> Result<(), Memory>
    ensures { OnOk result (bytes.new.items ≡ bytes.old.items ++ piece.now) }
{
    bytes.extend_from_slice(piece)?;
    Ok(())
}

/// All bytes that a source has left, at most `limit`.
pub fn read_all<I: Source>(alloc: Global, src: &mut I, limit: u64) -> Result<Vec<u8>, ReadEnd>
    requires { limit < 2 ^ 62 }
    ensures all { ReadsAll limit (I.left src.old) (I.left src.new) result }
    ensures counted { CountsAll (I.faults src.old) (I.faults src.new) result }
{
    let Ok(mut buffer) = vec![in alloc; 0u8; PIECE] else {
        return Err(ReadEnd::Memory);
    };
    let mut bytes = Vec::new(alloc);
    let mut room = limit;
    'pieces: loop {
        let n = match src.take(buffer.as_mut_slice()) {
            Took::Some(n) => n,
            Took::End => return Ok(bytes),
            Took::Failed => return Err(ReadEnd::Failed),
        };
        if room < n as u64 {
            return Err(ReadEnd::TooLong);
        }
        room -= n as u64;
        let piece = &buffer.as_slice()[..n];
        match append(&mut bytes, piece) {
            Ok(()) => {}
            Err(Memory) => return Err(ReadEnd::Memory),
        }
    }
}
