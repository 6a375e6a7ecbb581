// Lists of parts with commas between them, and lines that begin with the same text, whatever a part is.

ghost use Rattle.std.specs.Prelude.{map};
ghost use Rattle.fz_items.specs.Gives.{Gives, with_rest};
ghost use Rattle.fz_text_read.specs.Lists.{all_at, closed_at, filled_at};
ghost use Rattle.fz_text_read.specs.Lines.{every_at};

use crate::token::{behind, expect};
use fz_items::Miss;
use std::alloc::Global;

/// What reads one part.
pub(crate) trait Part<'a> {
    ghost use Rattle.std.specs.Prelude.{List, ℕ};
    ghost use Rattle.fz_items.specs.Gives.{Gives, with_rest};
    ghost use Rattle.fz_items.specs.Items.{Read};

    type Item: Drop;

    // What a part stands for.
    ghost Seen: { Type 0 };

    ghost seen: { Self.Item → Seen };

    // What the first bytes are read to.
    ghost read_at: { Self → List ℕ → Read Seen };

    fn read(&self, bytes: &'a [u8]) -> Result<(Self::Item, &'a [u8]), Miss>
        ensures { Gives (with_rest seen) result (read_at self.now bytes.now) };
}

// Parts with commas between them. Each takes a byte.
fn all<'a, P: Part<'a>>(
    alloc: Global,
    part: &P,
    bytes: &'a [u8],
) -> Result<(Vec<P::Item>, &'a [u8]), Miss>
    ensures { Gives (with_rest (λ v. map P.seen v.items)) result (all_at (P.read_at part.now) bytes.now) }
{
    let mut items = Vec::new(alloc);
    let mut rest = bytes;
    for _turn in 0..bytes.len() {
        let (x, next) = match part.read(rest) {
            Ok(read) => read,
            Err(miss) => return Err(miss),
        };
        items.push(x)?;
        match behind(b",", next) {
            Some(more) => rest = more,
            None => return Ok((items, next)),
        }
    }
    Err(Miss::Unfit)
}

/// Parts with commas between them, and the text that closes them.
#[tactic(auto, unfolding(crate::specs::Lists::filled_at))]
pub(crate) fn filled<'a, P: Part<'a>>(
    alloc: Global,
    part: &P,
    close: &[u8],
    bytes: &'a [u8],
) -> Result<(Vec<P::Item>, &'a [u8]), Miss>
    ensures { Gives (with_rest (λ v. map P.seen v.items)) result (filled_at close.now (P.read_at part.now) bytes.now) }
{
    let (items, rest) = given!(all(alloc, part, bytes));
    let rest = given!(expect(close, rest));
    Ok((items, rest))
}

/// The same, or no part at all.
#[tactic(auto, unfolding(crate::specs::Lists::closed_at))]
pub(crate) fn closed<'a, P: Part<'a>>(
    alloc: Global,
    part: &P,
    close: &[u8],
    bytes: &'a [u8],
) -> Result<(Vec<P::Item>, &'a [u8]), Miss>
    ensures { Gives (with_rest (λ v. map P.seen v.items)) result (closed_at close.now (P.read_at part.now) bytes.now) }
{
    match behind(close, bytes) {
        Some(rest) => Ok((Vec::new(alloc), rest)),
        None => filled(alloc, part, close, bytes),
    }
}

/// Lines, as long as they begin with a text. Each takes a byte.
pub(crate) fn lines<'a, P: Part<'a>>(
    alloc: Global,
    part: &P,
    head: &[u8],
    bytes: &'a [u8],
) -> Result<(Vec<P::Item>, &'a [u8]), Miss>
    ensures { Gives (with_rest (λ v. map P.seen v.items)) result (every_at head.now (P.read_at part.now) bytes.now) }
{
    let mut items = Vec::new(alloc);
    let mut rest = bytes;
    for _turn in 0..bytes.len() {
        let inside = match behind(head, rest) {
            Some(inside) => inside,
            None => return Ok((items, rest)),
        };
        let (x, next) = match part.read(inside) {
            Ok(read) => read,
            Err(miss) => return Err(miss),
        };
        items.push(x)?;
        rest = next;
    }
    Ok((items, rest))
}
