// The lines of arrays.

ghost use Rattle.std.specs.Prelude.{◌≡◌, ◌≤◌, codes, length};
ghost use Rattle.std.specs.List.{prefix_len};
ghost use Rattle.fz_items.specs.Gives.{Gives, with_rest};
ghost use Rattle.fz_text_read.specs.Lists.{closed_at};
ghost use Rattle.fz_text_read.specs.Arguments.{place_at};
ghost use Rattle.fz_text_read.specs.Lines.{array_name_at, from_colon, is_no_colon};

use crate::argument::ArrayPlace;
use crate::list::index;
use crate::name_table::NameTable;
use crate::parts::{Part, closed};
use crate::token::{expect, label, name};
use fz_items::Miss;
use fz_program::FzArray;
use std::alloc::Global;

/// How many bytes stand before the first colon.
fn colon_place(bytes: &[u8]) -> usize
    ensures value { result ≡ prefix_len is_no_colon bytes.now }
    ensures within { result ≤ length bytes.now }
{
    bytes.iter().take_while(|b| **b != b':').count()
}

/// The bytes from the first colon.
#[tactic(auto, unfolding(crate::specs::Lines::from_colon))]
fn from_colon(bytes: &[u8]) -> &[u8]
    ensures { result.now ≡ from_colon bytes.now }
{
    let n = colon_place(bytes);
    &bytes[n..]
}

/// The elements of an array and the end of its line.
fn elements<'a>(
    alloc: Global,
    names: &NameTable<'a>,
    bytes: &'a [u8],
) -> Result<(Vec<u64>, &'a [u8]), Miss>
    ensures { Gives (with_rest (λ v. v.items)) result (closed_at (codes "];\n") (place_at names.now) bytes.now) }
{
    closed(alloc, &ArrayPlace { names }, b"];\n", bytes)
}

/// An array's name, after `array [1..`, up to the ranges of its indices. How many elements there
/// are, and what they are, is told again after it.
#[tactic(auto, unfolding(crate::specs::Lines::array_name_at))]
fn array_name(bytes: &[u8]) -> Result<(&str, &[u8]), Miss>
    ensures { Gives (with_rest (λ n. n.now)) result (array_name_at bytes.now) }
{
    let rest = given!(expect(b": ", from_colon(bytes)));
    let (label, rest) = given!(name(rest));
    let rest = given!(expect(b" :: output_array([", rest));
    Ok((label, rest))
}

/// An array's line, after `array [1..`.
#[derive(Drop)]
pub(crate) struct ArrayLine<'t, 'a> {
    pub alloc: Global,
    pub names: &'t NameTable<'a>,
}

impl<'t, 'a> Part<'a> for ArrayLine<'t, 'a> {
    ghost use Rattle.fz_program.specs.Flat.{ArrayItem, array_item};
    ghost use Rattle.fz_text_read.specs.Lines.{array_item_at};

    type Item = FzArray;

    ghost Seen = { ArrayItem };

    ghost seen = { array_item };

    ghost read_at = { λ p. array_item_at p.names.now };

    #[tactic(auto, unfolding(crate::specs::Lines::array_item_at))]
    fn read(&self, bytes: &'a [u8]) -> Result<(FzArray, &'a [u8]), Miss> {
        let (name, rest) = given!(array_name(bytes));
        let label = given!(label(self.alloc, name));
        let (index, rest) = given!(index(self.alloc, rest));
        let (items, rest) = given!(elements(self.alloc, self.names, rest));
        Ok((
            FzArray {
                label,
                index,
                items,
            },
            rest,
        ))
    }
}
