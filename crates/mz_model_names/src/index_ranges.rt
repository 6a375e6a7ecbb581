// The index ranges that are declared, and how many places they have.

ghost use Rattle.std.specs.Prelude.{◌≡◌, IfOk, None, map, [], unwrap_or};
ghost use Rattle.mz_operations.specs.Arrays as operations;
ghost use Rattle.mz_meaning.specs.Arrays as arrays;
ghost use Rattle.mz_meaning.specs.Cells as cells;
ghost use Rattle.mz_eval_declared.specs.Wants.{wanted, wants_of};

use mz_base::Memory;
use mz_builtin_arguments::end_of;
use mz_eval_cells::undefined;
use mz_eval_declared::{Want, declared_count};
use mz_operations::Side;
use mz_value::RangeSet;
use std::alloc::Global;

fn range_of_set(s: &RangeSet) -> (i64, i64)
    ensures { result ≡ operations.index_range s.now }
{
    let least = end_of(Side::Least, s);
    let greatest = end_of(Side::Greatest, s);
    (least.unwrap_or(1), greatest.unwrap_or(0))
}

fn range_for(w: &Want) -> (i64, i64)
    ensures { result ≡ arrays.range_for (wanted w.now) None }
{
    match w {
        Want::Anything => (1, 0),
        Want::Missing => (1, 0),
        Want::Within(s) => range_of_set(s),
    }
}

/// The declared index ranges of an array without a value, or without a shape.
#[tactic(auto, using(crate::proofs::Declared::ranges_each))]
pub(crate) fn index_ranges(alloc: Global, ws: &[Want]) -> Result<Vec<(i64, i64)>, Memory>
    ensures { IfOk result (λ v. v.items ≡ arrays.declared_ranges (wants_of ws.now) []) }
{
    let ranges = each_range(alloc, ws)?;
    Ok(ranges)
}

fn each_range(alloc: Global, ws: &[Want]) -> Result<Vec<(i64, i64)>, Memory>
    ensures { IfOk result (λ v. v.items ≡ map (λ w. arrays.range_for w None) (wants_of ws.now)) }
{
    let mut ranges = Vec::new(alloc);
    for w in ws {
        ranges.push(range_for(w))?;
    }
    Ok(ranges)
}

#[tactic(auto, using(crate::proofs::Declared::same_count))]
fn counted(alloc: Global, ws: &[Want]) -> Result<u64, Memory>
    ensures { IfOk result (λ n. n ≡ arrays.declared_count (wants_of ws.now) cells.undefined) }
{
    let none = undefined();
    let n = declared_count(alloc, ws, &none)?;
    if n >= 1 << 63 {
        return Err(Memory);
    }
    Ok(n)
}

/// How many places they have. Out of memory too where they have 2^63 or more, and where no index sets
/// are declared.
pub(crate) fn place_count(alloc: Global, ws: &[Want]) -> Result<u64, Memory>
    ensures { IfOk result (λ n. n ≡ operations.place_count (arrays.declared_ranges (wants_of ws.now) [])) }
{
    match ws {
        [] => Err(Memory),
        [_, ..] => counted(alloc, ws),
    }
}
