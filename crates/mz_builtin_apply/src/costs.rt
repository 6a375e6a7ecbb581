// What rows cost.

ghost use Rattle.std.specs.Prelude.{◌≡◌, ◌+◌, ◌<◌, ◌^◌, drop, min, sum};
ghost use Rattle.mz_operations.specs.Costs as costs;

use mz_operations::{BoundingRow, MadeRow, Row, ScalarRow};

/// The greatest cost, 2^62.
const COST_LIMIT: u128 = 1 << 62;

#[tactic(auto, unfolding(mz_operations::specs::Costs::scalar_counts))]
fn scalar_counts(row: ScalarRow) -> Option<u64>
    ensures { result ≡ costs.scalar_counts row }
{
    match row {
        ScalarRow::Fold(_) => Some(0),
        ScalarRow::Extreme(_) => Some(0),
        ScalarRow::Quantified(_) => Some(0),
        ScalarRow::Count => Some(0),
        ScalarRow::Clause => Some(0),
        ScalarRow::Length => Some(0),
        _ => None,
    }
}

#[tactic(auto, unfolding(mz_operations::specs::Costs::made_counts))]
fn made_counts(row: MadeRow) -> Option<u64>
    ensures { result ≡ costs.made_counts row }
{
    match row {
        MadeRow::IndexSet { .. } => Some(0),
        MadeRow::Line => Some(0),
        MadeRow::Shaped(d) => Some(d),
        MadeRow::Concat => Some(0),
        MadeRow::SetToArray => Some(0),
        MadeRow::ArrayUnion => Some(0),
        MadeRow::ArrayIntersect => Some(0),
        MadeRow::AssertArray => Some(2),
        MadeRow::Join => Some(1),
        MadeRow::ConcatTexts => Some(0),
        _ => None,
    }
}

#[tactic(auto, unfolding(mz_operations::specs::Costs::bounding_counts))]
fn bounding_counts(row: BoundingRow) -> Option<u64>
    ensures { result ≡ costs.bounding_counts row }
{
    match row {
        BoundingRow::LbArray => Some(0),
        BoundingRow::UbArray => Some(0),
        _ => None,
    }
}

/// The first argument whose elements count; `None` where no argument counts, so that the row costs
/// 1 whatever its arguments are.
#[tactic(auto, unfolding(mz_operations::specs::Costs::counts_from))]
pub fn counts_from(row: Row) -> Option<u64>
    ensures { result ≡ costs.counts_from row }
{
    match row {
        Row::Scalar(r) => scalar_counts(r),
        Row::Made(r) => made_counts(r),
        Row::Bounding(r) => bounding_counts(r),
        Row::Show => None,
        Row::ShowArray => Some(0),
    }
}

/// The sizes from a place on.
fn sizes_from(k: u64, sizes: &[u64]) -> &[u64]
    ensures { result.now ≡ drop k sizes.now }
{
    if (k as usize) < sizes.len() {
        &sizes[k as usize..]
    } else {
        &[]
    }
}

#[tactic(auto, using(std::proofs::lemmas::List::Sums::sum_by_more))]
fn total(sizes: &[u64]) -> u128
    ensures value { result ≡ sum sizes.now }
    ensures bound { result < 2 ^ 127 }
{
    let mut total = 0;
    for size in sizes {
        total += *size as u128;
    }
    total
}

/// A number, or the greatest cost where it is greater.
fn limited(n: u128) -> u64
    ensures { result ≡ min costs.cost_limit n }
{
    n.min(COST_LIMIT) as u64
}

/// What a row costs: 1 and the elements of its arrays, and of the set of `set2array`. `sizes` has
/// the number of elements of each argument that is an array or a set. A greater cost than 2^62
/// counts as 2^62. Takes no memory.
#[tactic(auto, unfolding(mz_operations::specs::Costs::cost))]
pub fn cost_of(row: Row, sizes: &[u64]) -> u64
    ensures { result ≡ costs.cost row sizes.now }
{
    match counts_from(row) {
        None => 1,
        Some(k) => {
            let elements = total(sizes_from(k, sizes));
            limited(elements + 1)
        }
    }
}
