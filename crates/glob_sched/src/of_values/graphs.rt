// Permutations and rounds.

ghost use Rattle.std.specs.Prelude.{◌≡◌, IfOk};
ghost use Rattle.std.specs.List.{list_all};
ghost use Rattle.mz_globals.specs.Lists.{numbered};
ghost use Rattle.mz_globals.specs.Graphs as words;
ghost use Rattle.glob_order.specs.Views.{numbers_of};

use crate::of_values::tables::element_at;
use glob_order::of_values::{PlacedNumbers, all_different, are_indices, same};
use std::alloc::{AllocError, Global};

/// Whether of two elements, each with its index, either both lead to each other or none does.
fn is_two_way(p: &(i128, i64), j: i128, y: i64) -> bool
    ensures { result ≡ words.is_two_way p.now (j, y) }
{
    same(p.1 as i128 == j, y as i128 == p.0)
}

/// Whether an element with its index leads to just those elements that lead back; the first of them
/// has this index.
fn leads_back(p: &(i128, i64), first: i64, ys: &[i64]) -> bool
    ensures { result ≡ list_all (words.is_two_way p.now) (numbered first ys.now) }
{
    let mut j = first as i128;
    for y in ys {
        if !is_two_way(p, j, *y) {
            return false;
        }
        j += 1;
    }
    true
}

fn all_lead_back(first: i64, xs: &[i64], g: &PlacedNumbers) -> bool
    ensures { result ≡ list_all (λ p. list_all (words.is_two_way p) (numbered g.now.indices.0 g.now.items.items)) (numbered first xs.now) }
{
    let mut i = first as i128;
    for x in xs {
        if !leads_back(&(i, *x), g.indices.0, &g.items) {
            return false;
        }
        i += 1;
    }
    true
}

/// Whether each array leads back where the other leads.
pub(crate) fn are_inverse(f: &PlacedNumbers, g: &PlacedNumbers) -> bool
    ensures { result ≡ words.are_inverse (numbers_of f.now) (numbers_of g.now) }
{
    are_indices(&g.indices, &f.items)
        && (are_indices(&f.indices, &g.items) && all_lead_back(f.indices.0, &f.items, g))
}

/// Whether from the first index on each step leads to an index that wasn't left before, and the
/// last one back to the first.
#[tactic(auto, using(crate::proofs::Walks::no_round, crate::proofs::Walks::whole_round, crate::proofs::Walks::goes_on))]
pub(crate) fn is_circuit(alloc: Global, x: &PlacedNumbers) -> Result<bool, AllocError>
    ensures { IfOk result (λ b. b ≡ words.is_circuit (numbers_of x.now)) }
{
    let mut path = Vec::new(alloc);
    let mut i = x.indices.0;
    for _step in 0..x.items.len() {
        let Some(next) = element_at(x, i) else {
            return Ok(false);
        };
        path.push(i)?;
        i = next;
    }
    Ok(all_different(&path) && i == x.indices.0)
}
