// Things in bins. A thing is its bin and its weight.

ghost use Rattle.std.specs.Prelude.{◌≡◌};
ghost use Rattle.std.specs.List.{list_all};
ghost use Rattle.mz_globals.specs.Lists.{numbered};
ghost use Rattle.mz_globals.specs.Scheduling as words;
ghost use Rattle.glob_order.specs.Views.{numbers_of};

use glob_order::of_values::{PlacedNumbers, is_index};

fn weight_in(bin: i128, thing: &(i64, i64)) -> i64
    ensures { result ≡ words.weight_in bin thing.now }
{
    if thing.0 as i128 == bin { thing.1 } else { 0 }
}

/// The weights in a bin.
#[tactic(auto, using(glob_order::proofs::Sums::summed_all))]
fn load(things: &[(i64, i64)], bin: i128) -> i128
    ensures { result ≡ words.load things.now bin }
{
    let mut acc = 0;
    for thing in things {
        acc += weight_in(bin, thing) as i128;
    }
    acc
}

fn bin_fits(things: &[(i64, i64)], most: i64, thing: &(i64, i64)) -> bool
    ensures { result ≡ words.bin_fits things.now most thing.now }
{
    load(things, thing.0 as i128) <= most as i128
}

fn all_fit(things: &[(i64, i64)], most: i64) -> bool
    ensures { result ≡ list_all (words.bin_fits things.now most) things.now }
{
    things.iter().all(|thing| bin_fits(things, most, thing))
}

/// Whether no bin has a greater load.
pub(crate) fn packs(most: i64, things: &[(i64, i64)]) -> bool
    ensures { result ≡ words.packs most things.now }
{
    0 <= most && all_fit(things, most)
}

fn is_loaded(loads: &PlacedNumbers, thing: &(i64, i64)) -> bool
    ensures { result ≡ words.is_loaded (numbers_of loads.now) thing.now }
{
    is_index(&loads.indices, thing.0)
}

fn all_loaded(loads: &PlacedNumbers, things: &[(i64, i64)]) -> bool
    ensures { result ≡ list_all (words.is_loaded (numbers_of loads.now)) things.now }
{
    things.iter().all(|thing| is_loaded(loads, thing))
}

fn is_load(things: &[(i64, i64)], bin: i128, n: i64) -> bool
    ensures { result ≡ words.is_load things.now (bin, n) }
{
    load(things, bin) == n as i128
}

/// Whether each bin has its load; the first is that of bin `first`.
fn all_loads(things: &[(i64, i64)], first: i64, loads: &[i64]) -> bool
    ensures { result ≡ list_all (words.is_load things.now) (numbered first loads.now) }
{
    let mut bin = first as i128;
    for n in loads {
        if !is_load(things, bin, *n) {
            return false;
        }
        bin += 1;
    }
    true
}

/// Whether each thing lies in a bin that has a load, and the loads are the bins' weights.
pub(crate) fn are_loads(loads: &PlacedNumbers, things: &[(i64, i64)]) -> bool
    ensures { result ≡ words.are_loads (numbers_of loads.now) things.now }
{
    all_loaded(loads, things) && all_loads(things, loads.indices.0, &loads.items)
}
