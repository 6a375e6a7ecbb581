// Sums of consecutive values.

ghost use Rattle.std.specs.Prelude.{◌≡◌, ◌≤◌, length};
ghost use Rattle.std.specs.List.{list_all};
ghost use Rattle.mz_globals.specs.Lists.{total, windows};
ghost use Rattle.mz_globals.specs.Counting as words;

/// The sum of the values.
#[tactic(auto, using(glob_order::proofs::Sums::summed_all))]
fn sum(xs: &[i64]) -> i128
    ensures { result ≡ total (λ x. x) xs.now }
{
    let mut acc = 0;
    for x in xs {
        acc += *x as i128;
    }
    acc
}

fn sum_fits(low: i64, up: i64, xs: &[i64]) -> bool
    ensures { result ≡ words.sum_fits low up xs.now }
{
    let n = sum(xs);
    low as i128 <= n && n <= up as i128
}

/// Whether each sum of as many consecutive values lies from `low` to `up`.
#[tactic(auto, using(crate::proofs::WindowLists::window_fails, crate::proofs::WindowLists::window_holds, crate::proofs::WindowLists::windows_end))]
fn slides_by(low: i64, up: i64, size: usize, xs: &[i64]) -> bool
    requires { size ≤ length xs.now }
    ensures { result ≡ list_all (words.sum_fits low up) (windows size xs.now) }
{
    for k in 0..xs.len() - size + 1 {
        if !sum_fits(low, up, &xs[k..k + size]) {
            return false;
        }
    }
    true
}

/// Whether each sum of `seq` consecutive values lies from `low` to `up`; none is where `seq` is
/// greater than the number of values.
#[tactic(auto, using(crate::proofs::WindowLists::none_longer))]
pub(crate) fn slides(low: i64, up: i64, seq: i64, xs: &[i64]) -> bool
    ensures { result ≡ words.slides low up seq xs.now }
{
    let size = seq.unsigned_abs();
    if size as u128 <= xs.len() as u128 {
        slides_by(low, up, size as usize, xs)
    } else {
        true
    }
}
