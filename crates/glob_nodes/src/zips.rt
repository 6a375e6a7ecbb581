// Elements side by side.

ghost use Rattle.std.specs.Prelude.{◌≡◌, IfOk, min, zip};

use mz_base::Memory;
use std::alloc::Global;

/// The elements at the same places of two lists, as far as both go.
pub fn zipped<A: Copy, B: Copy>(alloc: Global, xs: &[A], ys: &[B]) -> Result<Vec<(A, B)>, Memory>
    ensures { IfOk result (λ ps. ps.items ≡ zip xs.now ys.now) }
{
    let mut ps = Vec::new(alloc);
    let n = lesser(xs.len(), ys.len());
    let mut k = 0;
    while k < n {
        ps.push((xs[k], ys[k]))?;
        k += 1;
    }
    Ok(ps)
}

fn lesser(m: usize, n: usize) -> usize
    ensures { result ≡ min m n }
{
    if m < n { m } else { n }
}
