// Comparisons of integers, by the ends of their ranges.

ghost use Rattle.std.specs.Prelude.{◌≡◌, ◌≤ℤ◌, ◌<ℤ◌, IfSome, true};
ghost use Rattle.mz_arena.specs.declared.node.NodeKind.TheVariants.{Eq, Le, Lt, Ne};
ghost use Rattle.flat_reif_rows.specs.Folds.{IsCompared};

use mz_arena::NodeKind;

// Whether each number of the first range is at most each of the second.
fn is_at_most(e: (i64, i64), f: (i64, i64)) -> bool
    ensures { result ≡ true → e.1 ≤ℤ f.0 }
{
    e.1 <= f.0
}

// Whether each number of the first range is less than each of the second.
fn is_below(e: (i64, i64), f: (i64, i64)) -> bool
    ensures { result ≡ true → e.1 <ℤ f.0 }
{
    e.1 < f.0
}

// Whether a comparison of this kind has one answer for all numbers in these ranges, and which.
pub(crate) fn compared(kind: NodeKind, e: (i64, i64), f: (i64, i64)) -> Option<bool>
    ensures { IfSome result (IsCompared kind e f) }
{
    match kind {
        NodeKind::Eq => are_equal(e, f),
        NodeKind::Ne => differ(e, f),
        NodeKind::Le => at_most(e, f),
        NodeKind::Lt => below(e, f),
        _ => None,
    }
}

fn are_equal(e: (i64, i64), f: (i64, i64)) -> Option<bool>
    ensures { IfSome result (IsCompared Eq e f) }
{
    if is_below(e, f) || is_below(f, e) {
        Some(false)
    } else if is_at_most(e, f) && is_at_most(f, e) {
        Some(true)
    } else {
        None
    }
}

fn differ(e: (i64, i64), f: (i64, i64)) -> Option<bool>
    ensures { IfSome result (IsCompared Ne e f) }
{
    if is_below(e, f) || is_below(f, e) {
        Some(true)
    } else if is_at_most(e, f) && is_at_most(f, e) {
        Some(false)
    } else {
        None
    }
}

fn at_most(e: (i64, i64), f: (i64, i64)) -> Option<bool>
    ensures { IfSome result (IsCompared Le e f) }
{
    if is_at_most(e, f) {
        Some(true)
    } else if is_below(f, e) {
        Some(false)
    } else {
        None
    }
}

fn below(e: (i64, i64), f: (i64, i64)) -> Option<bool>
    ensures { IfSome result (IsCompared Lt e f) }
{
    if is_below(e, f) {
        Some(true)
    } else if is_at_most(f, e) {
        Some(false)
    } else {
        None
    }
}
