// Tasks in time. A task is its start and its duration.

ghost use Rattle.std.specs.Prelude.{◌≡◌};
ghost use Rattle.std.specs.List.{list_all};
ghost use Rattle.mz_globals.specs.Scheduling as words;

/// The end of a task, at which it no longer runs.
fn end_of(k: &(i64, i64)) -> i128
    ensures { result ≡ words.end_of k.now }
{
    k.0 as i128 + k.1 as i128
}

fn runs_at(t: i64, k: &(i64, i64)) -> bool
    ensures { result ≡ words.runs_at t k.now }
{
    k.0 <= t && (t as i128) < end_of(k)
}

/// What a task with its use takes at a time.
fn taken_at(t: i64, u: &((i64, i64), i64)) -> i64
    ensures { result ≡ words.taken_at t u.now }
{
    if runs_at(t, &u.0) { u.1 } else { 0 }
}

/// What the tasks that run at a time use together.
#[tactic(auto, using(glob_order::proofs::Sums::summed_all))]
fn used_at(us: &[((i64, i64), i64)], t: i64) -> i128
    ensures { result ≡ words.used_at us.now t }
{
    let mut acc = 0;
    for u in us {
        acc += taken_at(t, u) as i128;
    }
    acc
}

fn start_fits(us: &[((i64, i64), i64)], most: i64, u: &((i64, i64), i64)) -> bool
    ensures { result ≡ words.start_fits us.now most u.now }
{
    used_at(us, u.0.0) <= most as i128
}

fn all_fit(us: &[((i64, i64), i64)], most: i64) -> bool
    ensures { result ≡ list_all (words.start_fits us.now most) us.now }
{
    us.iter().all(|u| start_fits(us, most, u))
}

/// Whether at no time more is used than there is.
pub(crate) fn is_cumulative(us: &[((i64, i64), i64)], most: i64) -> bool
    ensures { result ≡ words.is_cumulative us.now most }
{
    0 <= most && all_fit(us, most)
}

/// Whether one ends at or before the other's start.
fn one_after(j: &(i64, i64), k: &(i64, i64)) -> bool
    ensures { result ≡ words.one_after j.now k.now }
{
    end_of(j) <= k.0 as i128 || end_of(k) <= j.0 as i128
}

fn one_after_or_idle(j: &(i64, i64), k: &(i64, i64)) -> bool
    ensures { result ≡ words.one_after_or_idle j.now k.now }
{
    !(0 < j.1) || (!(0 < k.1) || one_after(j, k))
}

fn is_free(j: &(i64, i64), others: &[(i64, i64)]) -> bool
    ensures { result ≡ list_all (words.one_after_or_idle j.now) others.now }
{
    others.iter().all(|k| one_after_or_idle(j, k))
}

/// Whether of two tasks with durations above 0 one ends at or before the other's start.
pub(crate) fn is_disjunctive(ks: &[(i64, i64)]) -> bool
    ensures { result ≡ words.is_disjunctive ks.now }
{
    for k in 0..ks.len() {
        if !is_free(&ks[k], &ks[k + 1..]) {
            return false;
        }
    }
    true
}

fn is_strictly_free(j: &(i64, i64), others: &[(i64, i64)]) -> bool
    ensures { result ≡ list_all (words.one_after j.now) others.now }
{
    others.iter().all(|k| one_after(j, k))
}

/// Whether of any two tasks one ends at or before the other's start.
pub(crate) fn is_strictly_disjunctive(ks: &[(i64, i64)]) -> bool
    ensures { result ≡ words.is_strictly_disjunctive ks.now }
{
    for k in 0..ks.len() {
        if !is_strictly_free(&ks[k], &ks[k + 1..]) {
            return false;
        }
    }
    true
}

fn side_by_side(p: &((i64, i64), (i64, i64)), q: &((i64, i64), (i64, i64))) -> bool
    ensures { result ≡ words.side_by_side p.now q.now }
{
    one_after(&p.0, &q.0) || one_after(&p.1, &q.1)
}

fn is_clear(p: &((i64, i64), (i64, i64)), others: &[((i64, i64), (i64, i64))]) -> bool
    ensures { result ≡ list_all (words.side_by_side p.now) others.now }
{
    others.iter().all(|q| side_by_side(p, q))
}

/// Whether no two boxes overlap. A box is its extents in x and in y, each as a task.
pub(crate) fn is_diffn(boxes: &[((i64, i64), (i64, i64))]) -> bool
    ensures { result ≡ words.is_diffn boxes.now }
{
    for k in 0..boxes.len() {
        if !is_clear(&boxes[k], &boxes[k + 1..]) {
            return false;
        }
    }
    true
}
