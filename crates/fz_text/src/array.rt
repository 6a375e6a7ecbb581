// The lines of arrays. Each function that takes `out` appends its part to it; after an `Err` some
// prefix of it may stand there.

ghost use Rattle.std.specs.Prelude.{◌≡◌, ◌++◌, ◌∷◌, codes, decimal, map, None, OnOk, slice_get};
ghost use Rattle.std.specs.List.{flat_map};
ghost use Rattle.mz_interval.specs.Ends.{hull_of_some};
ghost use Rattle.fz_program.specs.Flat.{array_item, labels_of, variable};
ghost use Rattle.fz_text.specs.Spelling.{
  array_line,
  commas,
  domain_ends,
  element_by,
  element_of,
  element_text,
  ends_of,
  hull,
  hull_text,
  interval,
  label_at,
  set_ends,
};

use crate::spell::{push_interval, push_label, push_text};
use fz_program::{Domain, FzArray, FzVar};
use itoa::Buffer;
use std::alloc::AllocError;

pub(crate) fn push_array(vars: &[FzVar], a: &FzArray, out: &mut Vec<u8>) -> Result<(), AllocError>
    ensures { OnOk result (out.new.items
        ≡ out.old.items ++ array_line (map variable vars.now) (array_item a.now)) }
{
    given!(push_text(b"array [1..", out));
    given!(push_count(a.items.len(), out));
    given!(push_text(b"] of var ", out));
    given!(push_element(vars, &a.items, out));
    given!(push_text(b": ", out));
    given!(push_text(a.label.text.as_bytes(), out));
    given!(push_text(b" :: output_array([", out));
    given!(push_intervals(&a.index, out));
    given!(push_text(b"]) = [", out));
    given!(push_labels(vars, &a.items, out));
    push_text(b"];\n", out)
}

fn push_count(n: usize, out: &mut Vec<u8>) -> Result<(), AllocError>
    ensures { OnOk result (out.new.items ≡ out.old.items ++ decimal n) }
{
    let mut buffer = Buffer::new();
    push_text(buffer.format(n).as_bytes(), out)
}

// What the elements are: `int` where there is none.
#[tactic(auto, unfolding(crate::specs::Spelling::element_text))]
fn push_element(vars: &[FzVar], items: &[u64], out: &mut Vec<u8>) -> Result<(), AllocError>
    ensures { OnOk result (out.new.items
        ≡ out.old.items ++ element_text (map variable vars.now) items.now) }
{
    match items {
        [] => push_text(b"int", out),
        [first, ..] => push_element_by(vars, items, *first, out),
    }
}

// The same, by the variable at a place.
fn push_element_by(
    vars: &[FzVar],
    items: &[u64],
    first: u64,
    out: &mut Vec<u8>,
) -> Result<(), AllocError>
    ensures { OnOk result (out.new.items ≡ out.old.items
        ++ element_by (map variable vars.now) items.now (slice_get (map variable vars.now) first)) }
{
    match vars.get(first as usize) {
        Some(v) => push_element_of(vars, items, &v.domain, out),
        None => push_text(b"int", out),
    }
}

// The same, by its domain.
#[tactic(auto, unfolding(crate::specs::Spelling::element_of))]
fn push_element_of(
    vars: &[FzVar],
    items: &[u64],
    domain: &Domain,
    out: &mut Vec<u8>,
) -> Result<(), AllocError>
    ensures { OnOk result (out.new.items
        ≡ out.old.items ++ element_of (map variable vars.now) items.now domain.now) }
{
    match domain {
        Domain::Bool => push_text(b"bool", out),
        Domain::Ints(_) => push_text(b"int", out),
        Domain::SetOf(_) => push_hull(vars, items, out),
    }
}

fn push_hull(vars: &[FzVar], items: &[u64], out: &mut Vec<u8>) -> Result<(), AllocError>
    ensures { OnOk result (out.new.items ≡ out.old.items
        ++ codes "set of " ++ hull_text (hull (map variable vars.now) None items.now)) }
{
    given!(push_text(b"set of ", out));
    push_ends(hull(vars, items), out)
}

// A range by its ends, `1..0` where there is none.
fn push_ends(ends: Option<(i64, i64)>, out: &mut Vec<u8>) -> Result<(), AllocError>
    ensures { OnOk result (out.new.items ≡ out.old.items ++ hull_text ends) }
{
    match ends {
        Some(e) => push_interval(e, out),
        None => push_text(b"1..0", out),
    }
}

// The hull of the sets that the elements are subsets of.
fn hull(vars: &[FzVar], items: &[u64]) -> Option<(i64, i64)>
    ensures { result ≡ hull (map variable vars.now) None items.now }
{
    let mut all = None;
    for k in items {
        all = joined(all, set_ends(vars, *k));
    }
    all
}

// The smallest range that holds each that is there.
fn joined(a: Option<(i64, i64)>, b: Option<(i64, i64)>) -> Option<(i64, i64)>
    ensures { result ≡ hull_of_some a b }
{
    match a {
        None => b,
        Some(x) => match b {
            None => Some(x),
            Some(y) => Some((x.0.min(y.0), x.1.max(y.1))),
        },
    }
}

// The ends of the set that the variable at a place is a subset of.
#[tactic(auto, unfolding(crate::specs::Spelling::set_ends))]
fn set_ends(vars: &[FzVar], k: u64) -> Option<(i64, i64)>
    ensures { result ≡ set_ends (slice_get (map variable vars.now) k) }
{
    match vars.get(k as usize) {
        Some(v) => domain_ends(&v.domain),
        None => None,
    }
}

fn domain_ends(domain: &Domain) -> Option<(i64, i64)>
    ensures { result ≡ domain_ends domain.now }
{
    match domain {
        Domain::SetOf(s) => ends_of(s.ranges()),
        _ => None,
    }
}

#[tactic(auto, unfolding(crate::specs::Spelling::ends_of, mz_operations::specs::Sets::end_of))]
fn ends_of(ranges: &[(i64, i64)]) -> Option<(i64, i64)>
    ensures { result ≡ ends_of ranges.now }
{
    match ranges.first() {
        None => None,
        Some(first) => match ranges.last() {
            None => None,
            Some(last) => Some((first.0, last.1)),
        },
    }
}

// Index ranges with commas between them.
fn push_intervals(ranges: &[(i64, i64)], out: &mut Vec<u8>) -> Result<(), AllocError>
    ensures { OnOk result (out.new.items ≡ out.old.items ++ commas (map interval ranges.now)) }
{
    match ranges {
        [] => Ok(()),
        [first, rest @ ..] => {
            given!(push_interval(*first, out));
            push_more_intervals(rest, out)
        }
    }
}

// Index ranges, with a comma before each.
fn push_more_intervals(ranges: &[(i64, i64)], out: &mut Vec<u8>) -> Result<(), AllocError>
    ensures { OnOk result (out.new.items
        ≡ out.old.items ++ flat_map (λ r. 44 ∷ interval r) ranges.now) }
{
    for r in ranges {
        given!(push_text(b",", out));
        given!(push_interval(*r, out));
    }
    Ok(())
}

// Names of variables with commas between them.
fn push_labels(vars: &[FzVar], items: &[u64], out: &mut Vec<u8>) -> Result<(), AllocError>
    ensures { OnOk result (out.new.items
        ≡ out.old.items ++ commas (map (label_at (labels_of (map variable vars.now))) items.now)) }
{
    match items {
        [] => Ok(()),
        [first, rest @ ..] => {
            given!(push_label(vars, *first, out));
            push_more_labels(vars, rest, out)
        }
    }
}

// Names of variables, with a comma before each.
fn push_more_labels(vars: &[FzVar], items: &[u64], out: &mut Vec<u8>) -> Result<(), AllocError>
    ensures { OnOk result (out.new.items ≡ out.old.items
        ++ flat_map (λ k. 44 ∷ label_at (labels_of (map variable vars.now)) k) items.now) }
{
    for k in items {
        given!(push_text(b",", out));
        given!(push_label(vars, *k, out));
    }
    Ok(())
}
