// Parts of variables, and their nodes.

ghost use Rattle.std.specs.Prelude.{◌≡◌, false, map, true};
ghost use Rattle.mz_value.specs.Ranges.{AreCanonical, AreInLimit};
ghost use Rattle.mz_instance.specs.Instance.{AreParts, IsPart, IsTruthOver};
ghost use Rattle.mz_instance.specs.Parts.{AreNodes, IsNode};
ghost use Rattle.cases_instances.specs.Seen.{part, sort_in};

use crate::part::{PartSort, VarPart};
use mz_arena::{Arena, Id, NodeKind};
use mz_value::RangeSet;

// Whether a truth value is 0 or 1.
fn is_truth_over(sort: PartSort, set: &RangeSet) -> bool
    ensures truth { result ≡ true → IsTruthOver (sort_in sort) set.now }
    ensures canonical { AreCanonical set.now }
    ensures limited { AreInLimit set.now }
{
    let ranges = set.ranges();
    match sort {
        PartSort::Truth => matches!(ranges, [(0, 1)]),
        _ => true,
    }
}

fn is_part(p: &VarPart) -> bool
    ensures { result ≡ true → IsPart (part p.now) }
{
    is_truth_over(p.sort, &p.set)
}

/// Whether the truth values among the parts are 0 or 1.
pub(crate) fn are_parts(parts: &[VarPart]) -> bool
    ensures { result ≡ true → AreParts (map part parts.now) }
{
    let mut rest = parts;
    while let [p, more @ ..] = rest {
        if !is_part(p) {
            return false;
        }
        rest = more;
    }
    true
}
