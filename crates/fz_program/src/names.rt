// The names of a FlatZinc program, compared pair by pair.

ghost use Rattle.std.specs.Prelude.{◌↔◌, ◌++◌, map, string_bytes, IsTrue};
ghost use Rattle.std.specs.List.{Contains};
ghost use Rattle.fz_program.specs.Flat.{AreDistinct, array_item, array_labels, labels_of, variable};

use crate::program::{FzArray, FzName, FzVar};

/// Whether no name stands twice, of a variable or an array.
pub fn are_distinct(vars: &[FzVar], arrays: &[FzArray]) -> bool
    ensures { IsTrue result
        ↔ AreDistinct (labels_of (map variable vars.now) ++ array_labels (map array_item arrays.now)) }
{
    let mut rest = vars;
    while let [v, more @ ..] = rest {
        if is_name(more, arrays, &v.label) {
            return false;
        }
        rest = more;
    }
    are_distinct_arrays(arrays)
}

// Whether no array's name stands twice.
fn are_distinct_arrays(arrays: &[FzArray]) -> bool
    ensures { IsTrue result ↔ AreDistinct (array_labels (map array_item arrays.now)) }
{
    let mut rest = arrays;
    while let [a, more @ ..] = rest {
        if has_array(more, &a.label) {
            return false;
        }
        rest = more;
    }
    true
}

// Whether a variable or an array has the name.
fn is_name(vars: &[FzVar], arrays: &[FzArray], label: &FzName) -> bool
    ensures { IsTrue result ↔ Contains
        (labels_of (map variable vars.now) ++ array_labels (map array_item arrays.now))
        (string_bytes label.now.text) }
{
    has_label(vars, label) || has_array(arrays, label)
}

fn has_label(vars: &[FzVar], label: &FzName) -> bool
    ensures { IsTrue result
        ↔ Contains (labels_of (map variable vars.now)) (string_bytes label.now.text) }
{
    for v in vars {
        if v.label.text == label.text {
            return true;
        }
    }
    false
}

fn has_array(arrays: &[FzArray], label: &FzName) -> bool
    ensures { IsTrue result
        ↔ Contains (array_labels (map array_item arrays.now)) (string_bytes label.now.text) }
{
    for a in arrays {
        if a.label.text == label.text {
            return true;
        }
    }
    false
}
