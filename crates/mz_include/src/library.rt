// The files of the built-in library, which are included and not fetched.

ghost use Rattle.std.specs.Prelude.{◌≡◌};
ghost use Rattle.mz_include.specs.Library.{is_library};

/// The names of the library's files: the whole library, and one file for each global constraint.
const LIBRARY: [&str; 39] = [
    "globals.mzn",
    "all_different.mzn",
    "alldifferent.mzn",
    "alldifferent_except_0.mzn",
    "all_equal.mzn",
    "increasing.mzn",
    "decreasing.mzn",
    "strictly_increasing.mzn",
    "strictly_decreasing.mzn",
    "lex_less.mzn",
    "lex_lesseq.mzn",
    "sort.mzn",
    "value_precede.mzn",
    "maximum.mzn",
    "minimum.mzn",
    "member.mzn",
    "count.mzn",
    "at_least.mzn",
    "at_most.mzn",
    "exactly.mzn",
    "among.mzn",
    "nvalue.mzn",
    "global_cardinality.mzn",
    "sliding_sum.mzn",
    "int_set_channel.mzn",
    "link_set_to_booleans.mzn",
    "all_disjoint.mzn",
    "partition_set.mzn",
    "cumulative.mzn",
    "disjunctive.mzn",
    "disjunctive_strict.mzn",
    "diffn.mzn",
    "bin_packing.mzn",
    "bin_packing_load.mzn",
    "element.mzn",
    "table.mzn",
    "regular.mzn",
    "inverse.mzn",
    "circuit.mzn",
];

/// Whether a name, as it stands in an include item, is that of a file of the built-in library.
#[tactic(auto, unfolding(crate::specs::Library::is_library))]
pub fn is_library(name: &str) -> bool
    ensures { result ≡ is_library name.now }
{
    LIBRARY.contains(&name)
}
