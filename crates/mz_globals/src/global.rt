// The globals of the language, by their form.

use mz_operations::{Comparison, Side};

/// A global: a constraint, or the function `count`.
#[derive(Clone, Copy, PartialEq, Eq)]
pub enum Global {
    /// `all_different`, `alldifferent`.
    AllDifferent,
    /// `alldifferent_except_0`.
    DifferentButZero,
    /// `all_equal`.
    AllEqual,
    /// `increasing`, `decreasing`, `strictly_increasing`, `strictly_decreasing`: how each value
    /// stands to the next.
    Ordered(Comparison),
    /// `lex_less`; with `equal` set, `lex_lesseq`.
    Lex { equal: bool },
    /// `sort`.
    Sort,
    /// `value_precede`.
    Precede,
    /// `maximum`, `minimum`.
    Extreme(Side),
    /// `member`.
    Member,
    /// `count` of two arguments, the function.
    CountOf,
    /// `count` of three arguments.
    Count,
    /// `at_least`, `at_most`, `exactly`.
    Times(Relation),
    /// `among`.
    Among,
    /// `nvalue`.
    DifferentValues,
    /// `global_cardinality`.
    Cardinality,
    /// `sliding_sum`.
    SlidingSum,
    /// `int_set_channel`.
    Channel,
    /// `link_set_to_booleans`.
    Link,
    /// `all_disjoint`.
    Disjoint,
    /// `partition_set`.
    Partition,
    /// `cumulative`.
    Cumulative,
    /// `disjunctive`.
    Disjunctive,
    /// `disjunctive_strict`.
    DisjunctiveStrict,
    /// `diffn`.
    Diffn,
    /// `bin_packing`.
    Packing,
    /// `bin_packing_load`.
    PackingLoad,
    /// `element`.
    Element,
    /// `table`.
    Table,
    /// `regular`.
    Regular,
    /// `inverse`.
    Inverse,
    /// `circuit`.
    Circuit,
}

/// How a number of places stands to a given number.
#[derive(Clone, Copy, PartialEq, Eq)]
pub enum Relation {
    AtLeast,
    AtMost,
    Exactly,
}
