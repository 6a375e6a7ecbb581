// The table: one line for each operator, built-in and global in each of its forms.

ghost use Rattle.std.specs.Prelude.{◌≡◌, ◌≤◌, length, map};
ghost use Rattle.mz_builtin.specs.Entries.{plain_line};
ghost use Rattle.mz_builtin.specs.Table as definition;

use crate::entry::Of::{Bool, Int, OptBool, OptInt, OptT, SetInt, SetT, T, Text};
use crate::entry::Param::{Array, IndexSet, One, Par, ParSized, Sized};
use crate::entry::{Letter, Line, Mark, Outcome};

// A line has the name, letter, mark, parameters and result.
macro_rules! lines {
    ($($name:literal $letter:ident $mark:ident [$($param:expr),*] $result:ident($of:expr);)*) => {
        &[$(Line {
            name: $name,
            letter: Letter::$letter,
            mark: Mark::$mark,
            params: &[$($param),*],
            result: Outcome::$result($of),
        }),*]
    };
}

/// The operators and built-ins: their numbers are their places, from 0.
#[tactic(auto, unfolding(crate::specs::Table::built_ins))]
pub fn built_ins() -> &'static [Line]
    ensures lines { map plain_line result.now ≡ definition.built_ins }
    ensures count { length result.now ≤ 10000 }
{
    lines! {
        // logic
        "<->" None Var [One(Bool), One(Bool)] One(Bool);
        "->" None Var [One(Bool), One(Bool)] One(Bool);
        "<-" None Var [One(Bool), One(Bool)] One(Bool);
        "\\/" None Var [One(Bool), One(Bool)] One(Bool);
        "xor" None Var [One(Bool), One(Bool)] One(Bool);
        "/\\" None Var [One(Bool), One(Bool)] One(Bool);
        "not" None Var [One(Bool)] One(Bool);
        // comparisons
        "=" Any Var [One(T), One(T)] One(Bool);
        "!=" Any Var [One(T), One(T)] One(Bool);
        "<" Scalar Var [One(T), One(T)] One(Bool);
        "<=" Scalar Var [One(T), One(T)] One(Bool);
        ">" Scalar Var [One(T), One(T)] One(Bool);
        ">=" Scalar Var [One(T), One(T)] One(Bool);
        // sets
        "in" Number Var [One(T), One(SetT)] One(Bool);
        "subset" Number Var [One(SetT), One(SetT)] One(Bool);
        "superset" Number Var [One(SetT), One(SetT)] One(Bool);
        "union" Number Var [One(SetT), One(SetT)] One(SetT);
        "intersect" Number Var [One(SetT), One(SetT)] One(SetT);
        "diff" Number Var [One(SetT), One(SetT)] One(SetT);
        "symdiff" Number Var [One(SetT), One(SetT)] One(SetT);
        ".." Number Par [One(T), One(T)] One(SetT);
        "card" Number Var [One(SetT)] One(Int);
        "set2array" Number Par [One(SetT)] List(T);
        "array_union" Number Var [Array(SetT)] One(SetT);
        "array_intersect" Number Var [Array(SetT)] One(SetT);
        // arithmetic
        "+" None Var [One(Int), One(Int)] One(Int);
        "-" None Var [One(Int), One(Int)] One(Int);
        "*" None Var [One(Int), One(Int)] One(Int);
        "+" None Var [One(Int)] One(Int);
        "-" None Var [One(Int)] One(Int);
        "div" None Var [One(Int), One(Int)] One(Int);
        "mod" None Var [One(Int), One(Int)] One(Int);
        "^" None Var [One(Int), Par(Int)] One(Int);
        "pow" None Var [One(Int), Par(Int)] One(Int);
        "abs" None Var [One(Int)] One(Int);
        // extremes
        "min" None Var [One(Int), One(Int)] One(Int);
        "min" Number Par [One(SetT)] One(T);
        "min" None Var [Array(Int)] One(Int);
        "max" None Var [One(Int), One(Int)] One(Int);
        "max" Number Par [One(SetT)] One(T);
        "max" None Var [Array(Int)] One(Int);
        // folds
        "sum" None Var [Array(Int)] One(Int);
        "sum" None Var [Array(OptInt)] One(Int);
        "product" None Var [Array(Int)] One(Int);
        "forall" None Var [Array(Bool)] One(Bool);
        "forall" None Var [Array(OptBool)] One(Bool);
        "exists" None Var [Array(Bool)] One(Bool);
        "exists" None Var [Array(OptBool)] One(Bool);
        "xorall" None Var [Array(Bool)] One(Bool);
        "clause" None Var [Array(Bool), Array(Bool)] One(Bool);
        "count" None Var [Array(Bool)] One(Int);
        "count" None Var [Array(OptBool)] One(Int);
        // conversions
        "bool2int" None Var [One(Bool)] One(Int);
        "enum2int" Case Var [One(T)] One(Int);
        // arrays
        "++" Any Var [Sized(1, T), Sized(1, T)] List(T);
        "length" Any ParResult [Array(T)] One(Int);
        "index_set" Any ParResult [Sized(1, T)] IndexSet(0);
        "index_set_1of2" Any ParResult [Sized(2, T)] IndexSet(0);
        "index_set_2of2" Any ParResult [Sized(2, T)] IndexSet(1);
        "index_set_1of3" Any ParResult [Sized(3, T)] IndexSet(0);
        "index_set_2of3" Any ParResult [Sized(3, T)] IndexSet(1);
        "index_set_3of3" Any ParResult [Sized(3, T)] IndexSet(2);
        "array1d" Any Var [Array(T)] List(T);
        "array1d" Any Var [IndexSet, Array(T)] Shaped(T);
        "array2d" Any Var [IndexSet, IndexSet, Array(T)] Shaped(T);
        "array3d" Any Var [IndexSet, IndexSet, IndexSet, Array(T)] Shaped(T);
        "array4d" Any Var [IndexSet, IndexSet, IndexSet, IndexSet, Array(T)] Shaped(T);
        "array5d" Any Var [IndexSet, IndexSet, IndexSet, IndexSet, IndexSet, Array(T)] Shaped(T);
        "array6d" Any Var [IndexSet, IndexSet, IndexSet, IndexSet, IndexSet, IndexSet, Array(T)] Shaped(T);
        // bounds
        "lb" None ParResult [One(Int)] One(Int);
        "lb" Number ParResult [One(SetT)] One(SetT);
        "ub" None ParResult [One(Int)] One(Int);
        "ub" Number ParResult [One(SetT)] One(SetT);
        "dom" None ParResult [One(Int)] One(SetInt);
        "lb_array" None ParResult [Array(Int)] One(Int);
        "ub_array" None ParResult [Array(Int)] One(Int);
        "is_fixed" Value ParResult [One(T)] One(Bool);
        "fix" Value ParResult [One(T)] One(T);
        // options
        "occurs" Scalar Var [One(OptT)] One(Bool);
        "absent" Scalar Var [One(OptT)] One(Bool);
        "deopt" Scalar Var [One(OptT)] One(T);
        // enums
        "enum_next" Case Var [Par(SetT), One(T)] One(T);
        "enum_prev" Case Var [Par(SetT), One(T)] One(T);
        // assertions
        "assert" None Par [One(Bool), One(Text)] One(Bool);
        "assert" Any Var [Par(Bool), Par(Text), One(T)] One(T);
        "assert" Any Var [Par(Bool), Par(Text), Array(T)] Alike(T);
        // texts
        "show" Any Par [One(T)] One(Text);
        "show" Any Par [Array(T)] One(Text);
        "show_int" None Par [One(Int), One(Int)] One(Text);
        "join" None Par [One(Text), Array(Text)] One(Text);
        "concat" None Par [Array(Text)] One(Text);
        "++" None Par [One(Text), One(Text)] One(Text);
        "++" None Par [Sized(1, Text), Sized(1, Text)] List(Text);
    }
}

/// The globals, whose numbers follow those of the built-ins.
#[tactic(auto, unfolding(crate::specs::Table::globals))]
pub fn globals() -> &'static [Line]
    ensures lines { map plain_line result.now ≡ definition.globals }
    ensures count { length result.now ≤ 10000 }
{
    lines! {
        // order
        "all_different" None Var [Sized(1, Int)] One(Bool);
        "alldifferent" None Var [Sized(1, Int)] One(Bool);
        "alldifferent_except_0" None Var [Sized(1, Int)] One(Bool);
        "all_equal" None Var [Sized(1, Int)] One(Bool);
        "increasing" None Var [Sized(1, Int)] One(Bool);
        "decreasing" None Var [Sized(1, Int)] One(Bool);
        "strictly_increasing" None Var [Sized(1, Int)] One(Bool);
        "strictly_decreasing" None Var [Sized(1, Int)] One(Bool);
        "lex_less" None Var [Sized(1, Int), Sized(1, Int)] One(Bool);
        "lex_lesseq" None Var [Sized(1, Int), Sized(1, Int)] One(Bool);
        "sort" None Var [Sized(1, Int), Sized(1, Int)] One(Bool);
        "value_precede" None Var [Par(Int), Par(Int), Sized(1, Int)] One(Bool);
        "maximum" None Var [One(Int), Sized(1, Int)] One(Bool);
        "minimum" None Var [One(Int), Sized(1, Int)] One(Bool);
        "member" None Var [Sized(1, Int), One(Int)] One(Bool);
        // count
        "count" None Var [Sized(1, Int), One(Int)] One(Int);
        "count" None Var [Sized(1, Int), One(Int), One(Int)] One(Bool);
        "at_least" None Var [Par(Int), Sized(1, Int), Par(Int)] One(Bool);
        "at_most" None Var [Par(Int), Sized(1, Int), Par(Int)] One(Bool);
        "exactly" None Var [Par(Int), Sized(1, Int), Par(Int)] One(Bool);
        "among" None Var [One(Int), Sized(1, Int), Par(SetInt)] One(Bool);
        "nvalue" None Var [One(Int), Sized(1, Int)] One(Bool);
        "global_cardinality" None Var [Sized(1, Int), ParSized(1, Int), Sized(1, Int)] One(Bool);
        "sliding_sum" None Var [Par(Int), Par(Int), Par(Int), Sized(1, Int)] One(Bool);
        "int_set_channel" None Var [Sized(1, Int), Sized(1, SetInt)] One(Bool);
        "link_set_to_booleans" None Var [One(SetInt), Sized(1, Bool)] One(Bool);
        "all_disjoint" None Var [Sized(1, SetInt)] One(Bool);
        "partition_set" None Var [Sized(1, SetInt), Par(SetInt)] One(Bool);
        // sched
        "cumulative" None Var [Sized(1, Int), Sized(1, Int), Sized(1, Int), One(Int)] One(Bool);
        "disjunctive" None Var [Sized(1, Int), Sized(1, Int)] One(Bool);
        "disjunctive_strict" None Var [Sized(1, Int), Sized(1, Int)] One(Bool);
        "diffn" None Var [Sized(1, Int), Sized(1, Int), Sized(1, Int), Sized(1, Int)] One(Bool);
        "bin_packing" None Var [Par(Int), Sized(1, Int), ParSized(1, Int)] One(Bool);
        "bin_packing_load" None Var [Sized(1, Int), Sized(1, Int), ParSized(1, Int)] One(Bool);
        // graph
        "element" None Var [One(Int), Sized(1, Int), One(Int)] One(Bool);
        "table" None Var [Sized(1, Int), ParSized(2, Int)] One(Bool);
        "regular" None Var [Sized(1, Int), Par(Int), Par(Int), ParSized(2, Int), Par(Int), Par(SetInt)] One(Bool);
        "inverse" None Var [Sized(1, Int), Sized(1, Int)] One(Bool);
        "circuit" None Var [Sized(1, Int)] One(Bool);
    }
}

/// The number of the first global; those before it are of operators and built-ins.
pub(crate) fn first_global() -> u32
    ensures value { result ≡ length definition.built_ins }
    ensures bound { result ≤ 10000 }
{
    built_ins().len() as u32
}
