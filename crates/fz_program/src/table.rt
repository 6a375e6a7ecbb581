// The table of constraints: a line for each, with its name and the kinds of its arguments.

ghost use Rattle.std.specs.Prelude.{◌≡◌};
ghost use Rattle.fz_program.specs.Table.{line};

use crate::Kind::{Bool, Bools, ConstBools, ConstInt, ConstInts, ConstSets, Int, Ints, Set, Sets};
use crate::{Kind, RowName};

// A line has the constraint, its name, and the kinds of its arguments. What is picked of the line
// of a constraint is its value under a macro.
macro_rules! lines {
    ($of:expr, $pick:ident; $($row:ident $text:literal [$($kind:ident),*];)*) => {
        match $of {
            $(RowName::$row => $pick!($text, $($kind),*),)*
        }
    };
}

macro_rules! line_of {
    ($of:expr, $pick:ident) => {
        lines! { $of, $pick;
            IntEq b"int_eq" [Int, Int];
            IntNe b"int_ne" [Int, Int];
            IntLe b"int_le" [Int, Int];
            IntLt b"int_lt" [Int, Int];
            IntEqReif b"int_eq_reif" [Int, Int, Bool];
            IntNeReif b"int_ne_reif" [Int, Int, Bool];
            IntLeReif b"int_le_reif" [Int, Int, Bool];
            IntLtReif b"int_lt_reif" [Int, Int, Bool];
            IntLinEq b"int_lin_eq" [ConstInts, Ints, ConstInt];
            IntLinNe b"int_lin_ne" [ConstInts, Ints, ConstInt];
            IntLinLe b"int_lin_le" [ConstInts, Ints, ConstInt];
            IntLinEqReif b"int_lin_eq_reif" [ConstInts, Ints, ConstInt, Bool];
            IntLinNeReif b"int_lin_ne_reif" [ConstInts, Ints, ConstInt, Bool];
            IntLinLeReif b"int_lin_le_reif" [ConstInts, Ints, ConstInt, Bool];
            IntTimes b"int_times" [Int, Int, Int];
            IntDiv b"int_div" [Int, Int, Int];
            IntMod b"int_mod" [Int, Int, Int];
            IntMin b"int_min" [Int, Int, Int];
            IntMax b"int_max" [Int, Int, Int];
            IntAbs b"int_abs" [Int, Int];
            ArrayIntElement b"array_int_element" [Int, ConstInts, Int];
            ArrayVarIntElement b"array_var_int_element" [Int, Ints, Int];
            ArrayBoolElement b"array_bool_element" [Int, ConstBools, Bool];
            ArrayVarBoolElement b"array_var_bool_element" [Int, Bools, Bool];
            ArraySetElement b"array_set_element" [Int, ConstSets, Set];
            ArrayVarSetElement b"array_var_set_element" [Int, Sets, Set];
            BoolEq b"bool_eq" [Bool, Bool];
            BoolNot b"bool_not" [Bool, Bool];
            BoolToInt b"bool2int" [Bool, Int];
            BoolXor b"bool_xor" [Bool, Bool, Bool];
            BoolEqReif b"bool_eq_reif" [Bool, Bool, Bool];
            BoolLeReif b"bool_le_reif" [Bool, Bool, Bool];
            ArrayBoolAnd b"array_bool_and" [Bools, Bool];
            ArrayBoolOr b"array_bool_or" [Bools, Bool];
            BoolClause b"bool_clause" [Bools, Bools];
            SetIn b"set_in" [Int, Set];
            SetInReif b"set_in_reif" [Int, Set, Bool];
            SetEq b"set_eq" [Set, Set];
            SetNe b"set_ne" [Set, Set];
            SetSubset b"set_subset" [Set, Set];
            SetEqReif b"set_eq_reif" [Set, Set, Bool];
            SetNeReif b"set_ne_reif" [Set, Set, Bool];
            SetSubsetReif b"set_subset_reif" [Set, Set, Bool];
            SetUnion b"set_union" [Set, Set, Set];
            SetIntersect b"set_intersect" [Set, Set, Set];
            SetDiff b"set_diff" [Set, Set, Set];
            SetSymdiff b"set_symdiff" [Set, Set, Set];
            SetCard b"set_card" [Set, Int];
        }
    };
}

macro_rules! text_in {
    ($text:literal, $($kind:ident),*) => {
        $text
    };
}

macro_rules! kinds_in {
    ($text:literal, $($kind:ident),*) => {
        &[$($kind),*]
    };
}

/// The name that a constraint has in a program's text.
#[tactic(auto, unfolding(crate::specs::Table::line))]
pub fn name_of(name: RowName) -> &'static [u8]
    ensures { result.now ≡ (line name).text }
{
    line_of!(name, text_in)
}

/// The kinds of a constraint's arguments, in order.
#[tactic(auto, unfolding(crate::specs::Table::line))]
pub fn kinds_of(name: RowName) -> &'static [Kind]
    ensures { result.now ≡ (line name).kinds }
{
    line_of!(name, kinds_in)
}
