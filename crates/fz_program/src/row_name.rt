// The names of the constraints that rows post, and the kinds of arguments.

/// The constraint that a row posts on its arguments.
#[derive(Clone, Copy, PartialEq, Eq)]
pub enum RowName {
    /// `int_eq`: the first is the second.
    IntEq,
    /// `int_ne`: the first isn't the second.
    IntNe,
    /// `int_le`: the first is at most the second.
    IntLe,
    /// `int_lt`: the first is below the second.
    IntLt,
    /// `int_eq_reif`: the third is whether the first is the second.
    IntEqReif,
    /// `int_ne_reif`: the third is whether the first isn't the second.
    IntNeReif,
    /// `int_le_reif`: the third is whether the first is at most the second.
    IntLeReif,
    /// `int_lt_reif`: the third is whether the first is below the second.
    IntLtReif,
    /// `int_lin_eq`: the sum of the products of coefficients and integers is the constant.
    IntLinEq,
    /// `int_lin_ne`: that sum isn't the constant.
    IntLinNe,
    /// `int_lin_le`: that sum is at most the constant.
    IntLinLe,
    /// `int_lin_eq_reif`: the last is whether that sum is the constant.
    IntLinEqReif,
    /// `int_lin_ne_reif`: the last is whether that sum isn't the constant.
    IntLinNeReif,
    /// `int_lin_le_reif`: the last is whether that sum is at most the constant.
    IntLinLeReif,
    /// `int_times`: the third is the product of the first two.
    IntTimes,
    /// `int_div`: the third is the quotient of the first two, rounded toward zero; the second isn't 0.
    IntDiv,
    /// `int_mod`: the third is the remainder of the first two, with the first's sign; the second isn't 0.
    IntMod,
    /// `int_min`: the third is the least of the first two.
    IntMin,
    /// `int_max`: the third is the greatest of the first two.
    IntMax,
    /// `int_abs`: the second is the magnitude of the first.
    IntAbs,
    /// `array_int_element`: the third is the number at the place, from 1, that the first is.
    ArrayIntElement,
    /// `array_var_int_element`: the third is the integer at the place, from 1, that the first is.
    ArrayVarIntElement,
    /// `array_bool_element`: the third is the constant truth value at the place, from 1, that the first is.
    ArrayBoolElement,
    /// `array_var_bool_element`: the third is the truth value at the place, from 1, that the first is.
    ArrayVarBoolElement,
    /// `array_set_element`: the third is the constant set at the place, from 1, that the first is.
    ArraySetElement,
    /// `array_var_set_element`: the third is the set at the place, from 1, that the first is.
    ArrayVarSetElement,
    /// `bool_eq`: both are true or both are false.
    BoolEq,
    /// `bool_not`: one is true and one is false.
    BoolNot,
    /// `bool2int`: the second is 1 where the first is true, else 0.
    BoolToInt,
    /// `bool_xor`: the third is whether the first two differ.
    BoolXor,
    /// `bool_eq_reif`: the third is whether the first two are equal.
    BoolEqReif,
    /// `bool_le_reif`: the third is whether the first is false or the second true.
    BoolLeReif,
    /// `array_bool_and`: the second is whether all elements are true.
    ArrayBoolAnd,
    /// `array_bool_or`: the second is whether some element is true.
    ArrayBoolOr,
    /// `bool_clause`: some element of the first is true, or some of the second false.
    BoolClause,
    /// `set_in`: the first is an element of the second.
    SetIn,
    /// `set_in_reif`: the third is whether the first is an element of the second.
    SetInReif,
    /// `set_eq`: the sets are equal.
    SetEq,
    /// `set_ne`: the sets differ.
    SetNe,
    /// `set_subset`: the second has what the first has.
    SetSubset,
    /// `set_eq_reif`: the third is whether the sets are equal.
    SetEqReif,
    /// `set_ne_reif`: the third is whether the sets differ.
    SetNeReif,
    /// `set_subset_reif`: the third is whether the second has what the first has.
    SetSubsetReif,
    /// `set_union`: the third is the union of the first two.
    SetUnion,
    /// `set_intersect`: the third is what the first two share.
    SetIntersect,
    /// `set_diff`: the third is what the first has and the second hasn't.
    SetDiff,
    /// `set_symdiff`: the third is what one of the first two has and the other hasn't.
    SetSymdiff,
    /// `set_card`: the second is the number of elements of the first.
    SetCard,
}

/// What an argument of a row is.
#[derive(Clone, Copy, PartialEq, Eq)]
pub enum Kind {
    /// An integer: a number or an integer variable.
    Int,
    /// A truth value, constant or variable.
    Bool,
    /// A set, constant or variable.
    Set,
    /// A number.
    ConstInt,
    /// An array of integers.
    Ints,
    /// An array of truth values.
    Bools,
    /// An array of sets.
    Sets,
    /// An array of numbers.
    ConstInts,
    /// An array of constant truth values.
    ConstBools,
    /// An array of constant sets.
    ConstSets,
}
