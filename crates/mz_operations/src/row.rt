// The operators and built-ins of the language, by their form.
//
// A row is an operator or a built-in function at one form of its arguments: `min` of two integers, of an array and of a set are three rows.

/// An operator or a built-in function, at one form of its arguments.
#[derive(Clone, Copy, PartialEq, Eq)]
pub enum Row {
    /// Gives a truth value, an integer or a case of an enum.
    Scalar(ScalarRow),
    /// Gives a value that takes memory, or is found by means that do.
    Made(MadeRow),
    /// Answers by the bounds of its argument, which may be var.
    Bounding(BoundingRow),
    /// `show` of one value that is no array.
    Show,
    /// `show` of an array.
    ShowArray,
}

/// A row that gives a truth value, an integer or a case of an enum.
#[derive(Clone, Copy, PartialEq, Eq)]
pub enum ScalarRow {
    /// A connective of two truth values.
    Logic(Connective),
    /// `not`.
    Not,
    /// An order of two truth values, integers or cases.
    Order(Comparison),
    /// `=` of truth values, integers, cases, or options of these.
    Equal,
    /// `!=` of the same.
    Unequal,
    /// `=` of sets.
    SetEqual,
    /// `!=` of sets.
    SetUnequal,
    /// `in`.
    In,
    /// An operation on two integers.
    Arith(Arith),
    /// An operation on one integer.
    Sign(Sign),
    /// `^` and `pow`.
    Power,
    /// `sum` and `product`.
    Fold(Fold),
    /// `min` and `max` of an array.
    Extreme(Side),
    /// `min` and `max` of a set.
    SetExtreme(Side),
    /// `forall`, `exists` and `xorall`.
    Quantified(Quantifier),
    /// `count` of truth values.
    Count,
    /// `clause`.
    Clause,
    /// `bool2int` and `enum2int`.
    Ordinal,
    /// `card`.
    Card,
    /// `length`.
    Length,
    /// `occurs`.
    Occurs,
    /// `absent`.
    Absent,
    /// `enum_prev` and `enum_next`.
    Beside(Side),
    /// `assert` of two arguments.
    Assert,
}

/// A row that gives a value that takes memory, or is found by means that do.
#[derive(Clone, Copy, PartialEq, Eq)]
pub enum MadeRow {
    /// `union`, `intersect`, `diff` and `symdiff`.
    SetOf(SetOp),
    /// `subset`.
    Subset,
    /// `superset`.
    Superset,
    /// `..`.
    UpTo,
    /// `index_set` and its kin: the index set with this place, from 0, of an array of this many
    /// dimensions.
    IndexSet { place: u64, dimensions: u64 },
    /// `array1d` of an array alone.
    Line,
    /// `array1d` to `array6d` of this many index sets and an array.
    Shaped(u64),
    /// `++` of arrays.
    Concat,
    /// `++` of texts.
    AppendTexts,
    /// `set2array`.
    SetToArray,
    /// `array_union`.
    ArrayUnion,
    /// `array_intersect`.
    ArrayIntersect,
    /// `deopt`.
    Deopt,
    /// `assert` of three arguments of which the third is no array.
    AssertValue,
    /// `assert` of three arguments of which the third is an array.
    AssertArray,
    /// `show_int`.
    ShowInt,
    /// `join`.
    Join,
    /// `concat`.
    ConcatTexts,
}

/// A row that answers by the bounds of its argument.
#[derive(Clone, Copy, PartialEq, Eq)]
pub enum BoundingRow {
    /// `lb`.
    Lb,
    /// `ub`.
    Ub,
    /// `dom`.
    Dom,
    /// `lb_array`.
    LbArray,
    /// `ub_array`.
    UbArray,
    /// `is_fixed`.
    IsFixed,
    /// `fix`.
    Fix,
}

/// A connective of two truth values.
#[derive(Clone, Copy, PartialEq, Eq)]
pub enum Connective {
    /// `<->`.
    Iff,
    /// `->`.
    Implies,
    /// `<-`.
    IsImplied,
    /// `\/`.
    Or,
    /// `xor`.
    Xor,
    /// `/\`.
    And,
}

/// An order.
#[derive(Clone, Copy, PartialEq, Eq)]
pub enum Comparison {
    /// `<`.
    Less,
    /// `<=`.
    AtMost,
    /// `>`.
    Greater,
    /// `>=`.
    AtLeast,
}

/// An operation on two integers.
#[derive(Clone, Copy, PartialEq, Eq)]
pub enum Arith {
    /// `+`.
    Add,
    /// `-`.
    Sub,
    /// `*`.
    Mul,
    /// `div`, rounded toward zero.
    Div,
    /// `mod`, with the dividend's sign.
    Mod,
    /// `min`.
    Min,
    /// `max`.
    Max,
}

/// An operation on one integer.
#[derive(Clone, Copy, PartialEq, Eq)]
pub enum Sign {
    /// Prefix `+`.
    Plus,
    /// Prefix `-`.
    Minus,
    /// `abs`.
    Abs,
}

/// An operation on the integers of an array, from left to right.
#[derive(Clone, Copy, PartialEq, Eq)]
pub enum Fold {
    /// `sum` of integers.
    Sum,
    /// `sum` of optional integers.
    SumOfOptions,
    /// `product`.
    Product,
}

/// A quantifier over the truth values of an array.
#[derive(Clone, Copy, PartialEq, Eq)]
pub enum Quantifier {
    /// `forall`.
    Forall,
    /// `exists`.
    Exists,
    /// `xorall`.
    Xorall,
}

/// An operation on two sets.
#[derive(Clone, Copy, PartialEq, Eq)]
pub enum SetOp {
    /// `union`.
    Union,
    /// `intersect`.
    Intersect,
    /// `diff`.
    Diff,
    /// `symdiff`.
    Symdiff,
}

/// The lower or the upper side.
#[derive(Clone, Copy, PartialEq, Eq)]
pub enum Side {
    Least,
    Greatest,
}
