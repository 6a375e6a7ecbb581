// What the result of each row is.

ghost use Rattle.std.specs.Prelude.{◌≡◌};
ghost use Rattle.fz_build.specs.Bounds.{form_of};

use fz_program::RowName;
use mz_operations::{Arith, SetOp};

/// What the result of a row is.
#[derive(Clone, Copy)]
pub(crate) enum Form {
    /// The row has none.
    Test,
    /// A truth value.
    Truth,
    /// An element of an array of truth values.
    TruthElement,
    /// What the operation gives of two integers.
    Arithmetic(Arith),
    /// The magnitude of an integer.
    Magnitude,
    /// A truth value as 0 or 1.
    Flag,
    /// An element of an array of integers.
    Element,
    /// The number of elements of a set.
    Size,
    /// What a sum passes its constant by.
    Sum,
    /// What the operation gives of two sets.
    Combined(SetOp),
    /// An element of an array of sets.
    SetElement,
}

#[tactic(auto, unfolding(crate::specs::Bounds::form_of))]
pub(crate) fn form_of(name: RowName) -> Form
    ensures { result ≡ form_of name }
{
    match name {
        RowName::IntEq => Form::Test,
        RowName::IntNe => Form::Test,
        RowName::IntLe => Form::Test,
        RowName::IntLt => Form::Test,
        RowName::IntEqReif => Form::Truth,
        RowName::IntNeReif => Form::Truth,
        RowName::IntLeReif => Form::Truth,
        RowName::IntLtReif => Form::Truth,
        RowName::IntLinEq => Form::Sum,
        RowName::IntLinNe => Form::Test,
        RowName::IntLinLe => Form::Test,
        RowName::IntLinEqReif => Form::Truth,
        RowName::IntLinNeReif => Form::Truth,
        RowName::IntLinLeReif => Form::Truth,
        RowName::IntTimes => Form::Arithmetic(Arith::Mul),
        RowName::IntDiv => Form::Arithmetic(Arith::Div),
        RowName::IntMod => Form::Arithmetic(Arith::Mod),
        RowName::IntMin => Form::Arithmetic(Arith::Min),
        RowName::IntMax => Form::Arithmetic(Arith::Max),
        RowName::IntAbs => Form::Magnitude,
        RowName::ArrayIntElement => Form::Element,
        RowName::ArrayVarIntElement => Form::Element,
        RowName::ArrayBoolElement => Form::TruthElement,
        RowName::ArrayVarBoolElement => Form::TruthElement,
        RowName::ArraySetElement => Form::SetElement,
        RowName::ArrayVarSetElement => Form::SetElement,
        RowName::BoolEq => Form::Test,
        RowName::BoolNot => Form::Truth,
        RowName::BoolToInt => Form::Flag,
        RowName::BoolXor => Form::Truth,
        RowName::BoolEqReif => Form::Truth,
        RowName::BoolLeReif => Form::Truth,
        RowName::ArrayBoolAnd => Form::Truth,
        RowName::ArrayBoolOr => Form::Truth,
        RowName::BoolClause => Form::Test,
        RowName::SetIn => Form::Test,
        RowName::SetInReif => Form::Truth,
        RowName::SetEq => Form::Test,
        RowName::SetNe => Form::Test,
        RowName::SetSubset => Form::Test,
        RowName::SetEqReif => Form::Truth,
        RowName::SetNeReif => Form::Truth,
        RowName::SetSubsetReif => Form::Truth,
        RowName::SetUnion => Form::Combined(SetOp::Union),
        RowName::SetIntersect => Form::Combined(SetOp::Intersect),
        RowName::SetDiff => Form::Combined(SetOp::Diff),
        RowName::SetSymdiff => Form::Combined(SetOp::Symdiff),
        RowName::SetCard => Form::Size,
    }
}
