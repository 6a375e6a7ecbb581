// What an entry of the table is made of.

/// What the letter of an entry stands for. Each reading of the entry gives it one meaning.
#[derive(Clone, Copy)]
pub enum Letter {
    /// The entry has no letter.
    None,
    /// An enum.
    Case,
    /// An enum, or an integer.
    Number,
    /// A Boolean, an enum, or an integer.
    Scalar,
    /// A Boolean, an enum, an integer, or a set.
    Value,
    /// Those, and the options of a Boolean, an enum or an integer.
    Any,
}

/// What an entry makes of var arguments.
#[derive(Clone, Copy)]
pub enum Mark {
    /// The arguments are par, and so is the result.
    Par,
    /// Par arguments give a par result, and var arguments a var one.
    Var,
    /// The arguments may be var, and the result is par.
    ParResult,
}

/// A scalar's type, or that of an array's elements, without its mark `var`.
#[derive(Clone, Copy)]
pub enum Of {
    Bool,
    Int,
    OptBool,
    OptInt,
    SetInt,
    Text,
    /// What the letter stands for.
    T,
    /// The option of what the letter stands for.
    OptT,
    /// The set of what the letter stands for.
    SetT,
}

/// A parameter.
#[derive(Clone, Copy)]
pub enum Param {
    /// A scalar, which is var in the var reading.
    One(Of),
    /// A scalar that is par in each reading.
    Par(Of),
    /// An array of any dimensions, whose elements are var in the var reading.
    Array(Of),
    /// An array of this many dimensions, whose elements are var in the var reading.
    Sized(u64, Of),
    /// An array of this many dimensions, whose elements are par in each reading.
    ParSized(u64, Of),
    /// An index set: a par set of integers or of an enum, which each reading chooses for itself.
    IndexSet,
}

/// A result. It is var in the var reading of an entry that is marked `Var`.
#[derive(Clone, Copy)]
pub enum Outcome {
    /// A scalar.
    One(Of),
    /// An array of one dimension with integers as indices.
    List(Of),
    /// An array whose indices are those of the given index sets.
    Shaped(Of),
    /// An array with the indices of the arrays among the arguments.
    Alike(Of),
    /// The set of the index at this place, from 0, of the arrays among the arguments.
    IndexSet(u64),
}

/// A line of the table: an operator, built-in or global in one of its forms.
#[derive(Clone, Copy)]
pub struct Line {
    pub name: &'static str,
    pub letter: Letter,
    pub mark: Mark,
    pub params: &'static [Param],
    pub result: Outcome,
}

/// A line with its number, which is its place in the table, from 0.
#[derive(Clone, Copy)]
pub struct Entry {
    pub number: u32,
    pub line: &'static Line,
}
