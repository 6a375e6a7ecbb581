// The kinds of refusal, and their names as a refusal line shows them.

ghost use Rattle.std.specs.Prelude.{◌≡◌};
ghost use Rattle.mz_base.specs.Kind.{name_of, shows_number};

/// Why an input is refused.
#[derive(Clone, Copy, Debug, PartialEq, Eq)]
pub enum Kind {
    /// No token, blank or comment begins at this byte, or a text is ill formed here.
    Lexical,
    /// No file begins with the tokens up to this one.
    Syntax,
    /// This token would be one more open at once than the limit allows.
    TooDeep,
    /// A file or the solver's stream has more bytes than its limit.
    TooLong,
    /// The file isn't there.
    MissingFile,
    /// A name is used, or given a value by data, that nothing declares.
    UnknownName,
    /// A name is declared or given a value a second time.
    DuplicateName,
    /// A type isn't below the type that its place needs.
    TypeMismatch,
    /// No function or operator of this name accepts these argument types.
    NoOverload,
    /// Several functions accept the argument types, and none of them is the best.
    Ambiguous,
    /// A form of MiniZinc that this compiler leaves out by name stands here.
    LeftOut,
    /// Declarations depend on each other in a circle.
    Cyclic,
    /// A parameter without a value, or an enum without cases.
    MissingData,
    /// A data value doesn't fit the declared type.
    DataForm,
    /// A literal or an expression's bounds leave -2^61 to 2^61.
    Bounds,
    /// The work of evaluation passes the budget.
    Budget,
    /// The nesting of evaluation passes its limit.
    Depth,
    /// A parameter's value or a declared set is undefined, or the value lies outside the set.
    ParUndefined,
    /// The condition of an `assert` is false.
    AssertFailed,
    /// A free local is evaluated where none may be.
    FreeInContext,
    /// A set variable or an index set has no bounds.
    UnboundedSet,
    /// Lengths or index sets don't fit.
    IndexMismatch,
    /// A top-level name begins with `X_`.
    ReservedName,
    /// There is no solve item, or a second one.
    SolveItems,
    /// The solver's stream has a line that is no part of a solution.
    BadSolution,
    /// The output text is undefined for this solution.
    OutputUndefined,
    /// An exponent, or an argument that may not be negative, is below 0.
    NegativeArgument,
}

impl Kind {
    /// The name that a refusal line shows: the variant's own.
    pub fn name(self) -> &'static str
        ensures { result.now ≡ name_of self }
    {
        match self {
            Kind::Lexical => "Lexical",
            Kind::Syntax => "Syntax",
            Kind::TooDeep => "TooDeep",
            Kind::TooLong => "TooLong",
            Kind::MissingFile => "MissingFile",
            Kind::UnknownName => "UnknownName",
            Kind::DuplicateName => "DuplicateName",
            Kind::TypeMismatch => "TypeMismatch",
            Kind::NoOverload => "NoOverload",
            Kind::Ambiguous => "Ambiguous",
            Kind::LeftOut => "LeftOut",
            Kind::Cyclic => "Cyclic",
            Kind::MissingData => "MissingData",
            Kind::DataForm => "DataForm",
            Kind::Bounds => "Bounds",
            Kind::Budget => "Budget",
            Kind::Depth => "Depth",
            Kind::ParUndefined => "ParUndefined",
            Kind::AssertFailed => "AssertFailed",
            Kind::FreeInContext => "FreeInContext",
            Kind::UnboundedSet => "UnboundedSet",
            Kind::IndexMismatch => "IndexMismatch",
            Kind::ReservedName => "ReservedName",
            Kind::SolveItems => "SolveItems",
            Kind::BadSolution => "BadSolution",
            Kind::OutputUndefined => "OutputUndefined",
            Kind::NegativeArgument => "NegativeArgument",
        }
    }

    /// Whether a refusal line shows the fault's number after the kind.
    pub fn shows_number(self) -> bool
        ensures { result ≡ shows_number self }
    {
        matches!(
            self,
            Kind::Bounds
                | Kind::Budget
                | Kind::Depth
                | Kind::OutputUndefined
                | Kind::NegativeArgument
        )
    }
}
