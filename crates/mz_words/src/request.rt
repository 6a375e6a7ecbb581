// What the words of a command line ask for.

/// The budget where none is given.
pub const DEFAULT_BUDGET: u64 = 10_000_000;

/// The range of an unbounded variable where none is given.
pub const DEFAULT_INT_RANGE: u64 = 1_000_000_000;

/// What is done, with the files and the options for it.
#[derive(Debug, Drop)]
pub enum Request<'a> {
    /// Compile the model with its data.
    Compile(Options<'a>),
    /// Check the model with its data, and write nothing.
    Check(Options<'a>),
    /// Check the model with its data, and print a solver's stream of its solutions.
    Print(Options<'a>),
    /// Make the model of this number, from 1 to 10,000, and compile it in memory.
    Make(u64),
}

/// The files of a command and its options. The files are named as the words spell them.
#[derive(Debug, Drop)]
pub struct Options<'a> {
    /// The model's file.
    pub model: &'a str,
    /// The data files, in the order of the words.
    pub data_files: Vec<&'a str>,
    /// The most units of work, from 1 to 100,000,000.
    pub budget: u64,
    /// The greatest value of a `var int` that has no domain, from 1 to 2^61. The least is its negative.
    pub int_range: i64,
}
