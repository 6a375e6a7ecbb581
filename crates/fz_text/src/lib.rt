// The one spelling of FlatZinc programs, how a program is written to a sink, and how one is read.
#![tactic(auto)]

macro_rules! given {
    ($call:expr) => {
        match $call {
            Ok(x) => x,
            Err(e) => return Err(e),
        }
    };
}

// What a call gives. Its error is handed on as it is: `?` would convert it.
mod array;
mod reader;
mod spell;
mod writer;

pub use reader::{one_program, read};
pub use spell::text;
pub use writer::{Wrote, write};
