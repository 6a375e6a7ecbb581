// FlatZinc programs, read from their text. More is read than is spelled: who asks for the one
// spelling of a program compares it with the text, and tests whether the program is well formed.
#![tactic(auto)]

// What a call gives. Its refusal is handed on as it is: `?` would convert it.
macro_rules! given {
    ($call:expr) => {
        match $call {
            Ok(x) => x,
            Err(miss) => return Err(miss),
        }
    };
}

mod argument;
mod array_line;
mod list;
mod name_table;
mod parts;
mod reader;
mod row_line;
mod token;
mod variable_line;

pub use reader::read_program;
