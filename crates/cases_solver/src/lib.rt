// The solutions of small FlatZinc programs, by trying all values. A test aid: it is written for itself, from the words of the
// FlatZinc chapter, and shares nothing with what builds programs.
#![tactic(auto)]

// What a call gives. Its error is handed on as it is: `?` would convert it.
macro_rules! given {
    ($call:expr) => {
        match $call {
            Ok(x) => x,
            Err(e) => return Err(e),
        }
    };
}

mod domain;
mod element;
mod numbers;
mod page;
mod row;
mod solve;
mod subset;
mod value;

pub use page::print_solutions;
