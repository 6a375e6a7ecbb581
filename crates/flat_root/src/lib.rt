// From the roots of an instance to the rows of a FlatZinc program.
#![tactic(auto)]

// What a call gives. Its error is handed on as it is: `?` would convert it.
macro_rules! given {
    ($call:expr) => {
        match $call {
            Ok(x) => x,
            Err(e) => return Err(e),
        }
    };
}

mod given;
mod marks;
mod objective;
mod parts;
mod posts;
mod totals;
mod turns;

pub use marks::needed_for;
pub use objective::post_objective;
pub use posts::post_roots;
