// From an instance to a FlatZinc program, from the front on: the variables and the arrays of the model, as the instance has them.
#![tactic(auto)]

macro_rules! given {
    ($call:expr) => {
        match $call {
            Ok(x) => x,
            Err(e) => return Err(e),
        }
    };
}

// What a call gives. Its error is handed on as it is: `?` would convert it.
mod absent;
// What a call gives. Its error is handed on as it is: `?` would convert it.
mod arrays;
mod cleared;
mod domain;
mod front;
mod goal;
mod label;
mod law;
mod top_call;
mod variables;

pub use front::declare_front;
pub use law::flattening_is_faithful;
pub use top_call::flatten;
