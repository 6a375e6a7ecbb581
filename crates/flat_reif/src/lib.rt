// Flattening: the arguments that stand for the nodes of an instance.
#![tactic(auto)]

// What a call gives. Its error is handed on as it is: `?` would convert it.
macro_rules! given {
    ($call:expr) => {
        match $call {
            Ok(x) => x,
            Err(e) => return Err(e),
        }
    };
}

mod constant;
mod domain;
mod flat;
mod law;
mod needed;
mod table;

pub use flat::Flat;
pub use law::steps_follow_each_other;
pub use needed::Needed;
