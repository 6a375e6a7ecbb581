// Whether an instance, and the names of its variables, are what flattening asks for. A test aid: whoever makes instances shows it of all that it makes.
#![tactic(auto)]

macro_rules! given {
    ($call:expr) => {
        match $call {
            Ok(x) => x,
            Err(e) => return Err(e),
        }
    };
}

// What a call gives. Its error is handed on as it is: `?` would convert it.
mod instance;
mod names;
mod nodes;
mod part;
mod parts;
mod variables;

pub use instance::is_instance;
pub use names::are_named;
