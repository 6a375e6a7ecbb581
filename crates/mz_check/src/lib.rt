// The typing of a scoped model: the typed program, or the first fault of types.
#![tactic(auto)]

mod assemble;
mod context;
mod faults;
mod items;
mod kept;
mod parts;
mod placing;
mod program;
mod sections;
mod testing;
mod top_call;

pub use top_call::check;
