// From words, files and a solver's stream to FlatZinc bytes or printed solutions, and a status; on the way a typed program → its FlatZinc program.
#![tactic(auto)]

mod checking;
mod compile;
mod end;
mod flat_program;
mod make;
mod note;
mod print;
mod reading;
mod status;
mod top_call;

pub use flat_program::compiled;
pub use status::Status;
pub use top_call::run;
