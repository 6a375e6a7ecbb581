// What is read of an expression before it is known to be one: operands and arguments that may still become generators,
// and single tokens.
#![tactic(auto)]

pub mod argument;
pub mod operand;
pub mod operator;
pub mod step;

pub use operand::Operand;
