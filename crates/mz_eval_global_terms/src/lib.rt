// Calls of globals over cells: a global and its arguments → the symbol of what it gives.
#![tactic(auto)]

mod arguments;
mod arrays;
mod numbers;
mod par;
mod sets;
mod symbols;
mod tables;
mod windows;

pub use symbols::symbol_of_call;
