// The terms of the globals of graphs, tables and automata.
#![tactic(auto)]

mod automata;
mod circuits;
mod elements;
mod inverses;
mod tables;

pub use automata::{Automaton, regular};
pub use circuits::circuit;
pub use elements::element;
pub use inverses::inverse;
pub use tables::{Rows, table};
