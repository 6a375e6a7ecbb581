// What the globals of scheduling, of tables, automata and graphs say of their arguments.

mod graph_rows;
mod graphs;
mod packing;
mod rows;
mod tables;
mod tasks;

pub use graph_rows::{circuit_row, element_row, inverse_row, regular_row, table_row};
pub use rows::{
    cumulative_row, diffn_row, disjunctive_row, disjunctive_strict_row, packing_load_row,
    packing_row,
};
