// What the globals of counting and of sets say of their arguments.

mod counts;
mod rows;
mod set_rows;
mod sets;
mod sums;

pub use rows::{
    among_row, cardinality_row, count_of_row, count_row, different_values_row, sliding_sum_row,
    times_row,
};
pub use set_rows::{channel_row, disjoint_row, link_row, partition_row};
