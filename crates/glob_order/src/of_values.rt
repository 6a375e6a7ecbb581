// The arguments of globals, and what the globals of order say of them.

mod lists;
mod pairs;
mod reading;
mod rows;

pub use lists::{all_different, are_indices, is_index, is_new, is_number_of, same, times};
pub use pairs::{boxes_at, pairs_at, tasks_at};
pub use reading::{
    Grid, PlacedBooleans, PlacedNumbers, PlacedSets, grid_at, numbers_at, placed_booleans_at,
    placed_numbers_at, placed_sets_at, sets_at,
};
pub use rows::{
    all_different_row, all_equal_row, different_but_zero_row, extreme_row, lex_row, member_row,
    ordered_row, precede_row, sort_row,
};
