// Terms of rows over cells: a row and its arguments as cells → its cell without values, and with that the cell whose value a symbol tells.
#![tactic(auto)]

mod cells;
mod ends;
mod lines;
mod numbers;
mod pairs;
mod sets;
mod shapes;
mod singles;
mod stated;
mod told;
mod types;

pub use cells::{bounded, cell_by_ends, cell_of_one, cell_of_two, whole};
pub use ends::ends_of_two;
pub use lines::drawn_line;
pub use mz_eval_row_cells::{row_of_one as par_row_of_one, row_of_two as par_row_of_two, size_of};
pub use numbers::{cell_of_numbers, integer, number_in, row_of_numbers};
pub use shapes::{shape_of_all, shape_of_one, shape_of_two};
pub use stated::symbol_at;
pub use types::{Argument, Number, NumberRow, Operand};
