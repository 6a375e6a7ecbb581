// Lists of cells → arrays and sets under every reading, of which a var array is a line of the run; the branches of an `if`, and what a generator runs over.
#![tactic(auto)]

mod arrays;
mod branches;
mod choosing;
mod gathering;
mod joining;
mod kinds;
mod lines;
mod lining;
mod moving;
mod numbering;
mod running;
mod symbols;
mod tabling;
mod told;

pub use arrays::array_cell_in;
pub use branches::{branch_cell_in, condition, var_bound};
pub use choosing::branch_cell;
pub use gathering::{Gathered, gathered_with, nothing_gathered};
pub use kinds::{of_kind, uncounted};
pub use lines::{array_over, line_cell_in};
pub use lining::{line_cell, set_cell};
pub use moving::{moved, present};
pub use running::{Elements, element, elements_in, place};
pub use tabling::table_cell;
pub use told::{are_told, is_told};
