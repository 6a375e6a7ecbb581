// Cells as symbols and lines, and the cells of what rows over these give.
#![tactic(auto)]

mod casts;
mod constants;
mod lacking;
mod lines;
mod making;
mod nodes;
mod symbols;

pub use constants::symbol_base;
pub use lacking::is_gone;
pub use lines::{is_line_of_base, line_in};
pub use making::{cell_of_line, cell_of_symbol, cell_of_truth};
pub use mz_symbol_arrays::lines::defined;
pub use nodes::{Pair, is_false, pair_at};
pub use symbols::{as_asked, symbol_in};
