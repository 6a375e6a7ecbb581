// Elements of arrays under every reading, paid for by what the run has saved: at par indices without a line, at var ones of a line that is made once.
#![tactic(auto)]

mod cells;
mod elements;
mod indices;
mod keys;
mod listing;
mod nodes;
mod places;
mod placing;
mod values;

pub use elements::element_cell_in;
pub use listing::listed_line;
