// The coercions round a node, and the operators of chains.
#![tactic(auto)]

mod bases;
mod chains;
mod levels;
mod nodes;
mod types;

pub use bases::{base_of, operand_base};
pub use chains::all_operators;
pub use levels::{has_innermost, is_appended};
pub use nodes::{coerce_both, finished, inner, is_uncoerced, place_of};
pub use types::{Innermost, Operator};
