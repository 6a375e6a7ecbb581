// Options over symbols: what is asked of them, their equality, and symbols that become options.

mod asking;
mod equality;
mod making;
mod nodes;
mod sorts;

pub use asking::{absent, deopt, occurs, summand};
pub use equality::{equal, unequal};
pub use making::{choice, guarded, nothing, optional, with_whole_value};
