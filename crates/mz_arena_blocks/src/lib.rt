// Lists that share their ends, and what their elements have together, wherever a part of a list begins and ends.
#![tactic(auto)]

mod blocks;
mod hulls;
mod join;
mod unions;

pub use blocks::Blocks;
pub use join::Join;
