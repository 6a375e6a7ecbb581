// Rows over sets: membership, operations, comparisons, how many elements, and the case beside a case.

mod nodes;
mod rows;
mod sorts;

pub use rows::{beside, card, equal, member, set_op, subset, superset, unequal};
