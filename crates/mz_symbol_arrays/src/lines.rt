// Rows over the elements of var arrays: quantifiers and counts, element by element.

mod rows;
mod seen;
mod walk;

pub use rows::{count, quantified};
pub use walk::defined;
