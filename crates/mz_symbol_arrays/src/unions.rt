// Unions and intersections of the sets of a var array.

mod nodes;
mod rows;
mod walk;

pub use rows::{array_intersect, array_union};
