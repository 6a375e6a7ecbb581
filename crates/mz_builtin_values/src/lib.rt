// The values of operators and built-ins: one function a row, each by its line of the definitions.
#![tactic(auto)]

mod arithmetic;
mod array_table;
mod arrays;
mod asserted;
mod building;
mod by_bounds;
mod elements;
mod fold;
mod index;
mod logic;
mod number;
mod operations;
mod option;
mod outcome;
mod powers;
mod scalar_table;
mod sets;
mod texts;

pub use array_table::{bounding, made};
pub use building::{IndexShape, set_value};
pub use fold::extreme;
pub use index::{fits, shape};
pub use outcome::{Scalar, given};
pub use scalar_table::scalar;
