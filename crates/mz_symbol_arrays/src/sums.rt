// Rows over the elements of var arrays that compute: sums and products, the least and the greatest element, clauses.

mod folds;
mod walk;

pub use folds::fold;
