// What each operation of the language gives on values, what bounds its value has, and what it costs. The definitions stand in `specs/`; here are the types that name the operations, and the laws.
#![tactic(auto)]

mod bounds_law;
mod law;
mod lines;
mod row;

pub use bounds_law::bounds_are_monotone;
pub use law::{one_limit, values_lie_in_bounds};
pub use lines::{TableLine, level_of, row_of};
pub use row::{
    Arith, BoundingRow, Comparison, Connective, Fold, MadeRow, Quantifier, Row, ScalarRow, SetOp,
    Side, Sign,
};
