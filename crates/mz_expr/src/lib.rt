// Expressions, types and declarations, by descent.
#![tactic(auto)]

pub mod parser;
mod prefix;

pub use prefix::{anns, declaration, expression, marks, type_text};
