// Expressions, types and declarations by descent: one function for each part of the grammar.

mod branching;
mod call;
mod comprehension;
mod declarations;
mod descent;
mod expression;
mod heads;
mod list;
mod outermost;
mod types;

pub use outermost::{annotations, declaration, declared, expr, level, marks, type_text};
