// The lexer: the tokens of a model's or a data file's bytes.
#![tactic(auto)]

mod byte;
mod comment;
mod content;
mod found;
mod law;
mod left_out;
mod lexer;
mod number;
mod opening;
mod piece;
mod place;
mod prefix;
mod symbol;
mod token;

pub use law::{identifiers_are_flat, one_outcome};
pub use lexer::tokens;
pub use mz_base::Keyword;
pub use place::after;
pub use token::{Symbol, Tok, Token};
