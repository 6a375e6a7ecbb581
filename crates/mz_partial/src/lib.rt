// A total term for each term, with the Boolean that tells where the term has a value.
#![tactic(auto)]

mod access;
mod division;
mod flag;
mod group;
mod lists;
mod make;
mod memo;
mod never;
mod part;
mod plain;
mod reading;

pub use memo::{Memo, Pair, total};
pub use part::Part;
