// What an instance is to the model that it is made of, and what one walk over a model tells of all.
#![tactic(auto)]

mod law;

pub use law::walks_are_told_by_one;
