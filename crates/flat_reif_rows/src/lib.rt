// The rows that give nodes of an arena: a variable for a node, over the arguments of its children; and nodes that take no row.
#![tactic(auto)]

macro_rules! given {
    ($call:expr) => {
        match $call {
            Ok(x) => x,
            Err(e) => return Err(e),
        }
    };
}

// What a call gives. Its error is handed on as it is: `?` would convert it.
mod access;
mod branching;
mod connective;
mod constant;
mod ends;
mod extreme;
mod fold;
mod law;
mod making;
mod posting;
mod range;
mod table;

pub use access::made_of_access;
pub use branching::made_of_branches;
pub use extreme::made_of_extreme;
pub use fold::{Fold, fold_of_one, fold_of_two};
pub use law::nodes_are_told_by_kind;
pub use making::{defined, made_of_one, made_of_sum, made_of_two};
pub use posting::{post_false, post_test, post_true};
pub use range::{may_divide, may_reach};
pub use table::{row_of_one, row_of_two, test_of};
