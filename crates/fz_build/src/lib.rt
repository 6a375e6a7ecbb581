// Builds FlatZinc programs, item by item, with the domains of the rows' results. This crate knows FlatZinc alone, and nothing of the models that programs are made of.
#![tactic(auto)]

macro_rules! given {
    ($call:expr) => {
        match $call {
            Ok(x) => x,
            Err(e) => return Err(e),
        }
    };
}

// What a call gives. Its error is handed on as it is: `?` would convert it.
mod builder;
// What a call gives. Its error is handed on as it is: `?` would convert it.
mod copy;
mod domains;
mod form;
mod inputs;
mod integers;
mod law;
mod naming;
mod result_row;
mod sets;

pub use builder::Build;
pub use copy::{copied_all, copied_at, with_element, with_last};
pub use domains::result_domain;
pub use inputs::{elements_at, ends_of};
pub use law::{
    free_values_determine_solutions, introduced_variables_are_defined_once, results_may_define,
};
