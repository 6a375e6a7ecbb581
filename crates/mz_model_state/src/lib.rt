// What a walk over a model has in hand, step by step and at its end, and how that gives the instance of the model.
#![tactic(auto)]

mod end_law;
mod ids;
mod nodes;
mod parts;
mod step_law;
mod testing;
mod vars;
mod walk_law;

pub use end_law::{places_are_variables, tested_runs_make_instances, vars_are_made};
pub use parts::test_places;
pub use step_law::{names_are_added, walks_are_closed, walks_go_on};
pub use testing::test;
pub use vars::var_over;
pub use walk_law::{
    constraints_are_walked, declarations_are_walked, hands_are_models, instances_are_made,
    one_pass_tells_choices, roots_are_kept, roots_tell_values, values_are_tested,
    variables_are_made,
};
