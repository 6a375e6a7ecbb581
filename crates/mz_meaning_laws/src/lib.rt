// Laws of the meaning: what a model's evaluation doesn't depend on, what it may spend, which folds are exact, and where it may stop.
#![tactic(auto)]

mod budget_law;
mod exact_law;
mod laws;
mod place_law;

pub use budget_law::evaluations_end_within_their_budget;
pub use exact_law::folds_within_the_limit_are_exact;
pub use laws::{
    bare_runs_fit, models_without_free_locals_are_told, runs_are_alike,
    solutions_are_told_by_one_walk,
};
pub use place_law::evaluation_stops_in_its_places;
