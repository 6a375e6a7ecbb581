// A model with the files that it includes, and its data files after them.
#![tactic(auto)]

mod end;
mod gathering;
mod included;
mod joining;
mod law;
mod library;
mod queue;
mod read;
pub mod with_data;

pub use end::GatherEnd;
pub use gathering::gather;
pub use law::{
    declarations_are_spelled, fault_in_its_file, kept_by_names, one_failure, one_model,
    sources_or_failure,
};
