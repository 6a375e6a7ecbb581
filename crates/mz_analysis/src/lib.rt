// The names and the types of a model's files, tested before the files are compiled, and laws of typed programs: what is par in them, and in which files their places lie.
#![tactic(auto)]

mod law;
mod owner;
mod par_law;
mod place_law;
mod scoping;
mod typing;

pub use law::{
    any_order_of_types, declarations_are_numbered, faults_are_one, names_are_own, one_scoped_model,
    scoped_or_refused, typed_or_refused, typed_programs_are_one, types_refused_in_files,
};
pub use owner::file_name;
pub use par_law::{levels_are_the_grammars, typed_programs_respect_par};
pub use place_law::typed_programs_lie_in_their_files;
pub use scoping::scoped_model;
pub use typing::typed_model;
