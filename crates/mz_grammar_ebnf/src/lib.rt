// The grammar by its own lines: what the EBNF derives, and that the rules of the grammar take the same.
#![tactic(auto)]

mod law;

pub use law::{
    data_files_are_derived, derived_data_files_are_taken, left_out_is_a_form, models_are_bounded,
    models_are_derived, more_may_be_open, names_and_places_are_tokens, parts_are_derived,
};
