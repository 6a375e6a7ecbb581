// Data in a typed program: the values of data files, typed against the types of their declarations; and the texts of text
// literals.
#![tactic(auto)]

mod arrays;
mod fit;
mod given;
mod law;
mod plain;
mod program;
mod table;
mod valued;
mod walk;

pub use fit::typed_value;
pub use given::{given_value, given_values};
pub use law::{data_fills_sections, data_has_no_texts, no_data_changes_nothing};
pub use table::texts_of;
pub use valued::with_values;
