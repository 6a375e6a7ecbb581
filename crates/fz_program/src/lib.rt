// FlatZinc programs: their parts, the table of constraints with their meaning, and the test whether a program is well formed.
#![tactic(auto)]

mod arguments;
mod index;
mod linear;
mod names;
mod program;
mod row_name;
mod table;
mod well_formedness;

pub use arguments::{are_arguments, is_definition, is_variable_of};
pub use index::{are_alike, has_places, is_index};
pub use linear::is_within;
pub use mz_base::is_identifier;
pub use names::are_distinct;
pub use program::{Arg, Domain, FzArray, FzGoal, FzName, FzProgram, FzRow, FzVar};
pub use row_name::{Kind, RowName};
pub use table::{kinds_of, name_of};
pub use well_formedness::{are_parts, well_formed};
