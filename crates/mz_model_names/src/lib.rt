// Declared names in hand, by the forms of their declarations, with what their declared sets tell, and the end of the walk: names, roots and the objective → an instance.
#![tactic(auto)]

mod arrays;
pub mod close;
mod forms;
mod index_ranges;
mod made;
mod roots;
mod sets;
mod types;
mod variables;
mod wants;

pub use forms::{Form, free_form, valued_form};
pub use made::held;
pub use mz_eval_declared::{Want, fitted};
pub use mz_model_roots::{aim, constraint_roots};
pub use types::{HeldName, Kind, Label};
pub use wants::{defined_index, defined_set};
