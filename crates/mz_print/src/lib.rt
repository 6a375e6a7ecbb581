// The text that is printed for a solution of a model: the elements of an output item, or the lines that are printed where there is none.
#![tactic(auto)]

mod by_default;
mod elements;
mod env;
mod items;
mod lines;
mod made;
mod names;
mod output_law;
mod print;
mod printable;
mod printer;
mod shown;
mod sound;
mod value_law;

pub use by_default::default_text;
pub use elements::push_elements;
pub use lines::{Line, lines_of, place_of};
pub use made::solution_printer;
pub use names::TopName;
pub use output_law::{faults_come_first, free_of_choices};
pub use printable::are_printable;
pub use printer::SolutionPrinter;
pub use value_law::{lines_are_the_default, values_are_printable};
