// Decision variables and roots: the places and cells of declared names, and the nodes that say that a value is as declared, that a constraint is met, and what is minimized or maximized.
#![tactic(auto)]

mod array_cells;
mod arrays;
mod bounds;
mod cells;
mod equality;
mod names;
mod operands;
mod places;

pub use array_cells::array_cell;
pub use arrays::array_roots;
pub use cells::place_cell;
pub use names::{aim, constraint_roots, place_root};
pub use places::{many_places, one_place};
