// The end of the walk over a model: names, roots and the objective in hand → an instance.

mod closing;
mod index;
mod names;
mod places;
mod types;
mod variables;

pub use closing::closed;
pub use places::are_placed;
