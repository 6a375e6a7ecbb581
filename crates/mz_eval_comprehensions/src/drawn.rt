// What the steps of comprehensions make of charges that they draw: presences, guards, and the elements
// of var arrays at their places.

mod conditions;
mod guarding;
mod places;
mod sets;

pub use conditions::{both_occur, is_nothing, occurs_where};
pub use guarding::guarded;
pub use places::place;
pub use sets::{both_hold, counted};
