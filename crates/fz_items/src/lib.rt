// The items that a solver writes: their names, the forms of their values and the values' domains.
#![tactic(auto)]

mod element;
mod item;
mod miss;
mod outputs;
mod set;
mod token;
mod value;

pub use element::Element;
pub use item::read_item;
pub use miss::Miss;
pub use outputs::{Part, Slot, Table, table_of};
pub use token::is_empty;
pub use value::Elements;
