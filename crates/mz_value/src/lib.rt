// Values: sets of integers, arrays and texts, and how they are shown.
#![tactic(auto)]

mod laws;
mod range_set;
mod shown;
mod text;
mod value;
mod walks;

pub use laws::same_members;
pub use range_set::{GREATEST, LEAST, RangeSet};
pub use shown::show;
pub use text::{join, show_int};
pub use value::{ArrayValue, Assign, Cases, SetValue, Shape, ShapeBase, TextValue, Value};
