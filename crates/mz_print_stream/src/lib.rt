// A solver's stream, printed as it comes.
#![tactic(auto)]

mod drain;
mod laws;
mod printed;
mod printer;
mod send;
mod stream;

pub use laws::{
    drained_on, each_is_read, events_are_added, marks_are_read, one_printing, one_reading,
    pieces_are_read, reads_the_stream,
};
pub use printed::Printed;
pub use printer::Printer;
pub use stream::{PIECE, print_stream};
