// One of several symbols: by an index, by a condition, or by a place in two arrays one after the other.
#![tactic(auto)]

mod alone;
mod element;
mod items;
mod joins;
mod lifting;
mod lines;
mod nodes;
mod nowhere;
mod place;
mod reached;
mod shift;
mod single;
mod truth;

pub use alone::alone_node;
pub use element::access;
pub use joins::join;
pub use lifting::alike_items;
pub use lines::{Elements, choose_elements};
pub use single::{choose, if_node};
