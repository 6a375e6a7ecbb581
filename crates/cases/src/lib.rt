// What the programs of cases share: the page that they print, and the bytes that a line writes.
#![tactic(auto)]

mod bytes;
mod page;

pub use bytes::bytes_of;
pub use page::Page;
