// What every crate speaks of: places in files, the kinds of refusal, out of memory, limits, words
// and keywords, names, and what is counted against a limit.
#![tactic(auto)]

mod depth;
mod fault;
mod keyword;
mod kind;
mod limit;
mod names;
mod one_drop;
mod steps;
mod stop;
mod word;

pub use depth::Depth;
pub use fault::{Fault, Span};
pub use keyword::{Keyword, keyword_of};
pub use kind::Kind;
pub use limit::{FILE_LIMIT, INTEGER_LIMIT, OPEN_LIMIT};
pub use names::{Name, Names};
pub use one_drop::OneDrop;
pub use steps::Steps;
pub use stop::{Memory, Stop};
pub use word::{is_digit, is_identifier, is_letter, is_word_byte};
