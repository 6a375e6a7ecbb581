// The outside of the compiler: the files it reads, the solver's stream, where it writes, and files, a source and a sink in memory that never fail.
#![tactic(auto)]

mod all_bytes;
mod disk_files;
mod files;
mod mem_files;
mod mem_sink;
mod mem_source;
mod sink;
mod source;
mod std_sink;
mod std_source;
mod sure_files;
mod sure_sink;
mod sure_source;

pub use all_bytes::{ReadEnd, read_all};
pub use disk_files::DiskFiles;
pub use files::{Fetched, Files};
pub use mem_files::MemFiles;
pub use mem_sink::MemSink;
pub use mem_source::MemSource;
pub use sink::{Sent, Sink};
pub use source::{Source, Took};
pub use std_sink::StdSink;
pub use std_source::StdSource;
pub use sure_files::SureFiles;
pub use sure_sink::SureSink;
pub use sure_source::SureSource;
