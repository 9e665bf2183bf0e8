//! The world outside: files that are opened and read, sinks that take bytes.
//!
//! What goes in: names and texts. What comes out: the bytes of a file, a text that is written whole, or a fault.
//! The contract: the traits `Source` and `Sink`, whose logs say what was opened, handed out and taken; `read_file` and `write_all` over any of them.
//! It stands on `ix_text` for the files and sinks in memory.
//! It never looks at what the bytes say.
#![tactic(auto)]

mod faults;
mod logs;
mod memory_sink;
mod memory_source;
mod reading;
mod sink;
mod source;
mod writing;

pub use faults::raised;
pub use logs::{SinkLog, SourceLog};
pub use memory_sink::{MemSink, SureSink};
pub use memory_source::{MemSource, SureSource};
pub use reading::{MOST_BYTES, MOST_CERTIFICATE, ReadError, read_file};
pub use sink::{Sink, WriteError};
pub use source::{Failed, OpenError, Source};
pub use writing::write_all;
