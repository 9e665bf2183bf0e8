//! The process's files and standard streams as sources and sinks.
//!
//! What goes in: paths of files, a stream of the process. What comes out: a source that reads these files, a sink that writes to the stream.
//! The contract: `Source` and `Sink` of `ix_outside`, with logs that say what the system's calls handed out and took. This is the trusted edge: that these calls
//! do what their names say is taken on trust.
//! It stands on `ix_outside`, and never looks at what it hands on.
#![tactic(auto)]

mod files;
mod streams;

pub use files::FileSource;
pub use streams::StdSink;
