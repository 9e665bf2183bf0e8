//! The program: words, files and standard streams of the process, handed to `run_tool`.
//!
//! What goes in: the process's words and files. What comes out: its two streams and its status.
//! The contract: none of its own. `FileSource` and `StdSink` of `ix_process` are the trusted edge: their logs say what the system's calls handed out and took.
//! It stands on `ix_tool` and `ix_process`, and never looks at what it hands on.
#![tactic(auto)]

use ix_process::{FileSource, StdSink};
use ix_replies::{Status, wanting};
use ix_tool::run_tool;
use std::alloc::Global;
use std::env;
use std::io::ErrorKind;
use std::process::ExitCode;

/// The words behind the program's name: none where memory is wanting, and no word at all where one of them, or the program's own name, isn't
/// UTF-8, so that such words are no command.
fn words(rt: &HostRuntime, alloc: Global) -> Option<Vec<String>> {
    match env::args(rt) {
        Ok(words) => words.skip(1).collect(alloc).ok(),
        Err(error) => match error.kind() {
            ErrorKind::OutOfMemory => None,
            _ => Some(Vec::new(alloc)),
        },
    }
}

/// Answers through the process's streams.
fn answer(rt: &HostRuntime, alloc: Global) -> Status {
    let mut err = StdSink::new(rt.stderr());
    let Some(words) = words(rt, alloc) else {
        return wanting(&mut err);
    };
    let mut files = FileSource::new(rt);
    let mut out = StdSink::new(rt.stdout());
    run_tool(alloc, &words, &mut files, &mut out, &mut err)
}

fn main(rt: HostRuntime) -> ExitCode {
    let alloc = rt.alloc();
    ExitCode::from(answer(&rt, alloc).number())
}
