//! Runs as a command asks for them: what the machine prints and how it ends, or the line on inputs that begin no run.
//!
//! What goes in: a program and the bytes of its source, how a run is made, an entry and words. What comes out: a status, and what each sink took.
//! The contract: `play`, whose answer `RunAnswers` of `specs/Runs.antt` defines; a run writes what it prints, and where that is asked each access, as `specs/Texts.antt` says, over the
//! steps of the machine of `ix_core`.
//! It stands on `ix_machine` for the machine, on `ix_report` for the lines, on `ix_outside` for sinks, on `ix_replies` for what is delivered.
//! It never looks at how a source is read, nor at its errors.
#![tactic(auto)]

mod lines;
mod playing;
mod running;
mod tracing;

pub use playing::{Manner, play};
