//! The words of a command line as a command.
//!
//! What goes in: the words after the program's name. What comes out: the command that they are, or none.
//! The contract: `specs/Words.antt`, which reads the words one by one, and `specs/Commands.antt`, which says what each command takes.
//! It stands on `clap`, which reads options and positionals.
//! It never opens a file, and never says what is wrong with words that are no command.
#![tactic(auto)]

mod commands;
mod matching;
mod values;

pub use commands::{Command, read_words};
pub use values::{Limits, Sums};
