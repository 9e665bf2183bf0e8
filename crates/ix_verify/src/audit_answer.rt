//! What an audit answers.

use ix_core::Error;

/// The answer of an audit.
#[derive(Drop)]
pub enum Audit {
    /// The labels hold, and the rules derive no error at them.
    Clean,
    /// A method and a loop of it whose label isn't above what comes to the loop's head.
    Loop(u32, u32),
    /// The errors, as they are listed.
    Errors(Vec<Error>),
}
