//! What a command names, and what is read for it.
ghost use Rattle.std.specs.Prelude.{◌≡◌, IfOk, string_bytes};
ghost use Rattle.ix_front.specs.Sources as spec;
ghost use Rattle.ix_words.specs.Shown.{shown};

use crate::finding::Finding;
use ix_words::Command;
use std::alloc::{AllocError, Global};

/// What the source of a command is called.
pub fn source_name(alloc: Global, command: &Command<'_>) -> Result<String, AllocError>
    ensures { IfOk result (λ name. string_bytes name ≡ spec.source_name (shown command.now)) }
{
    match command {
        Command::Check { file, .. } => String::from_str(alloc, file),
        Command::Run { file, .. } => String::from_str(alloc, file),
        Command::Bench(count) => format!(in alloc; "bench {count}"),
        Command::Verify { file, .. } => String::from_str(alloc, file),
        Command::Guard { file, .. } => String::from_str(alloc, file),
    }
}

/// What a command is answered on.
#[derive(Drop)]
pub struct Inputs {
    /// The bytes of the source.
    pub bytes: Vec<u8>,
    /// What is found of them.
    pub finding: Finding,
    /// The text of the certificate, where one was opened.
    pub cert: Option<Vec<u8>>,
}
