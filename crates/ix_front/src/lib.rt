//! What a command is answered on: its source and what is found of it, and the text of its certificate.
//!
//! What goes in: the bytes of a file; a command. What comes out: the one cause for which the bytes are no source, their errors on names, or their program; what the source is called; and
//! the shape of what is read for a command.
//! The contract: `of_bytes` answers what `specs/Found.antt` defines, and nothing else is found; the plain form of a source is `Formed`, and one that can be checked. `source_name`, and the
//! definitions of `specs/Sources.antt`, what a command names, and `specs/Opened.antt`, which files are opened.
//! It stands on the lexer, the parser, `ix_formed` for what every tree has, names and the plain form, on `ix_formed` for what is asked of a program that is checked; on `ix_gen` for the
//! workload of `bench`, on `ix_library` for the library, on `ix_outside` for what is seen of files.
//! It never reads a file, and never looks at what a command is answered.
#![tactic(auto)]

mod finding;
mod source;

pub use finding::{Finding, of_bytes};
pub use source::{Inputs, source_name};
