//! What names mean at a place, the rules on names and types, and what expressions mean, with their types (JLS 6.5, 15).
//!
//! What goes in: a name or an expression of the tree, the members of all classes, and the parameters and locals in scope. What comes out: what the name means there, also in an
//! annotation; the type of the expression; and the notes of all that it says, with an error for each rule that is broken.
//! The contract: `reading` of `ix_meaning`'s `Values`, and its `Scope` and `Rules`.
//! It stands on `ix_class_members`, on `indexmap` for the names of locals, in the order in which they are declared, and on `smallvec` for the scopes that are open.
//! It never looks at a statement.
#![tactic(auto)]

mod names;
mod naming;
mod rules;
mod scope;
mod selections;
mod values;

pub use naming::InAnnotation;
pub use rules::{note_declared, wrong, wrong_if};
pub use scope::{Known, Local, Param, Scopes};
pub use values::{arguments, check, fill, given_to, value};
