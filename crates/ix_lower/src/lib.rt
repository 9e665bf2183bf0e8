//! From a source and what its names mean to its plain form.
//!
//! What goes in: the tree, and the table of its names. What comes out: the program, or the limit that one of its methods passes.
//! The contract: `program` of `ix_plain`; of a tree that `parse` answers, without errors on names, it is `Formed` as `ix_core` defines it.
//! It stands on `ix_lower_statements` for statements, on `ix_class_members` for which method overrides which, and on `ix_formed` for the last.
//! It never looks at tokens or at the text.
#![tactic(auto)]

mod constructor;
mod home;
mod member;
mod method;
mod number;
mod post;
mod source;

pub use source::{LowerError, lower};
