//! What the plain form of a source is.
//!
//! What goes in: nothing; these are definitions and the types that they speak of. What comes out: what the crate that lowers answers.
//! The contract: `program` of `specs/Program.antt`, the order of evaluation of the JLS with each step an operation of its own.
//! It stands on the trees of `ix_tree`, the meanings of `ix_meaning` and the plain form's types in `ix_core`.
//! It never looks at tokens, at the text, or at how names are looked up.
#![tactic(auto)]

mod body;
mod made;
mod numbers;

pub use body::{Body, Head};
pub use made::{Made, Spot, Stop};
pub use numbers::Next;
