//! A formed program in which the rules derive no error is safe, and a formed program is ready to be judged.
//!
//! What goes in: nothing, for these are laws.
//! The contract: where each method has a flow with no error at any point, and none by its text, no run indexes outside an array. A formed program meets all that is asked of a program whose
//! methods are judged, where its locals and fields can be counted with 32 bits; `CanCheck` is what is asked beside.
//! It stands on `ix_core` for what is formed, the machine and the laws of an analysis, on `ix_sign` for the rules, on `ix_rules_hold` for what ties the two.
//! It never looks at how the solver and the checker find what a flow is, nor at how a program comes of a source.
#![tactic(auto)]

mod judged;
mod laws;

pub use judged::{names_are_small, overridden_is_there};
pub use laws::soundness;
