//! What the outcome of a test tells, before anything is closed.
//!
//! What goes in: what is known, with the facts on each path at hand, and an outcome, as that `p < q + k`. What comes out: new facts.
//! The contract: `facts`, those that the rules of `ix_facts` give of the outcome, no more and no fewer; their order and repeats are open.
//! It stands on `ix_facts` for rules, for the facts on a path and for lists with the same facts, on `ix_intervals` for facts whose constants are kept.
//! It never looks at a table, nor at the program.
#![tactic(auto, using(std::proofs::lemmas::List::append_assoc, ix_intervals::specs::KeptLaws::kept_joined, ix_intervals::specs::KeptLaws::same_int))]

mod below;
mod bounds;
mod differences;
mod facts;
mod lengths;
mod outcome;
mod own;
mod parts;
mod ranges;
mod read;
mod shared;
mod tests;

pub use facts::facts_of_outcome;
pub use outcome::Outcome;
pub use tests::outcomes;
