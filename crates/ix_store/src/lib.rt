//! One store of all facts that are known at a place of a program: unreachable, or closed facts.
//!
//! What goes in: facts, an operation, a copy, a claim, what a test tells, what a step may change, landmarks. What comes out: the store behind it, whether a claim is proved, and a store's facts and the bounds that they give.
//! The contract: the stores of `ix_facts`: behind a rule stands the closed store of what the rule gives of the facts before. A store meets `Know`.
//! It stands on `ix_fact_table` for what follows from facts and for tables, on `ix_fact_paths` for what a step may change, on `ix_transfer`, `ix_test_facts` and `ix_transfer_rules` for rules.
//! It never looks at the program but for the operation that it is told.
#![tactic(auto, using(std::proofs::lemmas::List::append_assoc, ix_intervals::specs::KeptLaws::kept_joined, ix_intervals::specs::KeptLaws::same_int))]

mod closed;
mod facts_after;
mod given;
mod know;
mod known;
mod known_bounds;
mod lattice;
mod limited;
mod nothing;
mod orders;
mod over;
mod rules;
mod seen;
mod store;

pub use store::Store;
