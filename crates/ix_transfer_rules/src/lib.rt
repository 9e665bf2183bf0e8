//! What an operation, a copy and a claim newly give: lists of facts, before they are closed.
//!
//! What goes in: what is known, and an operation. What comes out: the facts that its own rule gives of its target.
//! The contract: the rules of `ix_facts`, list for list, over the facts on each operand and the named arrays.
//! It stands on `ix_intervals` for exact intervals and facts whose constants are kept, and on `ix_facts` for bounds and rules.
//! It never looks at a table, and nothing is closed here.
#![tactic(auto, using(std::proofs::lemmas::List::append_assoc, ix_intervals::specs::KeptLaws::kept_joined, ix_intervals::specs::KeptLaws::same_int))]

mod claims;
mod copies;
mod lengths;
mod loaded;
mod new_facts;
mod operation;
mod plain;
mod sums;

pub use claims::push_claim;
pub use copies::push_copied;
pub use ix_intervals::push_if;
pub use new_facts::push_new_facts;
