//! The new facts after an operation or a copy: what its own rule gives, and what follows of that with what is known, before anything is closed.
//!
//! What goes in: what is known beside the target, with the facts on each path at hand, and an operation. What comes out: new facts: of its rule, and of these the differences and bounds of the
//! target along stored ones, and by ranges beside each named int and array.
//! The contract: `facts`, the new facts of the rules of `ix_facts`, no more and no fewer (`SameFacts.antt`), over the facts on each path and each named path once; their order and repeats are open.
//! It stands on `ix_transfer_rules` for what the operation gives, on `ix_intervals` for facts whose constants are kept, on `ix_facts` for the facts on a path.
//! It never looks at a table.
#![tactic(auto, using(std::proofs::lemmas::List::append_assoc, ix_intervals::specs::KeptLaws::kept_joined, ix_intervals::specs::KeptLaws::same_int))]

mod along;
mod beside;
mod finish;
mod new_ends;
mod new_facts;

pub use finish::{push_finish_array, push_finish_int, push_finished, push_finished_by};
pub use ix_transfer_rules::push_claim;
pub use new_facts::{facts_after, facts_of_copy};
