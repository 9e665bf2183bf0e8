//! The six systems of facts: one table of the facts of one kind, under six names.
//!
//! What goes in: facts that are known, and an operation, a copy, a path to forget, landmarks or a fact. What comes out: the facts of one kind that are known
//! after it.
//! The contract: `System` and `Lattice`: what the rules give of the kind, exactly. Of all kinds: the new facts of the rules of `ix_facts`, no more and no fewer.
//! It stands on `ix_fact_table` for tables of facts, on `ix_transfer` for the rules, on `ix_fact_list` for a list of what is known, with the facts on each path
//! at hand.
//! It never looks at the tables of other systems: what they know comes by `Know`, fact by fact. No answer of the program depends on it: a store has tables of its own.
#![tactic(auto)]

mod after;
mod facts_of;
mod kinds;
mod known;
mod one_kind;
mod system;
mod tables;

pub use after::{new_facts, new_facts_of_copy};
pub use facts_of::FactsOf;
pub use kinds::{
    Bounds, Differences, Lengths, LessFacts, LowFacts, Lows, RangeFacts, Ranges, SameFacts,
    SearchFacts, Searches, UpperFacts,
};
pub use one_kind::OneKind;
