//! The same grammar as rules that read with one token in hand, and what they have to do with it. Nothing here has to be believed.
//!
//! `specs/*Rules.antt` are the rules as data and `run` reads with them; `proofs/` shows that they read exactly the relation of `ix_grammar`,
//! and stop exactly where nothing goes on. Contract of the crates above: `Follows`, with which each function says which rule it reads.
//! Laws go by the derivation of a tree too: where its nodes stand in the text, one behind the other between the first and the last byte of their tokens, so that names can be looked up by
//! places, and how high it is. What `parse` cites: `source_placed`, `source_can_resolve`, `source_low`.
//! It stands on `ix_grammar`. It has no code but the words that rules and functions are asked with, and never looks at the text.
#![tactic(auto)]

pub mod aims;
pub mod begun;
pub mod stop;
