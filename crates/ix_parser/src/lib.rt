//! From tokens to the tree; and the readers of members, classes and whole sources (JLS 7, 8).
//!
//! What goes in: the tokens of a text. What comes out: the one tree that the grammar gives them, or the token at which reading stopped.
//! The contract: `parse`, over the relation of `ix_grammar`; `proofs/` puts together what `ix_grammar_rules` shows of it. Of a reader `reads`, as in `ix_parse_base`: `sources::source` answers
//! what the rule of a source of a height of at most 200 reads.
//! It stands on `ix_parse_statements` for the reading of bodies, and on `ix_grammar_rules`.
//! It never looks at the text, and never at what a name means.
#![tactic(auto)]

pub mod bodies;
pub mod class_rules;
pub mod member_rules;
pub mod parameters;
mod parse_tree;
pub mod sources;

pub use parse_tree::parse;
