//! The grammar, as a relation between lists of tokens and trees: what has to be believed of the parser, and nothing else.
//!
//! `specs/` has one constructor for each alternative of docs/LANGUAGE.md, with heights and spans; `HasTree` and `Refused` are what `parse`
//! answers. The code is the records that the relation speaks of (a node with its height and its last token), which a proof above can name.
//! It stands on the tokens of `ix_lexer` and the types of `ix_tree`. It must know no order of reading: that is `ix_grammar_rules`'s.
#![tactic(auto)]

pub mod classes;
pub mod declarations;
pub mod error;
pub mod found;
pub mod spans;
