//! Expressions (JLS 15), initialisers and declarators, read from tokens.
//!
//! Contract: `reads`, as in `ix_parse_base`. The rules of one height are methods over a function that reads the parts of a lower one, so that
//! each is proved by itself; `expressions::read` closes the knot, and only nesting recurses.
//! It stands on `ix_parse_base`. It must know no statement.
#![tactic(auto)]

pub mod arguments;
pub mod creations;
pub mod declarators;
pub mod expressions;
pub mod grammar;
pub mod initialisers;
pub mod levels;
pub mod primaries;
