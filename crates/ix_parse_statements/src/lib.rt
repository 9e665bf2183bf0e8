//! Statements and declarations of locals (JLS 14), read from tokens.
//!
//! Contract: `reads`, as in `ix_parse_base`. The rules of one height are methods over a function that reads the statements of a lower one;
//! `statement_rules::statement` closes the knot.
//! It stands on `ix_parse_expressions`. It must know no class.
#![tactic(auto)]

pub mod beginnings;
pub mod finished_statements;
pub mod high_variables;
pub mod locals;
pub mod loops;
pub mod plain_statements;
pub mod printing;
pub mod simple_statements;
pub mod statement_parts;
pub mod statement_rules;

pub use ix_parse_expressions::{declarators, expressions};
