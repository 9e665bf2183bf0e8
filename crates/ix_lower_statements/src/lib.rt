//! From statements to blocks, and how many loops and operations there are.
//!
//! What goes in: the statements of a body, what their names mean, and the body so far. What comes out: the body with them.
//! The contract: `statement` of `ix_plain`, and the counts of its `Counts`.
//! It stands on `ix_lower_expressions` for expressions.
//! It never looks at classes.
#![tactic(auto)]

mod access;
mod count;
mod declare;
mod full;
mod statement;

pub use access::accesses;
pub use count::{count_operations, loops, one_more};
pub use declare::{declared_type, init_span};
pub use full::{copied_text, evaluate_init};
pub use statement::{MOST_LOOPS, each};
