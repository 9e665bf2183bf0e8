//! The machine's steps are the rules' steps.
//!
//! What goes in: nothing; these are laws. What comes out: nothing; they are clauses of functions that do nothing.
//! The contract: an operation that the machine does is a step between the numbers of paths that the rules speak of, so what the rules give holds behind it.
//! It stands on `ix_core` for the machine and on `ix_facts` for the rules, which know nothing of each other.
//! It never looks at a table of facts.
#![tactic(auto)]

mod calls;
mod fields;
mod laws;

pub use calls::call_steps;
pub use fields::field_steps;
pub use laws::{machine_laws, meaning_laws, stay_laws};
