//! The laws of an analysis can be met by a program with fields, constructors and calls.
//!
//! What goes in: nothing; this is a law. What comes out: nothing; it is the clauses of a function that does nothing.
//! The contract: a small analysis with facts on slots and on fields keeps the laws of `ix_core` for one program, which so is safe.
//! It stands on `ix_core` for the machine, the invariant and the laws.
//! It never looks at the checker's own facts: nothing stands on it.
#![tactic(auto)]

mod laws;

pub use laws::counter_laws;
