//! What rows of facts are made of: operations as plain data, paths by short names, drawn facts, and whether facts are the same or say others.
//!
//! What goes in: plain steps of a row, facts. What comes out: operations, drawn facts, whether a fact is among others or within the bounds that the calls ask for.
//! The contract: `is_small` and `is_proper`: what they let through may be known, or be added to a table.
//! It stands on `ix_facts`. It is a crate of its own since rows of tables and rows of stores are made of it, and has no code that may end the process.
//! It never looks at a row, at a table or at a store.
#![tactic(auto)]

mod does;
mod drawn;
pub mod paths;
mod said;
mod small;

pub use does::{Does, Holds, operation, type_of};
pub use drawn::{drawn_facts, with_fact};
pub use said::{is_among, is_fact, says_all};
pub use small::{is_proper, is_small};
