//! Tables of facts, of one kind or of any, and what follows from facts.
//!
//! What goes in: facts. What comes out: of each key one fact, in the order of keys, what the facts say of it together; and more facts, as a list, so that tables of both say all that follows from
//! the facts: what holds along arrays of one length, searches, negative answers and classes of ints.
//! The contract: `IsTable` of `ix_facts`, exactly; the join says what both tables say (`IsCommon`); the order is that of what tables say (`SaysAll`); `more_that_follows`, and `more_beside` of closed
//! facts and few new ones, over `Follows` of `ix_facts`.
//! It stands on `ix_facts` for facts and what they say, on `ix_fact_paths` for sets of paths, on `ix_intervals` for constants, on `ix_lattice` for ranks.
//! It never looks at a rule of an operation: which facts it gives is told to it; nor at the program.
#![tactic(auto)]

mod apart;
mod beside;
mod classes;
mod closing;
mod entries;
mod fact_table;
mod insertion;
mod kinds;
mod labels;
mod links;
mod listed;
mod look_ups;
mod meets;
mod order;
mod rising;
mod row;
mod searches;
mod sorted;
mod tables;
mod walks;

pub use apart::{are_apart, are_proper};
pub use beside::{are_plain, more_beside};
pub use closing::more_that_follows;
pub use fact_table::FactTable;
pub use order::compare_facts;
pub use row::Row;
