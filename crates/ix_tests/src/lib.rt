//! Tests of stores, of numbers and of facts, with values from a Java virtual machine or from an independent checker, or worked out by hand.
//!
//! What goes in: rows of plain steps (`ix_fact_rows`) and of questions about numbers, each with what is to be seen behind it: what stores know behind operations, copies, claims, tests, joins, roundings,
//! field writes and calls; arithmetic, intervals, the low table, keys and solvers; lattices, lists of facts, what operations give, and the six tables.
//! They stand in a crate of their own, since a crate with tests is proved a second time.
#![tactic(auto)]

#[cfg(test)]
mod after;
#[cfg(test)]
mod after_claims;
#[cfg(test)]
mod after_operators;
#[cfg(test)]
mod after_others;
#[cfg(test)]
mod arith;
#[cfg(test)]
mod interval;
#[cfg(test)]
mod known;
#[cfg(test)]
mod lattices;
#[cfg(test)]
mod lists;
#[cfg(test)]
mod low_table;
#[cfg(test)]
mod numbers;
#[cfg(test)]
mod solvers;
#[cfg(test)]
mod store_changes;
#[cfg(test)]
mod store_claims;
#[cfg(test)]
mod store_closing;
#[cfg(test)]
mod store_comparisons;
#[cfg(test)]
mod store_copies;
#[cfg(test)]
mod store_drawn;
#[cfg(test)]
mod store_joins;
#[cfg(test)]
mod store_operations;
#[cfg(test)]
mod store_rounding;
#[cfg(test)]
mod store_sharing;
#[cfg(test)]
mod store_sums;
#[cfg(test)]
mod store_unreachable;
#[cfg(test)]
mod stores;
#[cfg(test)]
mod table_copies;
#[cfg(test)]
mod table_made;
#[cfg(test)]
mod table_many;
#[cfg(test)]
mod table_operators;
#[cfg(test)]
mod table_orders;
#[cfg(test)]
mod table_others;
#[cfg(test)]
mod table_sums;
#[cfg(test)]
mod tables;
