//! What a test tells by its answer.
//!
//! What goes in: a store, and a test of two slots. What comes out: the store where it is true, and that where it is false.
//! The contract: `IsTested` of `ix_facts`: one outcome after the other is told to the store, and each reads what those before it gave, closed.
//! It stands on `ix_store` for stores, on `ix_test_facts` for what an answer tells.
//! It never looks at how a store is kept.
#![tactic(auto)]

mod branches;

pub use branches::{branch, branch_test};
