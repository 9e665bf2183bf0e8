//! What the checker may know of the numbers in a state, and what each operation and test lets it know next.
//!
//! What goes in: facts. What comes out: the bounds that they give, the facts after an operation, a test, a claim, a forget, rounding.
//! The contract: the rules as definitions, each sound and monotone (`laws.rt`); the traits `Know` and `System` that each table of facts meets, and `Indexed`, what is known by
//! the paths that it names: the facts on a path are all facts that name it, in all their orders, and a rule that reads no other fact gives the same of them as of all (`OnPaths.antt`).
//! It stands on `ix_core` for the plain form, on `ix_tables` for the low table, on `ix_lattice` for orders.
//! It never looks at a state of the machine: of a state it knows the numbers of paths alone.
#![tactic(auto)]

mod conditions;
mod indexed;
mod kind;
mod know;
mod landmarks;
mod laws;
mod same;
mod stores;
mod system;
mod types;

pub use conditions::{Blocks, condition_laws};
pub use indexed::Indexed;
pub use ix_core::{Fact, Path, PathOff, Profile, UnaryNum};
pub use ix_tables::{Low, low_table};
pub use kind::{Kind, is_of_kind, kind_of_fact};
pub use know::Know;
pub use landmarks::Landmarks;
pub use laws::{
    bounds_laws, claim_laws, closing_laws, forget_laws, form_laws, operation_laws, system_laws,
    test_laws,
};
pub use same::{greater, is_same_offset, is_same_path, lesser};
pub use stores::{field_laws, rule_laws, store_laws};
pub use system::System;
pub use types::{holds_arrays, holds_ints, is_array, is_int};
