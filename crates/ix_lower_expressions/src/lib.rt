//! From expressions to operations.
//!
//! What goes in: an expression, what its names mean, and where the variables are. What comes out: operations in the order of evaluation, and the slot of the value.
//! The contract: `lowering` and `assigns` of `ix_plain`.
//! It stands on `ix_plain`, and on `ix_symbols` for what names mean.
//! It never looks at statements.
#![tactic(auto)]

mod assigned;
mod expression;
mod made;
mod scope;

pub use assigned::{add_all, add_assigned, add_init};
pub use expression::{arguments, assign, call_op, condition, filling, value};
pub use made::{MOST_SLOTS, compute, copied_claims, done, empty, push, take};
pub use scope::{Scope, Site, constructor_at};
