//! The facts that the claims of declarations add: at entry, of a call's result, of fields, of new objects.
//!
//! What goes in: a program, a method, a call or a field. What comes out: lists of facts, before they are closed; the paths that names stand for.
//! The contract: the lists that the rules of signatures and objects add (`Signs`), fact for fact.
//! It stands on `ix_transfer_rules` for what a claim adds, on `ix_core` for classes and fields.
//! It never looks at a store or at a body.
#![tactic(auto)]

mod calls;
mod dependent;
mod entry;
mod facts;
mod fields;
mod naming;
mod overriding;
mod paths;
mod posts;

pub use calls::{facts_of_this, is_effect_free, result_facts, told_facts};
pub use dependent::{names_field, push_dependents};
pub use entry::entry_facts;
pub use facts::{
    claims_of, push_claims, push_fields, push_params, push_received, push_received_params,
    push_zero_fields,
};
pub use fields::{facts_at_read, facts_at_write, is_built, spared_at_write, this_if};
pub use naming::Naming;
pub use overriding::{asked_facts, called_facts, own_result, result_slot};
pub use paths::param_slot;
