//! The rules of one method: what each operation gives, calls and accesses to fields among them, and which errors it has.
//!
//! What goes in: a program, one of its methods, a profile, an operation, and the store before it. What comes out: the store behind it; also the one at the method's entry, and the one
//! where the answer of a call is known.
//! The contract: the rules of the method as rules of flow, with their laws; each store is the least that they give.
//! It stands on `ix_store` for stores, on `ix_signatures` for what claims add, on `ix_flow` for what a rule of flow is.
//! It never looks at how a body is put together, nor makes a list of errors.
#![tactic(auto)]

mod calls;
mod entry;
mod fields;
mod operations;
mod told;
mod variable;
mod variables;

pub use entry::enter;
pub use ix_store::Store;
pub use operations::after;
pub use told::tell;
pub use variable::Variable;
pub use variables::variable_at;
