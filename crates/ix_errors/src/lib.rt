//! The errors of one method: of its operations, its signature, its objects and its text, and the list of errors, in their order, each once.
//!
//! What goes in: a program, one of its methods, an operation, and the store before it. What comes out: the errors of the operation, each with the place of its claim: accesses and lengths that aren't
//! proved, claims of arguments, results, fields and overridden methods, and posts; by the text alone a parameter that is assigned though a claim of the result or a post names it, and a `this`
//! of a constructor that escapes. Of errors in any order, also several times, comes out how they are listed.
//! The contract: each list has exactly the errors that the rules of `ix_sign` derive; by the text those of `AssignsNamed`, `OpEscapes` and `TestEscapes`; `IsErrorList` of `specs/ErrorList.antt`, and
//! no two such lists are one of the same errors (law).
//! It stands on `ix_store` for stores, on `ix_signatures` for what claims add and refuse, on `ix_sign` for rules and variables, on `ix_core` for fields.
//! It never looks at how a body is put together, nor at the stores behind operations.
#![tactic(auto)]

mod accesses;
mod call_errors;
mod comparisons;
mod elements;
mod field_errors;
mod key;
mod leave;
mod list;
mod op_errors;
mod operations;
mod overriding;
mod parameters;
mod parts;
mod posts;
mod ranked;
mod this;
mod unproved;
mod write;

pub use call_errors::{push_argument_errors, push_effect_error};
pub use comparisons::push_escapes_in;
pub use field_errors::push_field_errors;
pub use ix_sign::Store;
pub use leave::{push_constructor_errors, push_missing_return, push_return_errors};
pub use list::list_errors;
pub use op_errors::push_op_errors;
pub use operations::push_escapes_of;
pub use overriding::push_override_errors;
pub use parameters::push_assigned_parameter;
pub use posts::push_post_errors;
pub use ranked::{Ranked, push_plain};
pub use unproved::{Report, push_unproved, refuses};
pub use write::Write;
