//! What an annotation claims.
//!
//! What goes in: an annotation of the tree, and what it may name. What comes out: its claims, or why it has none.
//! The contract: `expanded` of `specs/Expansion.antt`, the table of the Checker Framework manual's Index Checker and Constant Value Checker.
//! It stands on the trees of `ix_tree` and the claims of `ix_core`.
//! It never looks at a class, at a body, or at another annotation.
#![tactic(auto)]

mod arguments;
mod characters;
mod expansion;
mod naming;
mod same;
mod scope;
mod table;
mod texts;
mod words;

pub use arguments::{Plan, Written};
pub use expansion::{MOST_CLAIMS, claims, expand};
pub use ix_core::Post;
pub use naming::{InScope, Names, same_name, what_holds};
pub use same::same_claim;
pub use scope::{AnnotError, Claims, Found, Holds, Scope, Target};
pub use table::{EachArray, Says, Targets, counted, fits, is_of_method, row_named};
pub use texts::{Naming, Offset, array_text, bound_text, offset_text};
