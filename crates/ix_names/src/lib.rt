//! Names, types and annotations of a whole source: its members and the statements of their bodies (JLS 6.3, 8, 14).
//!
//! What goes in: the tree of a source. What comes out: a table of what each name means, or the list of all its errors, or a limit that it passes.
//! The contract: `names`, `Accepts` and `Refuses` of `ix_meaning`'s `Resolved`; the first limit that is passed (too many classes, methods, parameters, claims or inherited classes), with its
//! place, is `limit` or `inheritance_limit` of its `specs/Limits.antt`. Of a member `field_notes` and `method_notes` of its `Source`; of the statements of a body `telling` of its `Bodies`, with
//! the names in scope behind them.
//! It stands on the expressions of `ix_expression_types`, the rules of `ix_class_members`, on `ix_annot` for what an annotation counts, on the tables and superclasses of `ix_symbols`, and on
//! `smallvec` for the scopes that are open.
//! It never looks at tokens or at the text.
#![tactic(auto)]

mod body;
mod claims;
mod classes;
mod counts;
mod fields;
mod heads;
mod inheritance;
mod locals;
mod methods;
mod params;
mod parents;
mod passed;
mod places;
mod resolving;

pub use fields::field;
pub use ix_symbols::Table;
pub use methods::method;
pub use parents::implicit_super;
pub use resolving::resolve;
