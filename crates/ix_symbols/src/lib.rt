//! What each place of a source means, and its errors, read off its notes; and types and classes, as names in a source give them.
//!
//! What goes in: the notes of a source, in the order of its text; classes of the tree and types of `ix_core`. What comes out: a table of the notes by places, or the sorted list of errors; which
//! class a name means, which classes stand above it, and which types are one.
//! The contract: `names_in` of `specs/Resolved.antt`, `derived` and `IsListed` of `specs/Listed.antt`, `Classes` and `Types`, all of `ix_meaning`.
//! It stands on `ix_meaning`, on maps of std for places, and on `indexmap` for the names of classes, in the order in which they are first seen.
//! It never looks at a member or at a body.
#![tactic(auto)]

mod classes;
mod errors;
mod listing;
mod table;
mod types;

pub use classes::{
    ClassTable, class_table, is_among, is_cyclic, note_first, parent, parents, supers,
};
pub use listing::errors_of;
pub use table::{Table, table_of};
pub use types::{
    BOOLEAN, INT, Need, copied, copied_option, element, is_primitive, is_reference, need_like,
    same_type,
};
