//! Facts by the paths that they name, the order of paths, and the facts that stay in a step.
//!
//! What goes in: facts, a path, an operation, a field, a call or a scope, landmarks. What comes out: the facts on a path, of few facts all, of many those of a near path by its place and those of any
//! other by binary search; the ints and the arrays that facts name, each once; whether a fact names a path that is changed, and the facts that are kept.
//! The contract: `Grouped` has the facts that name a path; `PathSet` is a set of paths in order; the definitions of `ix_facts` on names, orders of paths, rounding, and on what a step may change
//! (`is_changed`, `without`), exactly.
//! It stands on `ix_facts` for facts.
//! It never looks at what facts say of their paths, nor at what follows from them.
#![tactic(auto)]

mod by_path;
mod by_slot;
mod changed;
mod filters;
mod forget;
mod grouped;
mod landmarks;
mod marks;
mod named;
mod orders;
mod path_facts;
mod path_index;
mod path_order;
mod path_set;
mod room;
mod spared;

pub use by_slot::{PLACES, near_place};
pub use changed::{Changed, changes_some, unchanged, unchanged_paths};
pub use filters::{facts_without_path, facts_without_target, rounded_facts};
pub use forget::{is_of_path, is_of_target, names_path, names_target};
pub use grouped::Grouped;
pub use named::{ints_and_arrays, ints_and_arrays_among, with_ints};
pub use orders::{have_one_order, in_all_orders};
pub use path_index::PathIndex;
pub use path_order::{compare_offsets, compare_paths, offset_order_laws, path_order_laws};
pub use path_set::PathSet;
pub use room::room_for;
pub use spared::{assigned_path, some_name_path, some_name_target};
