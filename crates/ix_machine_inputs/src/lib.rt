//! The inputs of a run: the method that it begins with, the values that its words write, and the first claim that they don't meet.
//!
//! What goes in: `CLASS.METHOD`, words and the types of parameters, or a method and its inputs. What comes out: a method, inputs, or what is wrong with them.
//! The contract: `specs/Entries.antt` says which method is meant; `specs/Words.antt` what a word writes, in both directions, by the words of values in
//! `ix_core`'s `Inputs.antt`; `first_unmet` is its definition there, read through `specs/Shown.antt`.
//! It stands on the plain form of `ix_core`, and never looks at code, frames or the heap.
#![tactic(auto)]

mod claims;
mod entries;
mod input;
mod values;
mod words;

pub use claims::{Unmet, first_unmet};
pub use entries::entry_of;
pub use input::Input;
pub use values::{InputError, input_of, inputs_of};
