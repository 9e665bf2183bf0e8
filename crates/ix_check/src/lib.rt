//! The check of a program: which errors the rules derive, as they are listed, and the labels that they are derived at; also of a source that is joined with another text, as with a library.
//!
//! What goes in: a formed program, and a profile; of a joined source the byte where the other text begins. What comes out: its errors, those of one method or those of each text, and the least labels of a
//! method's loops.
//! The contract: exactly the list of the errors that no flow of a method avoids, which are those that the rules derive at the least labels, and of those of the text; a program without
//! errors is `Safe`. Errors hang on the method's own text and on the signatures of the program alone (`judged_alone`): programs with the same signatures have the same errors in a method
//! that they share. Of a joined source the one list has exactly the errors of the methods that stand before that byte, the other those of all others.
//! It stands on `ix_labels` for the least labels, on `ix_errors` for errors and their lists, on `ix_soundness` for the promise and for what is asked of a program.
//! It never looks at a source: neither at its tree, nor at its text; nor at how labels are found or how a store is kept.
#![tactic(auto)]

mod alone;
mod laws;
mod loops;
mod method;
mod nodes;
mod parts;
mod program;
mod whole;

pub use alone::method_errors;
pub use ix_errors::{Ranked, list_errors};
pub use ix_labels::Store;
pub use ix_soundness::{names_are_small, overridden_is_there};
pub use laws::{judged_alone, loops_are_in_order};
pub use loops::{labels, method_labels};
pub use parts::check_joined;
pub use program::{program_errors, ranked_errors};
pub use whole::{check, check_program};
