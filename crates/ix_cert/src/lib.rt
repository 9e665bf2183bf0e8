//! Certificates: the labels of all loops of a program, written down and read back.
//!
//! What goes in: a program, and a profile with labels, or a text. What comes out: the text of these labels, or the profile and the labels of a text.
//! The contract: `IsLabelling` of `specs/Labellings.antt`; a text is read exactly where it is a labelling of the program. A text has one meaning, and
//! labels that say the same have one text.
//! It stands on `ix_store` for what is a store, and on `ix_core` for programs and facts.
//! It never looks at a rule: whether labels are right is no question here.
#![tactic(auto)]

mod cut;
mod facts;
mod laws;
mod line;
mod lines;
mod loops;
mod printing;
mod reading;
mod stop;
mod words;

pub use ix_store::Store;
pub use laws::{formed_paths_are_small, labels_have_one_text, texts_have_one_meaning};
pub use line::add_fact;
pub use printing::print;
pub use reading::read;
