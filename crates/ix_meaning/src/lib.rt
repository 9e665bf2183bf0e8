//! What each name of a source means, the type of each expression, and which rules on names, types and annotations are broken.
//!
//! What goes in: nothing; these are definitions and the types that they speak of. What comes out: what the crates above answer.
//! The contract: `notes` of `specs/Source.antt`, the JLS's scopes, members and types, with the rules of `specs/Rules.antt`. The laws of `proofs/FewDeclarations.antt`: a source
//! in which names can be looked up by places declares little, so that the numbers of its declarations fit; and of `proofs/SubclassesClimb.antt`: superclasses are exactly the classes that one
//! comes to from a class by going to the parent any number of times.
//! It stands on the trees of `ix_tree`, the types of `ix_core` and the claims of `ix_annot`.
//! It never looks at tokens or at the text, and at no value.
#![tactic(auto)]

mod members;
mod note;
mod span;

pub use ix_annot::{is_of_method, same_claim};
pub use members::{Field, Signature};
pub use note::{Declared, Meaning, NameError, NameErrors, Note, Rule, Which};
pub use span::same_span;
