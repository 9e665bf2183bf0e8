//! The text of a source with a test and a throw before each access on names that isn't proved.
//!
//! What goes in: the bytes of a source, its tree, the table of its names and its errors. What comes out: the bytes with the tests.
//! The contract: `guarded` of `specs/Guards.antt`, and that the bytes are the source's but for the texts inserted.
//! It stands on the tree, on `ix_symbols` for what names mean, on `ix_core` for errors, on sets of std for their places.
//! It never looks at tokens, and knows no rule of the checker but which errors speak of an index.
#![tactic(auto, using(std::proofs::lemmas::List::append_assoc))]

mod guards;
mod insertion;
mod parts;
mod site;
mod statement;
mod test;

pub use guards::guard;
pub use insertion::Insertion;
