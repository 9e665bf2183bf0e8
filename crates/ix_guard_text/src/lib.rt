//! The guarded text of the bytes of a source; and laws: it is an accepted source, where its parts stand, and what its names mean.
//!
//! What goes in: the bytes of a source without errors on names, and the errors of its program. What comes out: the bytes with the guards. The laws are over the definitions of `ix_guard`, of the
//! lexer, of the grammar and of the notes of a source.
//! The contract: `IsGuarded` of `specs/Guarding.antt`, and that the new bytes derive the guarded tree up to places; only want of memory stands in the way. The laws, from tokens to names:
//! - `inserted_tokens` of `InsertedTexts`: the tokens of a text with texts between its tokens are of the kinds of the old ones with those of the inserted texts between them. `bare_source` is a
//!   tree with one place everywhere; `source_again` of `SourcesAgain`: tokens of the same kinds have the same tree up to places. `moved_source` is a tree with each place moved;
//!   `source_moves` of `SourcesMoved`: the moved tokens of a source are one, with the moved tree.
//! - What a source's notes say doesn't depend on its places. Where no two places come to one, a source whose places are moved has the notes of the source, each at its place moved, but for the
//!   places of errors, by `notes_move` of `SourcesMove`; an accepted source exactly these, by `notes_moved` of `AcceptedMoved`. Of parts of a source this holds by any move, as by the one
//!   that moves all places to one. Two sources that are the same up to places have notes that are the same up to places, both are accepted or none, and their names mean the same: by
//!   `notes_again` of `SourcesAlike` and `accepts_again`, where the same fields are declared together, and of accepted sources by `notes_anywhere`, `accepts_anywhere` and
//!   `means_anywhere`, where fields whose types stand at one place are those of one declaration, as in each tree of a text by `source_is_joint`.
//! - `guarded_source` of `GuardedSources`: where bytes have tokens that are a source, the guarded bytes have tokens that are a source, and its tree is the guarded one up to places.
//! - `guarded_accepts` of `GuardedAccepts`: where a source is accepted, its guarded tree is; and `guarded_again` of `GuardedAgain`: so is the tree of its guarded text. And
//!   `AccessesSaid` and `DeclaredSaid`: what is so of all notes of an expression or a declaration, and of no error, is so of those of the names of its accesses.
//! - `GuardedAt` of `specs/GuardedPlaces`, each expression, type and name at its place moved; `guarded_places` of `SourcePlaces`: the guarded text is so;
//!   and `accesses_moved`, `assigned_moved` of `PartsMoved`, that the accesses and the assigned names of a moved expression are those of the expression, each at its place moved.
//! - `placed_says` of `PlacedSays`: at each place moved the guarded text's names say what the source's say at the place; and `placed_meant` of `PlacedMeant`: the names of a test
//!   mean what those of its access mean. Without tests it is `moved_says` of `MovedSays`, for places that are moved as `moving_is_injective` of `MovingApart` has it: no two come to one.
//!
//! It stands on the texts, trees and tests of `ix_guard`, on the lexer, the parser and names for the tree and the table, on the notes of `ix_meaning`, and on what `ix_formed` says of those of
//! accepted sources.
//! It never looks at words or files, at which accesses are proved, nor at how a source is run, and makes no program.
#![tactic(auto)]

mod guarding;

pub use guarding::guarded;
