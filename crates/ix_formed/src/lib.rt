//! What every tree has that the grammar writes, and what every program has that lowering gives of one: it is `Formed`, as `ix_core` defines it, and ready to be checked.
//!
//! What goes in and what comes out: nothing; these are laws over the grammar as a relation and over the definition of the plain form.
//! The contract: the lemmas of `proofs/`, each named for what it says. `parsed` of `ParsedTrees`: a tree of the tokens of a text is one that lowering rests on (`IsParsed`);
//! `formed_source` of `FormedSources`: the program of such a tree is formed. And each place that an error on names, a limit or the program of a source names is the place of a node of
//! its tree, which stands in the text: `placed_nodes` of `PlacedNodes`, the laws of `RefusalsStand`, `placed_program` and `placed_limit` of `PlacedPrograms`. Of an accepted source no claim on a
//! local names another local of the same slot, as `LocalsApart` of `ix_core` asks, and all numbers of its program have 32 bits.
//! They stand on the grammar of `ix_grammar`, the tokens of `ix_lexer`, the layouts of `ix_tree`, the meanings of `ix_meaning`, the plain form of `ix_plain`, and on `ix_core` for `Formed`, `CanCheck`
//! and places.
//! They never look at facts or rules, at how anything is computed, nor at how a text or its tokens are read.
#![tactic(auto)]

mod laws;

pub use laws::{lowered_is_few, lowered_locals_are_apart};
