//! Laws: what is promised of a guarded text.
//!
//! What goes in and what comes out: nothing; these are laws over the definitions of guarded texts, of the rules and of the meaning of sources.
//! The contract: `GuardsWell` of `specs/Promise`, which all bytes have: in the guarded text of a source no error of bounds is derived at a guarded access, and a run of
//! it prints what a run of the source prints, up to the throw of a guard. On the way there:
//! - all accesses of a source, wherever they stand in it, and `SourceGuards`, which says of a source alone that at a place each access stands in a statement one of whose tests is of its
//!   variables: of a parsed source `parsed_guards`, that it has its guards at the index of each guarded access, and `guarded_alone`, that only this access has its index there;
//! - `Guards`, each access at a place stands behind a test of its array and its index, with nothing between that writes them, told of a body by its operations alone; and `program_guards`,
//!   that in the plain program of the guarded tree each body is `Guards` of the place moved. It goes by pieces of guarded code: code that has no access at the place, code that keeps
//!   what a test tells (`kept_leaving`, `kept_declarations`, `sound_kept`, `declared_kept`), and the condition of a test, which throws where it holds and does nothing where it fails;
//! - a body that is `Guards` of a place has no access.low and no access.high there: one flow is shown that avoids the error;
//! - `FollowsRun` of `specs/Follows`, what a run of a guarded text shows is what the run of its source shows, or as much of it as was printed before a guard threw, for every
//!   method, all inputs and any number of turns and nested calls.
//!
//! They stand on `ix_guard` for which accesses are guarded and which are tested, on `ix_grammar`, `ix_tree` and `ix_formed` for where the parts of a source stand, on `ix_guard_text` for
//! where they stand in the guarded text and what its names mean, on the plain form of `ix_plain`, on the tests of soundness in `ix_source` and that names of an accepted source are sound,
//! on `ix_source` for what a source means, on `ix_check` for the rules and the errors of a method, on `ix_flow` for what a flow is and on `ix_facts` for what a test tells.
//! They never look at how a text is written or judged, at how names are found, at tokens, or at least labels.
#![tactic(auto)]
