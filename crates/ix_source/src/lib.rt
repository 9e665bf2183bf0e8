//! What a source means when it runs, in the words of the Java Language Specification, and lowering that keeps it.
//!
//! What goes in: the tree, and the table of its names. What comes out: the program, or the limit that one of its methods passes, as `ix_lower` answers them. All else are definitions, with rows
//! that they decide, and laws.
//! The contract: `source` of `specs/Source.antt`, what a run of a method shows and how it ends, where each entry into a loop makes at most so many turns and calls nest at most so deep; and
//! `SafeSource` of `specs/Promise.antt`, the promise: no such run asks for a cell outside an array or makes an array of negative length. Of `lower_kept`: where a source without errors on names has
//! a program, the machine ends on it as the source does, shows the same accesses and printed values and wraps alike, both ways. So where the program is safe, the source is (`safe_source`), and
//! the reverse: what begins on the machine enters the source, and a safe source has no bad run there. The laws, from single steps to whole methods:
//! - `Along` and `Done`, that items of the plain form do what an action does; `Runs`, the same of statements; `GoesBack`, of calls; each operation does what the source's
//!   effect does; `start_decides`, that a run of a formed program decides by booleans. Besides the tests of what each form asks of where it stands: `soundness` of an expression,
//!   `statement_soundness` of a statement, `written_sound` and `default_sound` of a whole body.
//! - `expression_kept` and `initialiser_kept`, by induction over all forms: where an expression is sound its items do what it means. `statement_kept` and `statements_kept`: so
//!   do those of statements.
//! - A method's routine is the plain form of its declaration; the method that a call finds, the places of fields and what new objects hold are the source's (`AcceptedTables`,
//!   `MethodsFound`).
//! - A call keeps its meaning where the methods and constructors that it runs do, and so does what a constructor begins with, the parent's constructor and the field
//!   initialisers; `callees_run`, by the depth of calls: so every method and constructor runs as the source says, where its body is sound.
//! - What the names in a source without errors on names mean, as each place needs it where it is lowered and run: `sound_source`, that each body of an accepted source is sound
//!   where it stands, however a run sees it; and `assigns_own`, that what a sound expression assigns are variables in scope.
//!
//! It stands on the tree, on the names and types of `ix_meaning`, on the heap, the endings, the machine and what is seen of a run in `ix_core`, on the plain form of `ix_plain`, what `ix_formed` knows
//! of it, and on `ix_lower`.
//! It never looks at rules and facts, nor at how names are found. The definitions of the meaning never look at the plain form: it has no slots, temporaries, operations or tasks.
#![tactic(auto)]

mod lowering;

pub use ix_lower::LowerError;
pub use lowering::lower_kept;
