//! What may flow through a method: the stores at its places, as a relation, for any stores and any rules; and labels that are given.
//!
//! What goes in and what comes out: nothing; these are a definition and laws over it.
//! The contract: `IsFlow`, labels of the loops with which a whole body flows; `IsLeastFlow`, the least such; `IsDerived`, the errors that no flow
//! of a body avoids. `flows_weaker`: what flows from a store flows from each that says more. Of labels that are given: `Fails`, a loop's label that isn't above what comes to its
//! head; `IsDerivedAt`, the errors that the rules derive with these labels. Labels with which a body flows fail at no loop; where a walk over the body finds neither, they are those of a
//! flow without errors.
//! It stands on `ix_core` for code, operations and tests, and for what was done last, by which a `return` says which answer it writes out.
//! It never looks at what a store says, at a rule of the checker, or at how labels are found.
#![tactic(auto)]
