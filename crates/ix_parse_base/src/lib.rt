//! What all readers need, and the lowest of them: the cursor over the tokens, operators, annotations, types and modifiers, and the nodes of the tree with their heights.
//!
//! What goes in: the tokens that are left, or the parts of a node. What comes out: what is read and what is left then, or the node.
//! The contract: `reads`, that a function answers what its rule of `ix_grammar_rules` reads of the tokens that are left, unless memory fails; of nodes, that each function makes the node of its
//! name in the specs of `ix_grammar`.
//! It stands on `ix_grammar` and `ix_grammar_rules`.
//! It never looks at an expression or a statement as a whole, nor at what a name means.
#![tactic(auto)]

pub mod annotations;
pub mod copies;
pub mod cursor;
pub mod modifiers;
pub mod nodes;
pub mod operators;
pub mod statement_nodes;
pub mod type_trees;
