//! The flow graph of a method, on which a worklist finds the least labels of its loops.
//!
//! What goes in: a method. What comes out: its nodes in the order of its statements, each with the edges to it and the nodes that read its label;
//! and an order in which labels can be found.
//! The contract: the nodes and the edges are those of the written graph (`method_parts`); that a solution of this graph is a flow of the method, the
//! least one the least, with the errors that the rules derive, is proved of the definitions (`Solved`, `ErrorsAgree`), for any stores and any rules.
//! It stands on `ix_flow` for flows and `ix_solve` for solutions.
//! It never looks at what a store says, at a rule of the checker, or at how labels are found.
#![tactic(auto)]

mod builder;
mod last;
mod links;
mod node;
mod source;
mod sweep;

pub use last::last_op;
pub use links::graph;
pub use node::{Edge, Graph, Node, NodeKind};
pub use sweep::sweep_parts;
