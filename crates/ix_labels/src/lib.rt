//! The least labels of a method, and of its loops.
//!
//! What goes in: a program, one of its methods, and its landmarks. What comes out: the method's graph, and at each node the store before what it stands for.
//! In a large graph the stores within straight runs of operations are not kept, and made again one after the other (`RunLabels`).
//! Of a method and a profile comes out the store at the head of each loop, by the loops' numbers.
//! The contract: the stores are the least solution of the graph by the rules of the method, so they are the least labels of its flow; and how many visits of
//! nodes it takes. Those of the loops are the labels of a flow of the method by its rules, and below those of every flow.
//! It stands on `ix_graph` for the graph, on `ix_solve` for the worklist, on `ix_sign` for the rules.
//! It never looks at how a store is kept, or at errors.
#![tactic(auto)]

mod kept;
mod labels;
mod loops;
mod problem;
mod run_labels;
mod runs;
mod visit;

pub use ix_sign::Store;
pub use kept::RunLabels;
pub use labels::{Labels, label_nodes};
pub use loops::loop_labels;
pub use run_labels::label_runs;
