//! A list of facts as what is known, with the facts on each path at hand, and the limits of ints.
//!
//! What goes in: facts. What comes out: the bounds that they give, and the facts that name a path.
//! The contract: `Know`, `Groups` and `Indexed`, met by `FactList`, and `Limits`: what each near int is at least and at most.
//! It stands on `ix_bounds` for bounds by the facts on a path, on `ix_fact_paths` for these, on `ix_facts` for facts.
//! It never looks at a rule: what an operation or a test gives is not told here.
#![tactic(auto)]

mod ends;
mod fact_list;
mod limits;

pub use ends::{before_links, up_to_ends};
pub use fact_list::FactList;
pub use limits::Limits;
