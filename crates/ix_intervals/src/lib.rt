//! The exact interval of an operation, by what is known of its operands, and new facts whose constants are kept.
//!
//! What goes in: what is known, the facts and arrays that a rule goes over, an operator and its operands. What comes out: the exact interval, the facts on
//! the range and the classes of the result; lists of facts, with one more.
//! The contract: the definitions of `ix_facts`, list for list, over the facts and paths that are handed in.
//! It stands on `ix_facts` for bounds and rules, on `ix_num` for intervals, on `ix_tables` for the low table.
//! It never looks at what an operation gives besides.
#![tactic(auto, using(std::proofs::lemmas::List::append_assoc, crate::specs::KeptLaws::kept_joined, crate::specs::KeptLaws::same_int))]

mod exact;
mod push;

pub use exact::{exact_interval, fits, push_low, push_range, table_class, unary_interval};
pub use push::{
    push_fact, push_if, push_less, push_less_if, push_some_less, push_some_upper, push_upper,
    push_upper_if,
};
