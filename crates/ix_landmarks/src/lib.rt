//! The landmarks of a method: the ints that the facts of its loops are rounded to.
//!
//! What goes in: a program and one of its methods. What comes out: its landmarks.
//! The contract: `AreLandmarksOf` of `ix_facts`: the ints at most 1 away from a number that the method's text or a declaration that it uses speaks of,
//! -1, 0, 1 and the ends of the int range, in ascending order.
//! It stands on `ix_core` for the fields of a class, on `ix_facts` for what a landmark is.
//! It never looks at facts.
#![tactic(auto)]

mod bodies;
mod marks;
mod numbers;

pub use marks::landmarks;
