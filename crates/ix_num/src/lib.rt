//! Java's arithmetic on ints, and intervals of whole numbers.
//!
//! Its contract is `exact_of` and `java_of` (specs/Arithmetic.antt: what an operator gives) and `op_range` (specs/OpRanges.antt:
//! the interval of what it gives). It stands on std alone, and takes no memory. It must know nothing of programs, variables
//! and facts: it speaks of numbers.
#![tactic(auto)]

mod arith;
mod interval;
mod rel;

pub use arith::{Arith, exact, java, java_neg, java_not, wrap};
pub use interval::Interval;
pub use rel::Rel;
