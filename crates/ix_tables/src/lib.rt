//! Tables of cases whose laws are proved by one pass over their rows.
//!
//! Its contract is `low_of` (specs/LowTable.antt: the class of a result from the classes of its operands) with its three laws
//! (specs/TableLaws.antt), and `rule_keys` (specs/Keys.antt). It stands on `ix_num`, and takes no memory. It must know nothing of
//! programs, variables and facts: it speaks of numbers, classes and keys.
#![tactic(auto)]

mod cases;
mod keys;
mod low;

pub use cases::{CaseTable, low_table};
pub use keys::{KeyTable, key_table};
pub use low::Low;
