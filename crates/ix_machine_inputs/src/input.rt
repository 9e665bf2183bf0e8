//! Inputs.

use ix_text::List;

/// The input of a parameter: an int, a boolean, or the ints of an array.
#[derive(Drop)]
pub enum Input {
    Int(i32),
    Bool(bool),
    Ints(List<i32>),
}
