//! What the answer of a test tells.

use ix_core::Path;

/// What is told of two ints or of two arrays.
#[derive(Clone, Copy)]
pub enum Outcome {
    /// `p < q + k`
    Below(Path, Path, i32),
    /// Two ints differ.
    Apart(Path, Path),
    /// Two ints are equal.
    Equal(Path, Path),
    /// Two arrays are the same.
    OneArray(Path, Path),
}
