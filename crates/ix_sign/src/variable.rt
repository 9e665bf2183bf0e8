//! A variable that an assignment goes into.

use ix_core::{Claim, Name};

/// A parameter or a local, with its claims.
#[derive(Clone, Copy)]
pub struct Variable<'a> {
    pub name: Name,
    pub claims: &'a [Claim],
}
