//! What is being made of one method.

use crate::made::Made;
use ix_core::Local;
use ix_text::{List, Span};

/// What a call must know of the method that its name means.
#[derive(Clone, Copy)]
pub struct Head {
    pub class: u32,
    pub is_static: bool,
}

/// A method's body so far.
#[derive(Drop)]
pub struct Body {
    /// The block that is being made, and between statements the first slot above the locals in scope.
    pub made: Made,
    /// The locals in order of declaration, each with the place from its name to the end of its scope.
    pub locals: List<(Local, Span)>,
    /// One more than the greatest slot that was taken.
    pub most: u32,
    /// How many loops there were.
    pub loops: u32,
}
