//! Open places in the code.

use ix_core::{Cond, Item, Test};

/// The parts of a loop.
#[derive(Clone, Copy)]
pub struct Turn<'p> {
    pub cond: &'p Cond,
    pub body: &'p [Item],
    pub next: &'p [Item],
}

/// An open place: a task, or, where a condition is being asked, what its answer decides.
#[derive(Clone, Copy)]
pub enum Place<'p> {
    /// What is left of a block.
    Rest(&'p [Item]),
    /// A condition that is asked.
    Ask(&'p Cond),
    /// A test of slots.
    Decide(&'p Test),
    /// A boolean slot.
    DecideTruth(u32),
    /// A loop's head.
    Head(Turn<'p>),
    /// The way back to it.
    Again(Turn<'p>),
    /// A loop's end.
    Out,
    /// What runs where the condition is true, and where it is false.
    Branch(&'p [Item], &'p [Item]),
    /// A loop that goes on where the condition is true.
    Enter(Turn<'p>),
    /// `&&` whose left side is asked: the right side.
    BothLeft(&'p Cond),
    /// `||` whose left side is asked: the right side.
    EitherLeft(&'p Cond),
    /// `!` whose condition is asked.
    Not,
}
