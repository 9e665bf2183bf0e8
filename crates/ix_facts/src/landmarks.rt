//! The numbers that the facts of a loop move to.

/// Ints in ascending order, the ends of the int range among them.
#[derive(Drop)]
pub struct Landmarks {
    pub ints: ix_core::List<i32>,
}
