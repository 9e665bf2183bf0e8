//! What a method stands in.

use ix_class_members::World;
use ix_plain::Head;
use ix_symbols::Table;
use ix_text::Text;
use ix_tree::Member;

/// What all methods stand in.
#[derive(Clone, Copy)]
pub struct Tables<'t> {
    pub table: &'t Table,
    pub heads: &'t [Head],
    /// Of each class the number of its constructor.
    pub constructors: &'t [u32],
    pub world: &'t World,
}

/// The class that a method stands in.
#[derive(Clone, Copy)]
pub struct Home<'t> {
    pub class: u32,
    pub name: &'t Text,
    pub parent: Option<u32>,
    pub members: &'t [Member],
    /// The number of its first instance field.
    pub field: u32,
}
