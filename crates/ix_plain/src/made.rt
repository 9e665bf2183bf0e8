//! What is being made of one block.

ghost use Rattle.std.specs.Prelude.{◌≡◌};

use ix_core::{Item, Type_};
use ix_meaning::Which;
use ix_text::{List, Span};
use std::alloc::AllocError;

/// Why lowering stops.
#[derive(Drop)]
pub enum Stop {
    /// A count of the method passes its limit.
    Limit(Which),
    Memory,
}

impl From<AllocError> for Stop {
    ghost use Rattle.ix_plain.specs.declared.made.Stop.TheVariants.{Memory};

    ghost from_gives = { λ error stop. stop ≡ Memory };

    fn from(_error: AllocError) -> Stop {
        Stop::Memory
    }
}

/// The items of a block so far, and the first slot that is free.
#[derive(Drop)]
pub struct Made {
    pub items: List<Item>,
    pub free: u32,
}

/// What an assignment writes, once the parts of its target are evaluated.
#[derive(Drop)]
pub enum Spot {
    /// A local or a parameter, by its slot.
    Variable(u32),
    /// A field: the slot of its object, and its number.
    FieldOf(u32, u32),
    /// A cell: the slots of array and index, the type of the array, the place of the index.
    Cell(u32, u32, Type_, Span),
}
