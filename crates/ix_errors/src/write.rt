//! A write of a field.

use ix_text::Span;

/// A write of a field: the slot of the object, the field's number, the slot of the value, and the value's place.
#[derive(Clone, Copy)]
pub struct Write {
    pub object: u32,
    pub field: u32,
    pub value: u32,
    pub place: Span,
}
