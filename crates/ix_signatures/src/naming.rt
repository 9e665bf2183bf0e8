//! What names stand for in a claim.

use ix_core::{CallOp, Method};

/// Where a claim is looked at, and so which paths its names stand for.
#[derive(Clone, Copy)]
pub enum Naming<'a> {
    /// inside a method: a variable has its own slot, and a field is one of `this`
    Inside(&'a Method),
    /// at a call: a parameter has the argument's slot, and a field is one of the receiver
    AtCall(&'a CallOp),
    /// of the object in a slot: a field is one of it
    OfObject(u32),
    /// the same, where one field is about to have the value of a slot: object, field, value
    Writing(u32, u32, u32),
}
