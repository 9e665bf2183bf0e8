//! What slots, cells and fields hold.
ghost use Rattle.std.specs.Prelude.{◌≡◌};
ghost use Rattle.ix_core.specs.Heap as model;
ghost use Rattle.ix_machine_state.specs.Rows.{held_of};

use ix_core::{Base, Type_};

/// What a slot, a cell or a field holds: an int, a boolean, null, or a reference to the object of that number (JLS 4.2, 4.3.1).
#[derive(Clone, Copy)]
pub enum Held {
    Int(i32),
    Bool(bool),
    Null,
    At(u32),
}

fn default_of_base(base: Base) -> Held
    ensures { held_of result ≡ model.default_of_base base }
{
    match base {
        Base::Int => Held::Int(0),
        Base::Bool => Held::Bool(false),
        Base::Class(_) => Held::Null,
    }
}

/// What a new field or local of a type holds (JLS 4.12.5).
pub fn default_of(ty: &Type_) -> Held
    ensures { held_of result ≡ model.default_of ty.now }
{
    match ty {
        Type_::Void => Held::Int(0),
        Type_::Plain(base) => default_of_base(*base),
        Type_::Array { .. } => Held::Null,
    }
}

/// What a new cell of an array of this type holds (JLS 10.3, 4.12.5).
pub fn cell_default(ty: &Type_) -> Held
    ensures { held_of result ≡ model.cell_default ty.now }
{
    match ty {
        Type_::Array { base, depth, .. } => {
            if *depth > 1 {
                Held::Null
            } else {
                default_of_base(*base)
            }
        }
        _ => Held::Int(0),
    }
}
