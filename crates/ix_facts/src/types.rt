//! What a type holds.

ghost use Rattle.std.specs.Prelude.{◌≡◌};
ghost use Rattle.ix_facts.specs.AfterOperation as after;
ghost use Rattle.ix_facts.specs.After.{holds_ints};

use ix_core::{Base, Type_};

/// Whether it is the type of ints.
pub fn is_int(ty: &Type_) -> bool
    ensures { result ≡ after.is_int ty.now }
{
    matches!(ty, Type_::Plain(Base::Int))
}

/// Whether it is the type of arrays.
pub fn is_array(ty: &Type_) -> bool
    ensures { result ≡ after.is_array ty.now }
{
    matches!(ty, Type_::Array { .. })
}

/// Whether it is the type of arrays of arrays.
pub fn holds_arrays(ty: &Type_) -> bool
    ensures { result ≡ after.holds_arrays ty.now }
{
    match ty {
        Type_::Array { depth, .. } => *depth > 1,
        _ => false,
    }
}

/// Whether it is the type of arrays of ints.
pub fn holds_ints(ty: &Type_) -> bool
    ensures { result ≡ holds_ints ty.now }
{
    matches!(
        ty,
        Type_::Array {
            base: Base::Int,
            depth: 1,
            ..
        }
    )
}
