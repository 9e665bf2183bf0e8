//! Which member of one class a name means.

ghost use Rattle.std.specs.Prelude.{◌≡◌, ◌<◌, ◌^◌, length, IfOk, None, ℕ, List as Elements};
ghost use Rattle.std.specs.HashMap.{get_by_text};
ghost use Rattle.ix_meaning.specs.Members.{is_method_named, is_constructor_named};
ghost use Rattle.ix_class_members.specs.First.{first_where, is_field_named};

use indexmap::IndexMap;
use ix_meaning::{Field, Signature};
use ix_symbols::note_first;
use std::alloc::{AllocError, Global};

/// The numbers of a class's fields by their names. Of two with one name the first is meant.
pub fn own_fields(
    alloc: Global,
    fields: &[Field],
    class: u32,
) -> Result<IndexMap<String, u32>, AllocError>
    requires { length fields.now < 2 ^ 32 }
    ensures { IfOk result (λ table. (name : Elements ℕ) → get_by_text table name ≡ first_where (is_field_named class name) None 0 fields.now) }
{
    let mut table = IndexMap::new(alloc);
    for (k, field) in fields.iter().enumerate() {
        if field.class == class {
            note_first(alloc, &mut table, field.name.as_str(), k as u32)?;
        }
    }
    Ok(table)
}

/// The numbers of a class's methods by their names.
pub fn own_methods(
    alloc: Global,
    methods: &[Signature],
    class: u32,
) -> Result<IndexMap<String, u32>, AllocError>
    requires { length methods.now < 2 ^ 32 }
    ensures { IfOk result (λ table. (name : Elements ℕ) → get_by_text table name ≡ first_where (is_method_named class name) None 0 methods.now) }
{
    let mut table = IndexMap::new(alloc);
    for (k, method) in methods.iter().enumerate() {
        if method.class == class && !method.constructor {
            note_first(alloc, &mut table, method.name.as_str(), k as u32)?;
        }
    }
    Ok(table)
}

/// The number of a class's constructor.
#[tactic(auto, using(crate::proofs::FirstNumbers::found_here))]
pub fn own_constructor(methods: &[Signature], class: u32, name: &str) -> Option<u32>
    requires { length methods.now < 2 ^ 32 }
    ensures { result ≡ first_where (is_constructor_named class name.now) None 0 methods.now }
{
    for (k, method) in methods.iter().enumerate() {
        if method.class == class && method.constructor && method.name.as_str() == name {
            return Some(k as u32);
        }
    }
    None
}
