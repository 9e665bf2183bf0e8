//! The stores behind reads and writes of fields.

ghost use Rattle.std.specs.Prelude.{◌≡◌, ◌++◌, ◌&&◌, ◌==◌, not, IfOk};
ghost use Rattle.ix_core.specs.Tables.{field_at};
ghost use Rattle.ix_facts.specs.Exact.{if_so};
ghost use Rattle.ix_facts.specs.Stores.{IsCopied};
ghost use Rattle.ix_store.specs.StoredFacts.{stored};
ghost use Rattle.ix_signatures.specs.Names as names;
ghost use Rattle.ix_signatures.specs.Naming.{HaveSmallNames};
ghost use Rattle.ix_signatures.specs.Signs.{IsLeastOf, ReadGives, WriteGives, read_facts, write_facts};
ghost use Rattle.ix_signatures.specs.Spared as spared;

use ix_core::{Method, Path, Program, Type_};
use ix_signatures::{facts_at_read, facts_at_write, spared_at_write};
use ix_store::Store;
use std::alloc::{AllocError, Global};

/// The store behind a copy to or from a field, by the field's type.
fn copied(
    alloc: Global,
    store: &Store,
    program: &Program,
    field: u32,
    target: &Path,
    source: &Path,
) -> Result<Store, AllocError>
    ensures { IfOk result (λ after. IsCopied (field_at program.now field).ty target.now source.now (stored store.now) (stored after)) }
{
    match program.fields.as_slice().get(field as usize) {
        Some(found) => store.copy(alloc, target, source, &found.ty),
        None => store.copy(alloc, target, source, &Type_::Void),
    }
}

/// The store behind `target = object.field`: the field's claims hold of a built object, and then the value is copied. The only error is want of memory.
pub fn after_read(
    alloc: Global,
    store: &Store,
    program: &Program,
    within: &Method,
    target: u32,
    object: u32,
    field: u32,
) -> Result<Store, AllocError>
    requires small { HaveSmallNames program.now }
    ensures least { IfOk result (λ after. IsLeastOf (ReadGives program.now within.now target object field) (stored store.now) (stored after)) }
{
    let known = store.add(
        alloc,
        &facts_at_read(alloc, program, within, object, field)?,
    )?;
    let source = Path::FieldOf(object, field);
    copied(alloc, &known, program, field, &Path::Slot(target), &source)
}

/// The store behind `object.field = value`: what the claims of a built object say is known before; then each fact on that field is dropped, of the object in
/// any slot, since two slots may hold one object, but in a constructor a write through another slot spares `this`; then the value is copied. The only error
/// is want of memory.
pub fn after_write(
    alloc: Global,
    store: &Store,
    program: &Program,
    within: &Method,
    object: u32,
    field: u32,
    value: u32,
) -> Result<Store, AllocError>
    requires small { HaveSmallNames program.now }
    ensures least { IfOk result (λ after. IsLeastOf (WriteGives program.now within.now object field value) (stored store.now) (stored after)) }
{
    let known = store.add(
        alloc,
        &facts_at_write(alloc, program, within, object, field)?,
    )?;
    let rest = known.forget_field(alloc, field, spared_at_write(within, object))?;
    let target = Path::FieldOf(object, field);
    copied(alloc, &rest, program, field, &target, &Path::Slot(value))
}
