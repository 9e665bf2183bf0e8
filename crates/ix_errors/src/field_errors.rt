//! The errors of a write of a field.

ghost use Rattle.std.specs.Prelude.{◌≡◌, ◌++◌, ◌⊎◌, ◌==◌, cond, [], Some, IfOk, OnOk};
ghost use Rattle.ix_core.specs.declared.error.Subject.TheVariants as subject;
ghost use Rattle.ix_core.specs.declared.fact.Path.TheVariants.{Slot, FieldOf};
ghost use Rattle.ix_core.specs.Tables.{field_at};
ghost use Rattle.ix_store.specs.StoredFacts.{stored};
ghost use Rattle.ix_errors.specs.Exactly.{AddsExactly};
ghost use Rattle.ix_facts.specs.Exact.{if_so};
ghost use Rattle.ix_facts.specs.Stores.{IsAdded};
ghost use Rattle.ix_signatures.specs.Names as names;
ghost use Rattle.ix_signatures.specs.Names.{written_path};
ghost use Rattle.ix_signatures.specs.Signs.{write_facts};
ghost use Rattle.ix_signatures.specs.Naming.{AreSmallClaims, HaveSmallNames};
ghost use Rattle.ix_errors.specs.Refusals.{refusals, not_proved, not_proved_of, dependent_refusals};
ghost use Rattle.ix_signatures.specs.SignErrors.{FieldClaim, FieldDependent};

use crate::ranked::Ranked;
use crate::unproved::{Report, push_unproved, push_unproved_of};
use crate::write::Write;
use ix_core::{Field, Method, Path, Program, Subject};
use ix_signatures::{Naming, claims_of, facts_at_write, is_built};
use ix_store::Store;
use std::alloc::{AllocError, Global};

/// The claims of another field that name the written one and aren't proved with the value.
fn push_dependent(
    out: &mut Vec<Ranked>,
    store: &Store,
    write: &Write,
    number: u32,
    other: &Field,
) -> Result<(), AllocError>
    requires small { AreSmallClaims other.now.claims }
    ensures { OnOk result (out.new.items ≡ out.old.items ++ cond (number == write.now.field) [] (refusals (not_proved_of (Some write.now.field) (stored store.now) (written_path write.now.object write.now.field write.now.value) (FieldOf write.now.object number)) 8 write.now.place (subject.FieldNamed number) 0 other.now.claims)) }
{
    if number == write.field {
        return Ok(());
    }
    let report = Report {
        rule: 8,
        span: write.place,
        subject: Subject::FieldNamed(number),
    };
    let naming = Naming::Writing(write.object, write.field, write.value);
    let at = Path::FieldOf(write.object, number);
    let claims = other.claims.as_slice();
    push_unproved_of(out, Some(write.field), store, &naming, &at, claims, &report)
}

fn push_dependents(
    out: &mut Vec<Ranked>,
    store: &Store,
    program: &Program,
    write: &Write,
) -> Result<(), AllocError>
    requires small { HaveSmallNames program.now }
    ensures { OnOk result (out.new.items ≡ out.old.items ++ dependent_refusals (stored store.now) write.now.object write.now.field write.now.value write.now.place 0 program.now.fields) }
{
    let fields = program.fields.as_slice();
    for number in 0..fields.len() {
        push_dependent(out, store, write, number as u32, &fields[number])?;
    }
    Ok(())
}

/// The claims of the written field that the value isn't proved to meet, and the claims of other fields that name it and aren't proved with the value.
fn push_refused(
    out: &mut Vec<Ranked>,
    store: &Store,
    program: &Program,
    write: &Write,
) -> Result<(), AllocError>
    requires small { HaveSmallNames program.now }
    ensures { OnOk result (out.new.items ≡ out.old.items ++ (refusals (not_proved (stored store.now) (written_path write.now.object write.now.field write.now.value) (Slot write.now.value)) 7 write.now.place (subject.FieldNamed write.now.field) 0 (field_at program.now write.now.field).claims ++ dependent_refusals (stored store.now) write.now.object write.now.field write.now.value write.now.place 0 program.now.fields)) }
{
    let report = Report {
        rule: 7,
        span: write.place,
        subject: Subject::FieldNamed(write.field),
    };
    let naming = Naming::Writing(write.object, write.field, write.value);
    let at = Path::Slot(write.value);
    let claims = claims_of(program, write.field);
    push_unproved(out, store, &naming, &at, claims, &report)?;
    push_dependents(out, store, program, write)
}

/// The store before the write in which what the object's claims say is known, where the object is built.
fn known_at_write(
    alloc: Global,
    store: &Store,
    program: &Program,
    within: &Method,
    write: &Write,
) -> Result<Store, AllocError>
    requires small { HaveSmallNames program.now }
    ensures { IfOk result (λ known. IsAdded (if_so (names.is_built within.now write.now.object) (write_facts program.now write.now.object write.now.field)) (stored store.now) (stored known)) }
{
    let facts = facts_at_write(alloc, program, within, write.object, write.field)?;
    store.add(alloc, &facts)
}

/// The claims of the written field that the value isn't proved to meet, and the claims of other fields that name it and aren't proved with the value; both where
/// the object is built, and on the store in which what the object's claims say is known. The only error is want of memory.
pub fn push_field_errors(
    alloc: Global,
    out: &mut Vec<Ranked>,
    store: &Store,
    program: &Program,
    within: &Method,
    write: &Write,
) -> Result<(), AllocError>
    requires small { HaveSmallNames program.now }
    ensures errors { OnOk result (AddsExactly (λ error rank. FieldClaim program.now within.now write.now.object write.now.field write.now.value write.now.place (stored store.now) error rank ⊎ FieldDependent program.now within.now write.now.object write.now.field write.now.value write.now.place (stored store.now) error rank) out.old.items out.new.items) }
{
    if !is_built(within, write.object) {
        return Ok(());
    }
    let known = known_at_write(alloc, store, program, within, write)?;
    push_refused(out, &known, program, write)
}
