//! The errors of an operation, by the store before it.

ghost use Rattle.std.specs.Prelude.{◌≡◌, ◌⊎◌, OnOk};
ghost use Rattle.ix_store.specs.StoredFacts.{stored};
ghost use Rattle.ix_errors.specs.Exactly.{AddsExactly};
ghost use Rattle.ix_signatures.specs.Names as names;
ghost use Rattle.ix_signatures.specs.Naming.{HasSmallNames, HaveSmallNames};
ghost use Rattle.ix_signatures.specs.SignErrors as signs;
ghost use Rattle.ix_sign.specs.RuleErrors as rules;

use crate::accesses::{
    part, push_access_errors, push_element_errors, push_entry_errors, push_high_error,
    push_low_error, push_new_array_errors,
};
use crate::call_errors::push_argument_errors;
use crate::field_errors::push_field_errors;
use crate::ranked::Ranked;
use crate::unproved::{Report, push_unproved};
use crate::write::Write;
use ix_core::{Method, Name, Op, OpKind, Path, Program, Subject, Type_};
use ix_sign::variable_at;
use ix_signatures::Naming;
use ix_store::Store;
use std::alloc::{AllocError, Global};

/// A variable of the method as the subject of an error.
fn subject_of(number: u32, name: &Name) -> Subject
    ensures { result ≡ rules.subject_of number name.now }
{
    match *name {
        Name::Param(param) => Subject::Param(number, param),
        Name::Local(local) => Subject::Local(number, local),
        Name::FieldNamed(field) => Subject::FieldNamed(field),
    }
}

/// The claims of a variable that a value that is copied into it isn't proved to meet. The method has the given number.
fn push_assign_errors(
    out: &mut Vec<Ranked>,
    store: &Store,
    within: &Method,
    number: u32,
    target: u32,
    source: u32,
    done: &Op,
) -> Result<(), AllocError>
    requires small { HasSmallNames within.now }
    ensures { OnOk result (AddsExactly (rules.AssignClaim within.now number source (signs.part done.now 1) (names.variable_at within.now target done.now.span.from) (stored store.now)) out.old.items out.new.items) }
{
    let Some(variable) = variable_at(within, target, done.span.from) else {
        return Ok(());
    };
    let report = Report {
        rule: 4,
        span: part(done, 1),
        subject: subject_of(number, &variable.name),
    };
    let naming = Naming::Inside(within);
    push_unproved(
        out,
        store,
        &naming,
        &Path::Slot(source),
        variable.claims,
        &report,
    )
}

/// The errors of a write at an index: those of the access, and the claims on elements that the value isn't proved to meet.
fn push_store_errors(
    out: &mut Vec<Ranked>,
    store: &Store,
    array: u32,
    index: u32,
    value: u32,
    ty: &Type_,
    done: &Op,
) -> Result<(), AllocError>
    ensures { OnOk result (AddsExactly (λ error rank. rules.AccessLow index done.now.span (stored store.now) error rank ⊎ (rules.AccessHigh array index done.now.span (stored store.now) error rank ⊎ rules.ElementClaim ty.now value (signs.part done.now 0) (stored store.now) error rank)) out.old.items out.new.items) }
{
    push_low_error(out, store, index, done.span)
        .and(push_high_error(out, store, array, index, done.span))
        .and(push_element_errors(out, store, ty, value, part(done, 0)))
}

/// The errors of an operation of a method, by the store before it: those of accesses, lengths and elements, of variables, of fields and of arguments.
/// The method has the given number. The only error is want of memory.
pub fn push_op_errors(
    alloc: Global,
    out: &mut Vec<Ranked>,
    store: &Store,
    program: &Program,
    within: &Method,
    number: u32,
    done: &Op,
) -> Result<(), AllocError>
    requires { record {
      program : HaveSmallNames program.now;
      method : HasSmallNames within.now;
    } }
    ensures errors { OnOk result (AddsExactly (rules.KindErrors program.now within.now number done.now done.now.kind (stored store.now)) out.old.items out.new.items) }
{
    match &done.kind {
        OpKind::Load(_, array, index, _) => {
            push_access_errors(out, store, *array, *index, done.span)
        }
        OpKind::Store(array, index, value, ty) => {
            push_store_errors(out, store, *array, *index, *value, ty, done)
        }
        OpKind::NewArray(_, ty, size) => push_new_array_errors(out, store, ty, *size, done.span),
        OpKind::Fill(_, ty, entries) => push_entry_errors(out, store, ty, entries.as_slice(), done),
        OpKind::Copy(target, source, _) => {
            push_assign_errors(out, store, within, number, *target, *source, done)
        }
        OpKind::WriteField(object, field, value) => {
            let write = Write {
                object: *object,
                field: *field,
                value: *value,
                place: part(done, 1),
            };
            push_field_errors(alloc, out, store, program, within, &write)
        }
        OpKind::NewObject(call) => push_argument_errors(out, store, program, call),
        OpKind::StaticCall(call) => push_argument_errors(out, store, program, call),
        OpKind::InstanceCall(call) => push_argument_errors(out, store, program, call),
        OpKind::SuperCall(call) => push_argument_errors(out, store, program, call),
        _ => Ok(()),
    }
}
