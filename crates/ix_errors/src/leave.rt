//! The errors of a `return` and of the end of a body.

ghost use Rattle.std.specs.Prelude.{◌≡◌, ◌++◌, OnOk};
ghost use Rattle.ix_core.specs.declared.error.Subject.TheVariants as subject;
ghost use Rattle.ix_core.specs.declared.fact.Path.TheVariants.{FieldOf};
ghost use Rattle.ix_core.specs.Tables.{field_at};
ghost use Rattle.ix_core.specs.Types as types;
ghost use Rattle.ix_store.specs.StoredFacts.{stored};
ghost use Rattle.ix_errors.specs.Exactly.{AddsExactly};
ghost use Rattle.ix_signatures.specs.Names.{object_path};
ghost use Rattle.ix_signatures.specs.Naming.{HasSmallNames, HaveSmallNames};
ghost use Rattle.ix_errors.specs.Refusals.{refusals, not_proved, field_refusals};
ghost use Rattle.ix_signatures.specs.SignErrors.{ReturnClaim, ConstructorClaim, MissingReturn};

use crate::ranked::{Ranked, push_plain};
use crate::unproved::{Report, push_unproved};
use ix_core::{Method, Path, Program, Subject, Type_, instance_fields};
use ix_signatures::{Naming, claims_of};
use ix_store::Store;
use ix_text::Span;
use std::alloc::{AllocError, Global};

/// The claims of the result that a returned value isn't proved to meet. The method has the given number. The only error is want of memory.
pub fn push_return_errors(
    out: &mut Vec<Ranked>,
    store: &Store,
    method: &Method,
    number: u32,
    value: Option<u32>,
    span: Span,
) -> Result<(), AllocError>
    requires small { HasSmallNames method.now }
    ensures errors { OnOk result (AddsExactly (ReturnClaim method.now number value span (stored store.now)) out.old.items out.new.items) }
{
    let Some(slot) = value else {
        return Ok(());
    };
    let report = Report {
        rule: 6,
        span,
        subject: Subject::Result(number),
    };
    let at = Path::Slot(slot);
    let claims = method.result_claims.as_slice();
    push_unproved(out, store, &Naming::Inside(method), &at, claims, &report)
}

fn push_field_of_this(
    out: &mut Vec<Ranked>,
    store: &Store,
    program: &Program,
    span: Span,
    field: u32,
) -> Result<(), AllocError>
    requires small { HaveSmallNames program.now }
    ensures { OnOk result (out.new.items ≡ out.old.items ++ refusals (not_proved (stored store.now) (object_path 0) (FieldOf 0 field)) 9 span (subject.FieldNamed field) 0 (field_at program.now field).claims) }
{
    let report = Report {
        rule: 9,
        span,
        subject: Subject::FieldNamed(field),
    };
    let at = Path::FieldOf(0, field);
    let claims = claims_of(program, field);
    push_unproved(out, store, &Naming::OfObject(0), &at, claims, &report)
}

fn push_fields_of_this(
    out: &mut Vec<Ranked>,
    store: &Store,
    program: &Program,
    span: Span,
    fields: &[u32],
) -> Result<(), AllocError>
    requires small { HaveSmallNames program.now }
    ensures { OnOk result (out.new.items ≡ out.old.items ++ field_refusals program.now (stored store.now) span fields.now) }
{
    for field in fields {
        push_field_of_this(out, store, program, span, *field)?;
    }
    Ok(())
}

/// The claims of fields, inherited ones included, that aren't proved of `this` where a constructor returns or ends. The only error is want of memory.
pub fn push_constructor_errors(
    alloc: Global,
    out: &mut Vec<Ranked>,
    store: &Store,
    program: &Program,
    method: &Method,
) -> Result<(), AllocError>
    requires small { HaveSmallNames program.now }
    ensures errors { OnOk result (AddsExactly (ConstructorClaim program.now method.now (stored store.now)) out.old.items out.new.items) }
{
    if !method.constructor {
        return Ok(());
    }
    let fields = instance_fields(alloc, program, method.class)?;
    push_fields_of_this(out, store, program, method.span, &fields)
}

fn is_void(ty: &Type_) -> bool
    ensures { result ≡ types.is_void ty.now }
{
    matches!(ty, Type_::Void)
}

/// The error of a method with a result whose end is reached (JLS 8.4.7). The only error is want of memory.
pub fn push_missing_return(
    out: &mut Vec<Ranked>,
    store: &Store,
    method: &Method,
) -> Result<(), AllocError>
    ensures errors { OnOk result (AddsExactly (MissingReturn method.now (stored store.now)) out.old.items out.new.items) }
{
    if !is_void(&method.result) && !store.is_unreachable() {
        return push_plain(out, 17, method.span);
    }
    Ok(())
}
