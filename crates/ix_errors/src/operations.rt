//! What an operation does with `this` before its object is built.

ghost use Rattle.std.specs.Prelude.{◌≡◌, ◌++◌, OnOk};
ghost use Rattle.ix_errors.specs.Exactly.{AddsExactly};
ghost use Rattle.ix_sign.specs.RuleErrors.{OpEscapes, escapes_by, is_this, this_args};
ghost use Rattle.ix_errors.specs.Escapes.{errors_at, place_if};

use crate::parts::part;
use crate::ranked::Ranked;
use crate::this::{push_if_this, push_this_args, push_this_entries};
use ix_core::{CallOp, Method, Op, OpKind};
use ix_text::Span;
use std::alloc::AllocError;

/// The error of a call's place, if its receiver is `this`.
fn push_this_receiver(
    out: &mut Vec<Ranked>,
    receiver: Option<u32>,
    place: Span,
) -> Result<(), AllocError>
    ensures { OnOk result (out.new.items ≡ out.old.items ++ errors_at (place_if (is_this receiver) place)) }
{
    match receiver {
        None => Ok(()),
        Some(slot) => push_if_this(out, slot, place),
    }
}

/// The errors of a call of an instance method: of its receiver and of its arguments.
fn push_of_call(out: &mut Vec<Ranked>, call: &CallOp, place: Span) -> Result<(), AllocError>
    ensures { OnOk result (out.new.items ≡ out.old.items ++ errors_at (place_if (is_this call.now.receiver) place ++ this_args call.now.args)) }
{
    push_this_receiver(out, call.receiver, place).and(push_this_args(out, call.args.as_slice()))
}

/// The errors of the uses of slot 0 by an operation.
fn push_of_op(out: &mut Vec<Ranked>, done: &Op) -> Result<(), AllocError>
    ensures { OnOk result (out.new.items ≡ out.old.items ++ errors_at (escapes_by done.now done.now.kind)) }
{
    match &done.kind {
        OpKind::Copy(_, source, _) => push_if_this(out, *source, part(done, 1)),
        OpKind::Fill(_, _, entries) => push_this_entries(out, done, entries.as_slice()),
        OpKind::Store(_, _, value, _) => push_if_this(out, *value, part(done, 0)),
        OpKind::WriteField(_, _, value) => push_if_this(out, *value, part(done, 1)),
        OpKind::NewObject(call) | OpKind::StaticCall(call) | OpKind::SuperCall(call) => {
            push_this_args(out, call.args.as_slice())
        }
        OpKind::InstanceCall(call) => push_of_call(out, call, done.span),
        _ => Ok(()),
    }
}

/// `this.escapes`: an operation of a constructor uses `this` otherwise than as the receiver of a read or write of a field or of `super`. The only error is
/// want of memory.
pub fn push_escapes_of(out: &mut Vec<Ranked>, within: &Method, done: &Op) -> Result<(), AllocError>
    ensures errors { OnOk result (AddsExactly (OpEscapes within.now done.now) out.old.items out.new.items) }
{
    if within.constructor {
        push_of_op(out, done)
    } else {
        Ok(())
    }
}
