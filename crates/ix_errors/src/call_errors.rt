//! The errors of calls.

ghost use Rattle.std.specs.Prelude.{◌≡◌, ◌++◌, ◌+◌, ◌<◌, ◌^◌, ◌↔◌, length, IsTrue, OnOk};
ghost use Rattle.ix_core.specs.declared.error.Subject.TheVariants.{Param};
ghost use Rattle.ix_core.specs.declared.fact.Path.TheVariants.{Slot};
ghost use Rattle.ix_core.specs.Tables.{method_at};
ghost use Rattle.ix_store.specs.StoredFacts.{stored};
ghost use Rattle.ix_errors.specs.Exactly.{AddsExactly};
ghost use Rattle.ix_signatures.specs.Names.{call_path};
ghost use Rattle.ix_signatures.specs.Naming.{AreSmallClaims, AreSmallParams, HaveSmallNames};
ghost use Rattle.ix_errors.specs.Refusals.{refusals, not_proved, argument_refusals};
ghost use Rattle.ix_signatures.specs.SignErrors.{ArgumentClaim, EffectWrite, HasEffect};

use crate::ranked::{Ranked, push_plain};
use crate::unproved::{Report, push_unproved};
use ix_core::{Arg, CallOp, Local, Method, Op, OpKind, Path, Program, Subject};
use ix_signatures::{Naming, is_built, is_effect_free};
use ix_store::Store;
use std::alloc::AllocError;

fn push_argument(
    out: &mut Vec<Ranked>,
    store: &Store,
    call: &CallOp,
    number: u32,
    param: &Local,
    arg: &Arg,
) -> Result<(), AllocError>
    requires small { AreSmallClaims param.now.claims }
    ensures { OnOk result (out.new.items ≡ out.old.items ++ refusals (not_proved (stored store.now) (call_path call.now) (Slot arg.now.slot)) 5 arg.now.span (Param call.now.method number) 0 param.now.claims) }
{
    let report = Report {
        rule: 5,
        span: arg.span,
        subject: Subject::Param(call.method, number),
    };
    let at = Path::Slot(arg.slot);
    let naming = Naming::AtCall(call);
    push_unproved(out, store, &naming, &at, param.claims.as_slice(), &report)
}

/// The parameters of a method; none where the program doesn't have it.
fn params_of(program: &Program, method: u32) -> &[Local]
    ensures { result.now ≡ (method_at program.now method).params }
{
    match program.methods.as_slice().get(method as usize) {
        Some(found) => found.params.as_slice(),
        None => &[],
    }
}

fn push_arguments(
    out: &mut Vec<Ranked>,
    store: &Store,
    call: &CallOp,
    params: &[Local],
) -> Result<(), AllocError>
    requires { record {
      few : length params.now + 1 < 2 ^ 32;
      small : AreSmallParams params.now;
    } }
    ensures { OnOk result (out.new.items ≡ out.old.items ++ argument_refusals (stored store.now) call.now 0 params.now call.now.args) }
{
    let args = call.args.as_slice();
    for number in 0..params.len().min(args.len()) {
        push_argument(
            out,
            store,
            call,
            number as u32,
            &params[number],
            &args[number],
        )?;
    }
    Ok(())
}

/// The claims of parameters that the arguments of a call aren't proved to meet, before the call. The only error is want of memory.
pub fn push_argument_errors(
    out: &mut Vec<Ranked>,
    store: &Store,
    program: &Program,
    call: &CallOp,
) -> Result<(), AllocError>
    requires small { HaveSmallNames program.now }
    ensures errors { OnOk result (AddsExactly (ArgumentClaim program.now call.now (stored store.now)) out.old.items out.new.items) }
{
    push_arguments(out, store, call, params_of(program, call.method))
}

/// Whether the operation writes a field, other than of `this` in a constructor, or calls what isn't side-effect-free.
fn has_effect(program: &Program, within: &Method, kind: &OpKind) -> bool
    ensures { IsTrue result ↔ HasEffect program.now within.now kind.now }
{
    match kind {
        OpKind::WriteField(object, _, _) => is_built(within, *object),
        OpKind::NewObject(call) => !is_effect_free(program, call.method),
        OpKind::StaticCall(call) => !is_effect_free(program, call.method),
        OpKind::InstanceCall(call) => !is_effect_free(program, call.method),
        OpKind::SuperCall(call) => !is_effect_free(program, call.method),
        _ => false,
    }
}

/// The error of an operation with an effect in a body that is marked as side-effect-free. The only error is want of memory.
pub fn push_effect_error(
    out: &mut Vec<Ranked>,
    program: &Program,
    within: &Method,
    done: &Op,
) -> Result<(), AllocError>
    ensures errors { OnOk result (AddsExactly (EffectWrite program.now within.now done.now) out.old.items out.new.items) }
{
    if within.effect_free && has_effect(program, within, &done.kind) {
        return push_plain(out, 13, done.span);
    }
    Ok(())
}
