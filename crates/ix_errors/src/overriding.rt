//! The errors of overriding methods.

ghost use Rattle.std.specs.Prelude.{◌≡◌, ◌++◌, ◌+◌, ◌<◌, ◌^◌, ◌⊎◌, ℕ, Some, length, slice_get, IfOk, OnOk};
ghost use Rattle.ix_core.specs.declared.error.Subject.TheVariants as subject;
ghost use Rattle.ix_core.specs.declared.fact.Path.TheVariants.{Slot};
ghost use Rattle.ix_core.specs.Tables as tables;
ghost use Rattle.ix_core.specs.Tables.{method_at, param_slots};
ghost use Rattle.ix_facts.specs.Stores.{IsStoreOf, Then};
ghost use Rattle.ix_rules_hold.specs.MachineSteps.{own_path};
ghost use Rattle.ix_store.specs.StoredFacts.{stored};
ghost use Rattle.ix_errors.specs.Exactly.{AddsExactly, AreExactly};
ghost use Rattle.ix_signatures.specs.Naming.{AreSmallClaims, HasSmallNames};
ghost use Rattle.ix_errors.specs.Refusals.{refusals, not_proved, param_refusals};
ghost use Rattle.ix_signatures.specs.Signs as signs;
ghost use Rattle.ix_signatures.specs.Signs.{Adds, Forgets, IsLeastOf, IsLeastAllowed, received, claims_facts};
ghost use Rattle.ix_signatures.specs.SignErrors.{OverrideParameter, OverrideResult, OverrideEffect, HasRun, of_run};

use crate::ranked::{Ranked, push_plain};
use crate::unproved::{Report, push_unproved};
use ix_core::{Local, Method, Path, Program, Subject};
use ix_signatures::{Naming, asked_facts, called_facts, own_result, param_slot, result_slot};
use ix_store::Store;
use std::alloc::{AllocError, Global};

fn push_param(
    out: &mut Vec<Ranked>,
    store: &Store,
    method: &Method,
    own: u32,
    number: u32,
    param: &Local,
) -> Result<(), AllocError>
    requires number { number + 1 < 2 ^ 32 }
    requires small { AreSmallClaims param.now.claims }
    ensures { OnOk result (out.new.items ≡ out.old.items ++ refusals (not_proved (stored store.now) (own_path method.now) (Slot (tables.param_slot method.now number))) 10 method.now.span (subject.Param own number) 0 param.now.claims) }
{
    let report = Report {
        rule: 10,
        span: method.span,
        subject: Subject::Param(own, number),
    };
    let at = Path::Slot(param_slot(method, number));
    let claims = param.claims.as_slice();
    push_unproved(out, store, &Naming::Inside(method), &at, claims, &report)
}

fn push_params_of(
    out: &mut Vec<Ranked>,
    store: &Store,
    method: &Method,
    own: u32,
) -> Result<(), AllocError>
    requires small { HasSmallNames method.now }
    ensures { OnOk result (out.new.items ≡ out.old.items ++ param_refusals (stored store.now) method.now own 0 method.now.params) }
{
    let params = method.params.as_slice();
    for number in 0..params.len() {
        push_param(out, store, method, own, number as u32, &params[number])?;
    }
    Ok(())
}

/// The store where the claims of a method's parameters are known, and nothing else.
fn asked(alloc: Global, upper: &Method) -> Result<Store, AllocError>
    requires small { HasSmallNames upper.now }
    ensures { IfOk result (λ store. IsStoreOf (signs.params_facts upper.now 0 upper.now.params) (stored store)) }
{
    let facts = asked_facts(alloc, upper)?;
    Store::of_facts(alloc, &facts)
}

/// The parameters' claims that aren't proved where those of the overridden method hold.
fn push_param_errors(
    alloc: Global,
    out: &mut Vec<Ranked>,
    method: &Method,
    own: u32,
    upper: &Method,
) -> Result<(), AllocError>
    requires { record {
      small : HasSmallNames method.now;
      upper : HasSmallNames upper.now;
    } }
    ensures errors { OnOk result (AddsExactly (OverrideParameter method.now upper.now own) out.old.items out.new.items) }
{
    let store = asked(alloc, upper)?;
    push_params_of(out, &store, method, own)
}

/// The store where the overridden method is called.
fn called(alloc: Global, upper: &Method) -> Result<Store, AllocError>
    requires small { HasSmallNames upper.now }
    ensures { IfOk result (λ store. IsStoreOf (signs.received_params upper.now 0 upper.now.param_types ++ signs.params_facts upper.now 0 upper.now.params) (stored store)) }
{
    let facts = called_facts(alloc, upper)?;
    Store::of_facts(alloc, &facts)
}

/// The least store behind a run of the method, from the one before it: without what it may change, and with its own claims of its result.
fn behind_run(
    alloc: Global,
    program: &Program,
    method: &Method,
    before: &Store,
) -> Result<Store, AllocError>
    requires small { HasSmallNames method.now }
    ensures { IfOk result (λ after. IsLeastOf (Then (Forgets (of_run program.now method.now)) (Adds (received method.now.result (Slot (tables.param_slots method.now)) ++ claims_facts (own_path method.now) (Slot (tables.param_slots method.now)) method.now.result_claims))) (stored before.now) (stored after)) }
{
    let facts = own_result(alloc, method)?;
    let target = result_slot(method);
    let rest = before.forget_called(alloc, program, target, method.effect_free, None)?;
    rest.add(alloc, &facts)
}

/// The least store where the overriding method has run for the overridden one.
fn has_run(
    alloc: Global,
    program: &Program,
    method: &Method,
    upper: &Method,
) -> Result<Store, AllocError>
    requires { record {
      small : HasSmallNames method.now;
      upper : HasSmallNames upper.now;
    } }
    ensures least { IfOk result (λ store. IsLeastAllowed (HasRun program.now method.now upper.now) (stored store)) }
{
    let before = called(alloc, upper)?;
    behind_run(alloc, program, method, &before)
}

/// The claims of the overridden method's result that aren't proved where the overriding one has run.
fn push_result_errors(
    alloc: Global,
    out: &mut Vec<Ranked>,
    program: &Program,
    method: &Method,
    upper: &Method,
    over: u32,
) -> Result<(), AllocError>
    requires { record {
      small : HasSmallNames method.now;
      upper : HasSmallNames upper.now;
    } }
    ensures errors { OnOk result (AddsExactly (OverrideResult program.now method.now upper.now over) out.old.items out.new.items) }
{
    let store = has_run(alloc, program, method, upper)?;
    let report = Report {
        rule: 11,
        span: method.span,
        subject: Subject::Result(over),
    };
    let at = Path::Slot(result_slot(method));
    let claims = upper.result_claims.as_slice();
    push_unproved(out, &store, &Naming::Inside(upper), &at, claims, &report)
}

/// The error of a method that isn't side-effect-free and overrides one that is.
fn push_override_effect(
    out: &mut Vec<Ranked>,
    method: &Method,
    upper: &Method,
) -> Result<(), AllocError>
    ensures errors { OnOk result (AddsExactly (OverrideEffect method.now upper.now) out.old.items out.new.items) }
{
    if upper.effect_free && !method.effect_free {
        return push_plain(out, 12, method.span);
    }
    Ok(())
}

/// The errors of a method, of the number `own`, that overrides the method `upper`, of the number `over` (JLS 8.4.8.3): it may ask no more than the overridden
/// one and promise no less. The only error is want of memory.
pub fn push_override_errors(
    alloc: Global,
    out: &mut Vec<Ranked>,
    program: &Program,
    method: &Method,
    own: u32,
    upper: &Method,
    over: u32,
) -> Result<(), AllocError>
    requires small { HasSmallNames method.now }
    requires upper { HasSmallNames upper.now }
    ensures errors { OnOk result (AddsExactly (λ error rank. OverrideParameter method.now upper.now own error rank ⊎ (OverrideResult program.now method.now upper.now over error rank ⊎ OverrideEffect method.now upper.now error rank)) out.old.items out.new.items) }
{
    push_param_errors(alloc, out, method, own, upper)?;
    push_result_errors(alloc, out, program, method, upper, over)?;
    push_override_effect(out, method, upper)
}
