//! The audit of one method.

ghost use Rattle.std.specs.Prelude.{◌≡◌, ◌<◌, [], length, IfOk, IfNone, OnOk, map, option_map};
ghost use Rattle.std.specs.Option.{ForSome};
ghost use Rattle.ix_core.specs.declared.error.Error.{Error};
ghost use Rattle.ix_core.specs.Tables.{method_at};
ghost use Rattle.ix_signatures.specs.Naming.{HasSmallNames, HaveSmallNames};
ghost use Rattle.ix_sign.specs.RuleErrors.{OverridesBy};
ghost use Rattle.ix_store.specs.StoredFacts.{stored};
ghost use Rattle.ix_soundness.specs.Sound.{HasNoErrors};
ghost use Rattle.ix_verify.specs.AtLabels as at;
ghost use Rattle.ix_verify.specs.Walking as spec;

use crate::texts::push_of_block;
use crate::walk::{Findings, Walk};
use ix_core::{Method, Profile, Program};
use ix_errors::{Ranked, push_override_errors};
use ix_landmarks::landmarks;
use ix_store::Store;
use std::alloc::{AllocError, Global};

/// The walk over a method's body.
fn walk(
    alloc: Global,
    program: &Program,
    within: &Method,
    number: u32,
    profile: Profile,
    labels: &[Store],
) -> Result<Findings, AllocError>
    requires { record {
      program : HaveSmallNames program.now;
      method : HasSmallNames within.now;
    } }
    ensures { IfOk result (λ findings. spec.Finds program.now within.now number profile (map stored labels.now) findings.failed.items findings.errors.items) }
{
    let marks = landmarks(alloc, program, within)?;
    let nowhere = Store::unreachable();
    let walk = Walk {
        alloc,
        program,
        within,
        number,
        profile,
        marks: &marks,
        labels,
        nowhere: &nowhere,
    };
    walk.body()
}

/// The lesser of a number and another, if there is another.
fn lesser(least: Option<u32>, number: u32) -> Option<u32>
    ensures { result ≡ spec.lesser least number }
{
    match least {
        None => Some(number),
        Some(other) => {
            if other < number {
                Some(other)
            } else {
                Some(number)
            }
        }
    }
}

/// The least of some numbers, if there is one.
fn least_of(numbers: &[u32]) -> Option<u32>
    ensures { spec.IsLeastIn numbers.now result }
{
    let mut least = None;
    for number in numbers {
        least = lesser(least, *number);
    }
    least
}

/// Those of a method that overrides another.
fn push_of_overriding(
    alloc: Global,
    out: &mut Vec<Ranked>,
    program: &Program,
    within: &Method,
    number: u32,
) -> Result<(), AllocError>
    requires { record {
      method : HasSmallNames within.now;
      upper : ForSome within.now.overrides (λ over. over < length program.now.methods);
      program : HaveSmallNames program.now;
    } }
    ensures { OnOk result (spec.AddsTo (OverridesBy program.now within.now number within.now.overrides) out.old.items out.new.items) }
{
    let Some(over) = within.overrides else {
        return Ok(());
    };
    let upper = &program.methods.as_slice()[over as usize];
    push_override_errors(alloc, out, program, within, number, upper, over)
}

/// Adds the errors of a method at given labels of its loops, each with the place of its claim in its declaration, in any order; answers the first loop whose label
/// fails, if one does. Where none fails and there is no error, the method has a flow without errors. The one error is want of memory.
pub(crate) fn audit_method(
    alloc: Global,
    out: &mut Vec<Ranked>,
    program: &Program,
    number: u32,
    profile: Profile,
    labels: &[Store],
) -> Result<Option<u32>, AllocError>
    requires number { number < length program.now.methods }
    requires program { HaveSmallNames program.now }
    requires upper { ForSome (method_at program.now number).overrides (λ over. over < length program.now.methods) }
    ensures first { IfOk result (at.IsFirstFailing program.now profile number (map stored labels.now)) }
    ensures errors { IfOk result (λ _. spec.AddsTo (at.IsErrorAt program.now profile number (map stored labels.now)) out.old.items out.new.items) }
    ensures none { IfOk result (λ failed. IfNone failed (((error : Error) (rank : _) → at.IsErrorAt program.now profile number (map stored labels.now) error rank → ⊥) → HasNoErrors program.now profile number)) }
{
    let within = &program.methods.as_slice()[number as usize];
    let findings = walk(alloc, program, within, number, profile, labels)?;
    out.extend_from_slice(findings.errors.as_slice())?;
    push_of_overriding(alloc, out, program, within, number)?;
    push_of_block(out, program, within, &within.body)?;
    Ok(least_of(findings.failed.as_slice()))
}
