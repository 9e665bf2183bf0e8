//! The errors of accesses to arrays, of their lengths, and of what is stored in them.

ghost use Rattle.std.specs.Prelude.{◌≡◌, ◌++◌, ◌⊎◌, pos, OnOk};
ghost use Rattle.ix_num.specs.Ints.{least_int};
ghost use Rattle.ix_core.specs.declared.error.Subject.TheVariants.{Element};
ghost use Rattle.ix_core.specs.declared.fact.Path.TheVariants.{Slot};
ghost use Rattle.ix_core.specs.declared.fact.PathClaim.TheVariants as path_claim;
ghost use Rattle.ix_core.specs.declared.fact.PathOff.TheVariants as off;
ghost use Rattle.ix_facts.specs.AfterOperation as after;
ghost use Rattle.ix_store.specs.StoredFacts.{stored};
ghost use Rattle.ix_errors.specs.Exactly.{AddsExactly};
ghost use Rattle.ix_errors.specs.Refusals.{refusals, not_proved};
ghost use Rattle.ix_signatures.specs.SignErrors as signs;
ghost use Rattle.ix_errors.specs.Lists.{fails, plain_if, element_refusals, entry_refusals, fresh_refusals, zero_fails};
ghost use Rattle.ix_sign.specs.RuleErrors.{AccessLow, AccessHigh, LengthNegative, ElementClaim, EntryClaim, FreshElement, no_path};

use crate::elements::{element_claim, loaded_claims, zero_meets};
use crate::ranked::Ranked;
use crate::unproved::refuses;
use ix_core::{Claim, Detail, Error, Op, Path, PathClaim, PathOff, Subject, Type_};
use ix_store::Store;
use ix_text::Span;
use std::alloc::AllocError;

/// An error that has a rule and a place alone, where it is so.
fn push_plain_if(out: &mut Vec<Ranked>, so: bool, rule: u8, span: Span) -> Result<(), AllocError>
    ensures { OnOk result (out.new.items ≡ out.old.items ++ plain_if so rule span) }
{
    if !so {
        return Ok(());
    }
    out.push(Ranked {
        error: Error {
            rule,
            span,
            detail: Detail::Plain,
        },
        rank: 0,
    })
    .map_err(AllocError::from)
}

/// `access.low`: the index isn't proved to be at least 0.
pub(crate) fn push_low_error(
    out: &mut Vec<Ranked>,
    store: &Store,
    index: u32,
    place: Span,
) -> Result<(), AllocError>
    ensures { OnOk result (AddsExactly (AccessLow index place (stored store.now)) out.old.items out.new.items) }
{
    let so = refuses(store, &PathClaim::Low(0), &Path::Slot(index));
    push_plain_if(out, so, 1, place)
}

/// `access.high`: the index isn't proved to be below the length.
pub(crate) fn push_high_error(
    out: &mut Vec<Ranked>,
    store: &Store,
    array: u32,
    index: u32,
    place: Span,
) -> Result<(), AllocError>
    ensures { OnOk result (AddsExactly (AccessHigh array index place (stored store.now)) out.old.items out.new.items) }
{
    let claim = PathClaim::Upper(Path::Slot(array), PathOff::Nothing, 0);
    let so = refuses(store, &claim, &Path::Slot(index));
    push_plain_if(out, so, 2, place)
}

/// The errors of a read or a write at an index: that the index isn't proved to be at least 0, and that it isn't proved to be below the length. The
/// only error is want of memory.
pub(crate) fn push_access_errors(
    out: &mut Vec<Ranked>,
    store: &Store,
    array: u32,
    index: u32,
    place: Span,
) -> Result<(), AllocError>
    ensures errors { OnOk result (AddsExactly (λ error rank. AccessLow index place (stored store.now) error rank ⊎ AccessHigh array index place (stored store.now) error rank) out.old.items out.new.items) }
{
    push_low_error(out, store, index, place).and(push_high_error(out, store, array, index, place))
}

/// `length.negative`: the length of a new array isn't proved to be at least 0.
fn push_length_error(
    out: &mut Vec<Ranked>,
    store: &Store,
    size: u32,
    place: Span,
) -> Result<(), AllocError>
    ensures { OnOk result (AddsExactly (LengthNegative size place (stored store.now)) out.old.items out.new.items) }
{
    let so = refuses(store, &PathClaim::Low(0), &Path::Slot(size));
    push_plain_if(out, so, 3, place)
}

/// The error that an element doesn't meet a claim.
fn element_error(claim: &Claim, span: Span) -> Error
    ensures { result ≡ signs.unproved 16 span Element claim.now }
{
    Error {
        rule: 16,
        span,
        detail: Detail::Claim(Subject::Element, *claim),
    }
}

fn push_refused_zeros(
    out: &mut Vec<Ranked>,
    store: &Store,
    claims: &[Claim],
    size: u32,
    place: Span,
) -> Result<(), AllocError>
    ensures { OnOk result (out.new.items ≡ out.old.items ++ refusals (zero_fails (stored store.now) size) 16 place Element 0 claims.now) }
{
    let empty = PathClaim::Range(i32::MIN, 0);
    for rank in 0..claims.len() {
        let claim = &claims[rank];
        if !zero_meets(claim) && refuses(store, &empty, &Path::Slot(size)) {
            out.push(Ranked {
                error: element_error(claim, place),
                rank,
            })?;
        }
    }
    Ok(())
}

/// `element.claim`: 0 doesn't meet a claim on the elements of a new array that isn't known to be empty.
fn push_fresh_errors(
    out: &mut Vec<Ranked>,
    store: &Store,
    ty: &Type_,
    size: u32,
    place: Span,
) -> Result<(), AllocError>
    ensures { OnOk result (AddsExactly (FreshElement ty.now size place (stored store.now)) out.old.items out.new.items) }
{
    push_refused_zeros(out, store, loaded_claims(ty), size, place)
}

/// The errors of a new array: that its length isn't proved to be at least 0, and claims on its elements that 0 doesn't meet. The only error is want of
/// memory.
pub(crate) fn push_new_array_errors(
    out: &mut Vec<Ranked>,
    store: &Store,
    ty: &Type_,
    size: u32,
    place: Span,
) -> Result<(), AllocError>
    ensures errors { OnOk result (AddsExactly (λ error rank. LengthNegative size place (stored store.now) error rank ⊎ FreshElement ty.now size place (stored store.now) error rank) out.old.items out.new.items) }
{
    push_length_error(out, store, size, place).and(push_fresh_errors(out, store, ty, size, place))
}

fn push_refused_elements(
    out: &mut Vec<Ranked>,
    store: &Store,
    claims: &[Claim],
    value: u32,
    place: Span,
) -> Result<(), AllocError>
    ensures { OnOk result (out.new.items ≡ out.old.items ++ refusals (not_proved (stored store.now) no_path (Slot value)) 16 place Element 0 claims.now) }
{
    for rank in 0..claims.len() {
        let claim = &claims[rank];
        if refuses(store, &element_claim(claim), &Path::Slot(value)) {
            out.push(Ranked {
                error: element_error(claim, place),
                rank,
            })?;
        }
    }
    Ok(())
}

fn push_of_element(
    out: &mut Vec<Ranked>,
    store: &Store,
    ty: &Type_,
    value: u32,
    place: Span,
) -> Result<(), AllocError>
    ensures { OnOk result (out.new.items ≡ out.old.items ++ element_refusals (stored store.now) ty.now value place) }
{
    push_refused_elements(out, store, loaded_claims(ty), value, place)
}

/// The claims on the elements of an array of this type that a value that is stored there isn't proved to meet. The only error is want of memory.
pub(crate) fn push_element_errors(
    out: &mut Vec<Ranked>,
    store: &Store,
    ty: &Type_,
    value: u32,
    place: Span,
) -> Result<(), AllocError>
    ensures errors { OnOk result (AddsExactly (ElementClaim ty.now value place (stored store.now)) out.old.items out.new.items) }
{
    push_of_element(out, store, ty, value, place)
}

/// The place of a part of an operation.
pub(crate) fn part(done: &Op, number: usize) -> Span
    ensures { result ≡ signs.part done.now number }
{
    done.parts
        .as_slice()
        .get(number)
        .copied()
        .unwrap_or(done.span)
}

fn push_of_entries(
    out: &mut Vec<Ranked>,
    store: &Store,
    ty: &Type_,
    entries: &[u32],
    done: &Op,
) -> Result<(), AllocError>
    ensures { OnOk result (out.new.items ≡ out.old.items ++ entry_refusals (stored store.now) ty.now done.now 0 entries.now) }
{
    for at in 0..entries.len() {
        push_of_element(out, store, ty, entries[at], part(done, at))?;
    }
    Ok(())
}

/// The claims on the elements of an array of this type that an entry of it isn't proved to meet. The only error is want of memory.
pub(crate) fn push_entry_errors(
    out: &mut Vec<Ranked>,
    store: &Store,
    ty: &Type_,
    entries: &[u32],
    done: &Op,
) -> Result<(), AllocError>
    ensures errors { OnOk result (AddsExactly (EntryClaim ty.now entries.now done.now (stored store.now)) out.old.items out.new.items) }
{
    push_of_entries(out, store, ty, entries, done)
}
