//! Parameters that a claim of the result or a post names.

ghost use Rattle.std.specs.Prelude.{◌≡◌, OnOk};
ghost use Rattle.ix_core.specs.Objects.{offset_names};
ghost use Rattle.ix_errors.specs.Exactly.{AddsExactly};
ghost use Rattle.ix_sign.specs.RuleErrors.{AssignsNamed};
ghost use Rattle.ix_errors.specs.Parameters as spec;

use crate::parts::part;
use crate::ranked::{Ranked, push_plain};
use ix_core::{Claim, Method, Name, Off, Op, OpKind, Post};
use std::alloc::AllocError;

fn is_param(number: u32, name: &Name) -> bool
    ensures { result ≡ spec.is_param number name.now }
{
    match *name {
        Name::Param(other) => other == number,
        _ => false,
    }
}

fn offset_names_param(number: u32, offset: &Off) -> bool
    ensures { result ≡ spec.some_param number (offset_names offset.now) }
{
    match offset {
        Off::Nothing => false,
        Off::Plus(name) => is_param(number, name),
        Off::Minus(name) => is_param(number, name),
    }
}

/// Whether the claim names the parameter.
fn names_param(number: u32, claim: &Claim) -> bool
    ensures { result ≡ spec.names_param number claim.now }
{
    match claim {
        Claim::Range(_, _) | Claim::Low(_) | Claim::Length(_) => false,
        Claim::Same(name) | Claim::Less(name, _) | Claim::Search(name) | Claim::Negative(name) =>
            is_param(number, name),
        Claim::Upper(array, offset, _) => {
            is_param(number, array) || offset_names_param(number, offset)
        }
    }
}

/// Whether one of the claims names the parameter.
fn some_names_param(number: u32, claims: &[Claim]) -> bool
    ensures { result ≡ spec.some_names_param number claims.now }
{
    for claim in claims {
        if names_param(number, claim) {
            return true;
        }
    }
    false
}

/// Whether the post names the parameter: it is on it, or its claim names it.
fn post_names_param(number: u32, post: &Post) -> bool
    ensures { result ≡ spec.post_names_param number post.now }
{
    is_param(number, &post.on) || names_param(number, &post.claim)
}

/// Whether one of the posts names the parameter.
fn some_post_names_param(number: u32, posts: &[Post]) -> bool
    ensures { result ≡ spec.some_post_names_param number posts.now }
{
    for post in posts {
        if post_names_param(number, post) {
            return true;
        }
    }
    false
}

/// The number of the parameter that has the slot, if the method has that many; none of `this`.
fn param_of(within: &Method, slot: u32) -> Option<u32>
    ensures { result ≡ spec.param_of within.now.is_static slot }
{
    if within.is_static {
        Some(slot)
    } else if slot == 0 {
        None
    } else {
        Some(slot - 1)
    }
}

/// Whether a claim of the result or a post names the parameter that has the slot.
fn is_named(within: &Method, slot: u32) -> bool
    ensures { result ≡ spec.is_named within.now slot }
{
    match param_of(within, slot) {
        None => false,
        Some(number) => {
            some_names_param(number, within.result_claims.as_slice())
                || some_post_names_param(number, within.posts.as_slice())
        }
    }
}

/// `named.parameter.assigned`: a parameter that a claim of the result or a post names is assigned. The only error is want of memory.
pub fn push_assigned_parameter(
    out: &mut Vec<Ranked>,
    within: &Method,
    done: &Op,
) -> Result<(), AllocError>
    ensures errors { OnOk result (AddsExactly (AssignsNamed within.now done.now) out.old.items out.new.items) }
{
    let OpKind::Copy(target, _, _) = done.kind else {
        return Ok(());
    };
    if is_named(within, target) {
        push_plain(out, 15, part(done, 0))
    } else {
        Ok(())
    }
}
