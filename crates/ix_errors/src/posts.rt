//! The posts that aren't proved where a method returns or ends.

ghost use Rattle.std.specs.Prelude.{◌≡◌, ◌++◌, OnOk};
ghost use Rattle.ix_core.specs.Objects.{post_names};
ghost use Rattle.ix_store.specs.StoredFacts.{stored};
ghost use Rattle.ix_signatures.specs.Naming.{HasSmallNames, AreSmallNames};
ghost use Rattle.ix_signatures.specs.SignErrors.{PostClaim, counts_at, post_subject, value_place};
ghost use Rattle.ix_errors.specs.Exactly.{AddsExactly};
ghost use Rattle.ix_errors.specs.Refusals.{post_fails, post_refusals};

use crate::ranked::Ranked;
use crate::unproved::{Report, refuses};
use ix_core::{Method, Name, Post, Subject};
use ix_signatures::Naming;
use ix_store::Store;
use ix_text::Span;
use std::alloc::AllocError;

/// Whether the post counts where this value is returned, and this answer is written out, if one is.
fn counts(post: &Post, value: Option<u32>, known: Option<bool>) -> bool
    ensures { result ≡ counts_at post.now.when value known }
{
    match (post.when, value, known) {
        (None, _, _) => true,
        (Some(_), None, _) => false,
        (Some(_), Some(_), None) => true,
        (Some(true), Some(_), Some(written)) => written,
        (Some(false), Some(_), Some(written)) => !written,
    }
}

/// The parameter or the field of the method that a post is on.
fn subject_of(number: u32, on: &Name) -> Subject
    ensures { result ≡ post_subject number on.now }
{
    match *on {
        Name::Param(param) => Subject::Param(number, param),
        Name::FieldNamed(field) => Subject::PostField(number, field),
        Name::Local(_) => Subject::Element,
    }
}

/// The place of the value, or the method's name where there is none.
fn place_of(method: &Method, value: Option<u32>, span: Span) -> Span
    ensures { result ≡ value_place method.now value span }
{
    match value {
        Some(_) => span,
        None => method.span,
    }
}

/// Whether the post counts and isn't proved. It takes no memory.
fn fails(
    store: &Store,
    method: &Method,
    value: Option<u32>,
    known: Option<bool>,
    post: &Post,
) -> bool
    requires small { AreSmallNames (post_names post.now) }
    ensures { result ≡ post_fails (stored store.now) method.now value known post.now }
{
    let naming = Naming::Inside(method);
    counts(post, value, known) && refuses(store, &naming.claim(&post.claim), &naming.path(&post.on))
}

fn push_failed_posts(
    out: &mut Vec<Ranked>,
    store: &Store,
    method: &Method,
    number: u32,
    value: Option<u32>,
    known: Option<bool>,
    span: Span,
) -> Result<(), AllocError>
    requires small { HasSmallNames method.now }
    ensures { OnOk result (out.new.items ≡ out.old.items ++ post_refusals (stored store.now) method.now number value known span 0 method.now.posts) }
{
    let posts = method.posts.as_slice();
    for rank in 0..posts.len() {
        let post = &posts[rank];
        if fails(store, method, value, known, post) {
            let subject = subject_of(number, &post.on);
            let report = Report {
                rule: 18,
                span,
                subject,
            };
            out.push(Ranked {
                error: report.of(&post.claim),
                rank,
            })?;
        }
    }
    Ok(())
}

/// The posts that aren't proved at a `return` of this value, or at the end, where this answer is written out. The method has the given number. The only error
/// is want of memory.
pub fn push_post_errors(
    out: &mut Vec<Ranked>,
    store: &Store,
    method: &Method,
    number: u32,
    value: Option<u32>,
    known: Option<bool>,
    span: Span,
) -> Result<(), AllocError>
    requires small { HasSmallNames method.now }
    ensures errors { OnOk result (AddsExactly (PostClaim method.now number value known span (stored store.now)) out.old.items out.new.items) }
{
    let place = place_of(method, value, span);
    push_failed_posts(out, store, method, number, value, known, place)
}
