//! The claims of a declaration that a store doesn't prove.

ghost use Rattle.std.specs.Prelude.{◌≡◌, ◌++◌, not, OnOk};
ghost use Rattle.ix_store.specs.StoredFacts.{stored};
ghost use Rattle.ix_signatures.specs.Naming.{path_by, AreSmallClaims};
ghost use Rattle.ix_errors.specs.Refusals.{is_proved, refusals, not_proved, asked_for, not_proved_of};
ghost use Rattle.ix_signatures.specs.SignErrors.{unproved};

use crate::ranked::Ranked;
use ix_core::{Claim, Detail, Error, Path, PathClaim, Subject};
use ix_signatures::{Naming, names_field};
use ix_store::Store;
use ix_text::Span;
use std::alloc::AllocError;

/// What an error says besides its claim: the rule's number, the place, and whom the claim speaks of.
#[derive(Clone, Copy)]
pub struct Report {
    pub rule: u8,
    pub span: Span,
    pub subject: Subject,
}

impl Report {
    pub(crate) fn of(&self, claim: &Claim) -> Error
        ensures { result ≡ unproved self.now.rule self.now.span self.now.subject claim.now }
    {
        Error {
            rule: self.rule,
            span: self.span,
            detail: Detail::Claim(self.subject, *claim),
        }
    }
}

/// Whether the store doesn't prove the claim of the path. It takes no memory.
pub fn refuses(store: &Store, claim: &PathClaim, at: &Path) -> bool
    ensures { result ≡ not (is_proved claim.now at.now (stored store.now)) }
{
    !store.proves(claim, at)
}

/// Whether the claim is asked for: where a field is given, only a claim that names it is.
fn is_asked(only: Option<u32>, claim: &Claim) -> bool
    ensures { result ≡ asked_for only claim.now }
{
    match only {
        Some(field) => names_field(field, claim),
        None => true,
    }
}

/// The claims that the store doesn't prove of the path. The only error is want of memory.
pub fn push_unproved(
    out: &mut Vec<Ranked>,
    store: &Store,
    naming: &Naming<'_>,
    at: &Path,
    claims: &[Claim],
    report: &Report,
) -> Result<(), AllocError>
    requires small { AreSmallClaims claims.now }
    ensures { OnOk result (out.new.items ≡ out.old.items ++ refusals (not_proved (stored store.now) (path_by naming.now) at.now) report.now.rule report.now.span report.now.subject 0 claims.now) }
{
    push_unproved_of(out, None, store, naming, at, claims, report)
}

/// The same, where a field is given of those claims alone that name it.
pub(crate) fn push_unproved_of(
    out: &mut Vec<Ranked>,
    only: Option<u32>,
    store: &Store,
    naming: &Naming<'_>,
    at: &Path,
    claims: &[Claim],
    report: &Report,
) -> Result<(), AllocError>
    requires small { AreSmallClaims claims.now }
    ensures { OnOk result (out.new.items ≡ out.old.items ++ refusals (not_proved_of only (stored store.now) (path_by naming.now) at.now) report.now.rule report.now.span report.now.subject 0 claims.now) }
{
    for rank in 0..claims.len() {
        let claim = &claims[rank];
        if is_asked(only, claim) && refuses(store, &naming.claim(claim), at) {
            out.push(Ranked {
                error: report.of(claim),
                rank,
            })?;
        }
    }
    Ok(())
}
