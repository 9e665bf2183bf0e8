//! An error with the place of its claim.

ghost use Rattle.std.specs.Prelude.{◌≡◌, ◌++◌, ◌∷◌, [], OnOk};
ghost use Rattle.ix_signatures.specs.SignErrors.{plain};

use ix_core::{Detail, Error};
use ix_text::Span;
use std::alloc::AllocError;

/// An error, and the place of its claim in its declaration, from 0: errors of one place, rule and subject are ordered by it. An error without a claim has 0.
#[derive(Clone, Copy)]
pub struct Ranked {
    pub error: Error,
    pub rank: usize,
}

/// Puts an error without a claim behind the others. The only error is want of memory.
pub fn push_plain(out: &mut Vec<Ranked>, rule: u8, span: Span) -> Result<(), AllocError>
    ensures { OnOk result (out.new.items ≡ out.old.items ++ record { error = plain rule span; rank = 0 } ∷ []) }
{
    let error = Error {
        rule,
        span,
        detail: Detail::Plain,
    };
    out.push(Ranked { error, rank: 0 })
        .map_err(AllocError::from)
}
