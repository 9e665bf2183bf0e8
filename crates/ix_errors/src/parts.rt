//! The places of parts of operations.

ghost use Rattle.std.specs.Prelude.{◌≡◌};
ghost use Rattle.ix_signatures.specs.SignErrors as signs;

use ix_core::Op;
use ix_text::Span;

/// The place of a part of an operation.
pub(crate) fn part(done: &Op, number: usize) -> Span
    ensures { result ≡ signs.part done.now number }
{
    done.parts
        .as_slice()
        .get(number)
        .copied()
        .unwrap_or(done.span)
}
