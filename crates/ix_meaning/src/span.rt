//! Places of a text.

ghost use Rattle.std.specs.Prelude.{◌≡◌};
ghost use Rattle.ix_meaning.specs.Listed as spec;

use ix_text::Span;

/// Whether they are one place.
pub fn same_span(a: Span, b: Span) -> bool
    ensures { result ≡ spec.same_span a b }
{
    a.from == b.from && a.to == b.to
}
