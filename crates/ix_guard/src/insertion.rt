//! Texts that are inserted in a source.

ghost use Rattle.std.specs.Prelude.{◌≡◌, ◌++◌, OnOk, string_bytes};
ghost use Rattle.ix_guard.specs.Guards as spec;

use ix_text::{Span, Text};
use std::alloc::{AllocError, Global};

/// A text that is inserted before the byte at that place.
#[derive(Drop)]
pub struct Insertion {
    pub place: u32,
    pub text: Text,
}

fn insert(out: &mut Vec<Insertion>, place: u32, text: String) -> Result<(), AllocError>
    ensures { OnOk result (out.new.items ≡ out.old.items ++ spec.inserted place (string_bytes text)) }
{
    let text = Text::from_string(text);
    out.push(Insertion { place, text })
        .map_err(AllocError::from)
}

/// The tests alone before a declaration.
pub(crate) fn insert_before(
    out: &mut Vec<Insertion>,
    span: Span,
    tests: String,
) -> Result<(), AllocError>
    ensures { OnOk result (out.new.items ≡ out.old.items ++ spec.before span (string_bytes tests)) }
{
    if tests.is_empty() {
        return Ok(());
    }
    insert(out, span.from, tests)
}

/// The beginning of a block with these tests.
pub(crate) fn insert_opening(
    alloc: Global,
    out: &mut Vec<Insertion>,
    span: Span,
    tests: &str,
) -> Result<(), AllocError>
    ensures { OnOk result (out.new.items ≡ out.old.items ++ spec.opening span tests.now) }
{
    if tests.is_empty() {
        return Ok(());
    }
    let mut text = String::from_str(alloc, "{ ")?;
    text.push_str(tests).and(insert(out, span.from, text))
}

/// The end of a block with these tests.
pub(crate) fn insert_closing(
    alloc: Global,
    out: &mut Vec<Insertion>,
    span: Span,
    tests: &str,
) -> Result<(), AllocError>
    ensures { OnOk result (out.new.items ≡ out.old.items ++ spec.closing span tests.now) }
{
    if tests.is_empty() {
        return Ok(());
    }
    let text = String::from_str(alloc, " }")?;
    insert(out, span.to, text)
}
