//! Texts cut at a byte, and behind a text.

ghost use Rattle.std.specs.Prelude.{◌≡◌, ◌≢◌, ◌++◌, ℕ, List, IfSome, IfNone};
ghost use Rattle.ix_cert.specs.Reading.{IsCut, Lacks};

/// The text up to the first such byte, and what stands behind it.
pub(crate) fn cut(text: &[u8], byte: u8) -> Option<(&[u8], &[u8])>
    ensures found { IfSome result (λ parts. IsCut byte text.now parts.0.now parts.1.now) }
    ensures none { IfNone result (Lacks byte text.now) }
{
    for (at, one) in text.iter().enumerate() {
        if *one == byte {
            return Some((&text[..at], &text[at + 1..]));
        }
    }
    None
}

/// What stands behind the first text, with which the text begins.
pub(crate) fn behind<'a>(first: &[u8], text: &'a [u8]) -> Option<&'a [u8]>
    ensures found { IfSome result (λ rest. text.now ≡ first.now ++ rest.now) }
    ensures none { IfNone result ((rest : List ℕ) → text.now ≢ first.now ++ rest) }
{
    text.strip_prefix(first)
}
