//! Unicode escapes (JLS 3.3), which are refused.

ghost use Rattle.std.specs.Prelude.{◌≡◌, ◌<◌, ◌^◌, true, false};
ghost use Rattle.ix_lexer.specs.Spans.{IsWithin};
ghost use Rattle.ix_lexer.specs.Steps as steps;
ghost use Rattle.ix_lexer.specs.Tokens as spec;

use crate::elements::first;
use crate::token::LexError;

/// The byte place of the first escape: a backslash behind an even number of backslashes, with a `u` behind it.
pub fn first_escape(mut text: &[char]) -> Option<u32>
    requires { spec.size text.now < 2 ^ 32 }
    ensures { result ≡ spec.first_escape text.entry.now }
{
    let mut even = true;
    let mut at = 0;
    while let [c, rest @ ..] = text {
        if even && *c == '\\' && first(rest) == 'u' {
            return Some(at);
        }
        even = !(even && *c == '\\');
        at += c.len_utf8() as u32;
        text = rest;
    }
    None
}

/// Whether the cause stands behind that place.
fn is_behind(why: LexError, place: u32) -> bool
    ensures { record {
      behind : result ≡ true → IsWithin place why → ⊥;
      within : result ≡ false → IsWithin place why;
    } }
{
    match why {
        LexError::BadUtf8(at)
        | LexError::BadChar(at)
        | LexError::OpenComment(at)
        | LexError::OpenString(at)
        | LexError::BadNumber(at)
        | LexError::TooMany(at) => at > place,
        LexError::Memory => false,
    }
}

/// The cause, or an escape that stands before it.
pub fn first_cause(why: LexError, escape: Option<u32>) -> LexError
    ensures { steps.IsFirst why escape result }
{
    match escape {
        Some(place) if is_behind(why, place) => LexError::BadChar(place),
        _ => why,
    }
}
