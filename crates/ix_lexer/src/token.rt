use ix_text::{Span, Text};
use std::alloc::{AllocError, AllocFailed};

/// What a token is.
#[derive(Drop)]
pub enum TokenKind {
    /// An identifier (JLS 3.8), by its text.
    Ident(Text),
    /// A keyword, `true`, `false`, `null`, a separator or an operator (JLS 3.9 to 3.12), by its number: `fixed` names each.
    Fixed(u8),
    /// An integer literal (JLS 3.10.1), by the low 32 bits of its number as an `int`.
    Int(i32),
    /// The decimal literal 2147483648, which JLS 3.10.1 allows behind a minus sign only.
    MinLit,
    /// A string literal (JLS 3.10.5), by the text between its quotes as it is written.
    Str(Text),
}

/// A token, and where it stands in the source text.
#[derive(Drop)]
pub struct Token {
    pub kind: TokenKind,
    pub span: Span,
}

/// Why a text has no tokens. The number is the byte place of the cause.
#[derive(Clone, Copy, PartialEq, Eq)]
pub enum LexError {
    /// The text is not UTF-8: the first byte that belongs to no character.
    BadUtf8(u32),
    /// A character that begins no token and no gap.
    BadChar(u32),
    /// A `/*` that no `*/` ends.
    OpenComment(u32),
    /// A `"` that no `"` on its line ends.
    OpenString(u32),
    /// A word that begins with a digit and spells no number of this language.
    BadNumber(u32),
    /// The 200,001st token.
    TooMany(u32),
    /// Want of memory, which has no place.
    Memory,
}

impl From<AllocError> for LexError {
    ghost use Rattle.std.specs.Prelude.{◌≡◌};
    ghost use Rattle.ix_lexer.specs.declared.token.LexError.TheVariants.{Memory};

    ghost from_gives = { λ _ error. error ≡ Memory };

    fn from(_error: AllocError) -> LexError {
        LexError::Memory
    }
}

impl<T: Drop> From<AllocFailed<T>> for LexError {
    ghost use Rattle.std.specs.Prelude.{◌≡◌};
    ghost use Rattle.ix_lexer.specs.declared.token.LexError.TheVariants.{Memory};

    ghost from_gives = { λ _ error. error ≡ Memory };

    fn from(_error: AllocFailed<T>) -> LexError {
        LexError::Memory
    }
}
