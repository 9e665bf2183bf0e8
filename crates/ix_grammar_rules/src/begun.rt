//! Statements (JLS 14).

use ix_grammar::declarations::FoundMods;
use ix_grammar::found::{Found, FoundDecls, FoundType};
use ix_text::Span;

/// A statement that begins with no word of its own, as far as its semicolon.
#[derive(Drop)]
pub enum Begun {
    /// Declarations of locals.
    Local(FoundMods, FoundType, FoundDecls),
    /// An expression that may stand as a statement.
    Run(Found),
    /// `System.out.println(`, of which the first word stands there.
    Print(Span),
}
