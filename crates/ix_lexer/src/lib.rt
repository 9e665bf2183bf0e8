//! Source text into tokens, as JLS 3 has them: input elements, each the longest that can be read from its place.
//!
//! `specs/Tokens.antt` defines the tokens of a text and the causes for which it has none; `lex` answers them exactly. The crate stands
//! on `ix_text` for places and texts and on `unicode_ident` for the letters of identifiers. It must know no grammar: what a token means
//! is told by its kind alone, and `fixed` names the numbers of keywords and signs.
#![tactic(auto)]

mod elements;
mod escapes;
pub mod fixed;
mod kinds;
mod lexer;
mod numbers;
mod token;

pub use lexer::lex;
pub use token::{LexError, Token, TokenKind};
