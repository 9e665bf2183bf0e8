//! Reads the tokens of a text.

ghost use Rattle.std.specs.Prelude.{◌≡◌, ◌≢◌, ◌≤◌, ◌<◌, ◌+◌, ◌^◌, ℕ, List, ◌⊎◌, length, take, drop, IfOk, IfErr, IfSome, MatchResult, Ok, Err, None};
ghost use Rattle.std.specs.Str.{chars};
ghost use Rattle.ix_lexer.specs.Spans.{InOrder, IsWithin};
ghost use Rattle.ix_lexer.specs.Steps as steps;
ghost use Rattle.ix_lexer.specs.Tokens as spec;
ghost use Rattle.ix_lexer.specs.declared.token.LexError.TheVariants.{Memory};

use crate::elements::{Element, element_at};
use crate::escapes::{first_cause, first_escape};
use crate::kinds::kind_of;
use crate::token::{LexError, Token, TokenKind};
use ix_text::Span;
use std::alloc::{AllocError, Global};

/// How many tokens a text may have.
const MOST_TOKENS: usize = 200_000;

fn front(text: &[char], len: usize) -> &[char]
    requires { len ≤ length text.now }
    ensures { result.now ≡ take len text.now }
{
    &text[..len]
}

fn behind(text: &[char], len: usize) -> &[char]
    requires small { length text.now < 2 ^ 60 }
    requires within { len ≤ length text.now }
    ensures { result.now ≡ drop len text.now }
{
    &text[len..]
}

/// How many bytes the characters have in UTF-8.
fn size(mut text: &[char]) -> u32
    requires { spec.size text.now < 2 ^ 32 }
    ensures { result ≡ spec.size text.entry.now }
{
    let mut size = 0;
    while let [c, rest @ ..] = text {
        size += c.len_utf8() as u32;
        text = rest;
    }
    size
}

/// One element off the front of the text, which stands at the byte place `at` behind `count` tokens: the kind of token that it is, or
/// none for a gap, and how many characters it has.
fn step(
    alloc: Global,
    text: &[char],
    at: u32,
    count: usize,
) -> Result<(Option<TokenKind>, usize), LexError>
    requires small { length text.now < 2 ^ 60 }
    requires some { 1 ≤ length text.now }
    requires few { count ≤ spec.most_tokens }
    ensures step { IfOk result (λ taken. steps.IsStep taken.0 (take taken.1 text.now) text.now) }
    ensures within { IfOk result (λ taken. (1 ≤ taken.1) × (taken.1 ≤ length text.now)) }
    ensures room { IfOk result (λ taken. IfSome taken.0 (λ what. count < spec.most_tokens)) }
    ensures stops { IfErr result (λ why. why ≢ Memory → spec.Stops why count at text.now) }
{
    match element_at(text) {
        None => Err(LexError::BadChar(at)),
        Some((element, len)) => match element {
            Element::Gap => Ok((None, len)),
            Element::OpenComment => Err(LexError::OpenComment(at)),
            Element::OpenString => Err(LexError::OpenString(at)),
            _ => match kind_of(alloc, element, &text[..len])? {
                None => Err(LexError::BadNumber(at)),
                Some(kind) => {
                    if count == MOST_TOKENS {
                        Err(LexError::TooMany(at))
                    } else {
                        Ok((Some(kind), len))
                    }
                }
            },
        },
    }
}

fn tokens_of(alloc: Global, mut text: &[char]) -> Result<Vec<Token>, LexError>
    requires { spec.size text.now < 2 ^ 32 }
    ensures { record {
      tokens : IfOk result (λ tokens. steps.HasTokens text.entry.now tokens.items);
      stopped : IfErr result (λ why. why ≢ Memory → spec.Stopped text.entry.now why);
    } }
{
    let mut tokens = Vec::new(alloc);
    let mut at = 0;
    while !text.is_empty() {
        let (kind, len) = step(alloc, text, at, tokens.len())?;
        let to = at + size(front(text, len));
        match kind {
            None => {}
            Some(kind) => {
                let span = Span { from: at, to };
                tokens.push(Token { kind, span })?;
            }
        }
        at = to;
        text = behind(text, len);
    }
    Ok(tokens)
}

/// The tokens of a text without Unicode escapes, or the first cause for which it has none.
fn escapeless_tokens(alloc: Global, text: &[char]) -> Result<Vec<Token>, LexError>
    requires { spec.size text.now < 2 ^ 32 }
    ensures tokens { IfOk result (λ tokens. steps.HasTokens text.now tokens.items × (spec.first_escape text.now ≡ None)) }
    ensures stopped { IfErr result (λ why. why ≢ Memory → spec.StopsFirst (spec.first_escape text.now) text.now why) }
{
    let escape = first_escape(text);
    match tokens_of(alloc, text) {
        Ok(tokens) => match escape {
            None => Ok(tokens),
            Some(place) => {
                drop(tokens);
                Err(LexError::BadChar(place))
            }
        },
        Err(why) => Err(first_cause(why, escape)),
    }
}

#[tactic(auto, using(std::proofs::lemmas::Str::chars_from_encodes))]
fn characters_of(alloc: Global, text: &str) -> Result<Vec<char>, AllocError>
    ensures { IfOk result (λ characters. characters.items ≡ chars text.now) }
{
    text.chars().collect(alloc)
}

/// The tokens of a text, each with its span, or the one cause for which it has none: JLS 3 without Unicode escapes (which are refused in comments and strings too), with the numbers
/// and strings that `TokenKind` names, and with at most 200,000 tokens.
///
/// A place counts bytes. `LexError` names the causes; want of memory can stand for each answer. The time is linear in the text, and the
/// memory some words a byte.
pub fn lex(alloc: Global, text: &[u8]) -> Result<Vec<Token>, LexError>
    requires { length text.now < 2 ^ 32 }
    ensures tokens { IfOk result (λ tokens. spec.Tokens text.now tokens.items) }
    ensures few { IfOk result (λ tokens. length tokens.items ≤ spec.most_tokens) }
    ensures cause { IfErr result (λ why. why ≢ Memory → spec.Fails text.now why) }

    // There is no other answer than these but for want of memory.
    ensures only_tokens { (tokens : List Token) → spec.Tokens text.now tokens → length tokens ≤ spec.most_tokens → MatchResult result (λ found. found.items ≡ tokens) (λ why. why ≡ Memory) }
    ensures only_cause { (cause : LexError) → spec.Fails text.now cause → MatchResult result (λ found. ⊥) (λ why. (why ≡ cause) ⊎ (why ≡ Memory)) }

    // Places lie in the text.
    ensures in_order { IfOk result (λ tokens. InOrder 0 (length text.now) tokens.items) }
    ensures places { IfErr result (IsWithin (length text.now)) }
{
    match std::str::from_utf8(text) {
        Err(error) => Err(LexError::BadUtf8(error.valid_up_to() as u32)),
        Ok(text) => {
            let characters = characters_of(alloc, text)?;
            escapeless_tokens(alloc, &characters)
        }
    }
}
