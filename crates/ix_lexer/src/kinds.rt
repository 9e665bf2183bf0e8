//! What kind of token an element is.

ghost use Rattle.std.specs.Prelude.{◌≡◌, map, nat_eq, IfOk};
ghost use Rattle.std.specs.Cmp.Lexicographic.{pointwise};
ghost use Rattle.std.specs.Str.{encode_utf8_all};
ghost use Rattle.ix_lexer.specs.Elements as elements;
ghost use Rattle.ix_lexer.specs.Scan as scan;
ghost use Rattle.ix_lexer.specs.Tokens as spec;

use crate::elements::Element;
use crate::fixed::{SIGNS, WORDS};
use crate::numbers::{is_hexadecimal, number_of};
use crate::token::TokenKind;
use ix_text::Text;
use std::alloc::{AllocError, Global};

fn is_text(mut fixed: &[u8], mut text: &[char]) -> bool
    ensures { result ≡ pointwise nat_eq fixed.entry.now text.entry.now }
{
    while let [byte, bytes @ ..] = fixed {
        match text {
            [] => return false,
            [c, rest @ ..] => {
                if char::from(*byte) != *c {
                    return false;
                }
                fixed = bytes;
                text = rest;
            }
        }
    }
    text.is_empty()
}

fn number_in(mut table: &[(u8, &[u8])], text: &[char]) -> Option<u8>
    ensures { result ≡ scan.entry_number (map (λ entry. (entry.0, entry.1.now)) table.entry.now) text.now }
{
    while let [(number, fixed), rest @ ..] = table {
        if is_text(fixed, text) {
            return Some(*number);
        }
        table = rest;
    }
    None
}

#[tactic(auto, unfolding(crate::specs::Fixed::words))]
fn word_number(text: &[char]) -> Option<u8>
    ensures { result ≡ spec.number_in 0 spec.words text.now }
{
    number_in(&WORDS, text)
}

#[tactic(auto, unfolding(crate::specs::Fixed::signs))]
fn sign_number(text: &[char]) -> Option<u8>
    ensures { result ≡ spec.number_in 53 elements.signs text.now }
{
    number_in(&SIGNS, text)
}

fn text_of(alloc: Global, mut text: &[char]) -> Result<Text, AllocError>
    ensures { IfOk result (λ copy. copy ≡ encode_utf8_all text.entry.now) }
{
    let mut bytes = String::new(alloc);
    while let [c, rest @ ..] = text {
        bytes.push(*c)?;
        text = rest;
    }
    Ok(Text::from_string(bytes))
}

fn number_kind(hexadecimal: bool, number: Option<u32>) -> Option<TokenKind>
    ensures { result ≡ spec.number_kind hexadecimal number }
{
    let n = number?;
    if !hexadecimal && n == 2_147_483_648 {
        Some(TokenKind::MinLit)
    } else {
        Some(TokenKind::Int(n.cast_signed()))
    }
}

fn between_quotes(text: &[char]) -> &[char]
    ensures { result.now ≡ spec.between_quotes text.now }
{
    if text.len() < 2 {
        &[]
    } else {
        &text[1..text.len() - 1]
    }
}

/// The kind of token that an element is, if it is one.
pub fn kind_of(
    alloc: Global,
    element: Element,
    text: &[char],
) -> Result<Option<TokenKind>, AllocError>
    ensures { IfOk result (λ kind. kind ≡ spec.kind_of element text.now) }
{
    match element {
        Element::Word => match word_number(text) {
            Some(number) => Ok(Some(TokenKind::Fixed(number))),
            None => Ok(Some(TokenKind::Ident(text_of(alloc, text)?))),
        },
        Element::Number => Ok(number_kind(is_hexadecimal(text), number_of(text))),
        Element::Quoted => {
            let body = text_of(alloc, between_quotes(text))?;
            Ok(Some(TokenKind::Str(body)))
        }
        Element::Sign => match sign_number(text) {
            Some(number) => Ok(Some(TokenKind::Fixed(number))),
            None => Ok(None),
        },
        Element::Gap | Element::OpenComment | Element::OpenString => Ok(None),
    }
}
