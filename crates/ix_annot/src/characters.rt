//! The characters at the front of a text.

ghost use Rattle.std.specs.Prelude.{◌≡◌, ◌≤◌, ◌+◌, ◌<◌, ◌^◌, length, true, IfOk};
ghost use Rattle.std.specs.List.{prefix_len};
ghost use Rattle.std.specs.Str.{chars, encode_utf8_all};
ghost use Rattle.ix_lexer.specs.Characters as characters;
ghost use Rattle.ix_lexer.specs.Scan as scan;
ghost use Rattle.ix_annot.specs.Texts as spec;

use ix_text::Text;
use std::alloc::{AllocError, Global};

#[tactic(auto, using(std::proofs::lemmas::Str::chars_from_encodes))]
pub fn characters_of(alloc: Global, text: &str) -> Result<Vec<char>, AllocError>
    ensures { IfOk result (λ characters. characters.items ≡ chars text.now) }
{
    text.chars().collect(alloc)
}

pub fn text_of(alloc: Global, mut characters: &[char]) -> Result<Text, AllocError>
    ensures { IfOk result (λ text. text ≡ encode_utf8_all characters.entry.now) }
{
    let mut bytes = String::new(alloc);
    while let [c, rest @ ..] = characters {
        bytes.push(*c)?;
        characters = rest;
    }
    Ok(Text::from_string(bytes))
}

/// Whether a text begins with another one, which is given by its bytes in ASCII.
pub fn begins(mut front: &[u8], mut text: &[char]) -> bool
    ensures { record {
      value : result ≡ scan.begins front.entry.now text.entry.now;
      within : result ≡ true → length front.entry.now ≤ length text.entry.now;
    } }
{
    while let [byte, bytes @ ..] = front {
        match text {
            [] => return false,
            [c, rest @ ..] => {
                if *c != char::from(*byte) {
                    return false;
                }
                front = bytes;
                text = rest;
            }
        }
    }
    true
}

fn blanks_len(text: &[char]) -> usize
    ensures value { result ≡ prefix_len spec.is_blank text.now }
    ensures within { result ≤ length text.now }
{
    text.iter().take_while(|c| **c == ' ').count()
}

pub fn after_blanks(text: &[char]) -> &[char]
    ensures { result.now ≡ spec.after_blanks text.now }
{
    &text[blanks_len(text)..]
}

/// How many digits stand at the front.
pub fn digits_len(text: &[char]) -> usize
    ensures value { result ≡ spec.digits_len text.now }
    ensures within { result ≤ length text.now }
{
    text.iter().take_while(|c| c.is_digit(10)).count()
}

fn starts_identifier(c: char) -> bool
    ensures { result ≡ characters.starts_identifier c }
{
    unicode_ident::is_xid_start(c) || c == '_' || c == '$'
}

fn continues_identifier(c: char) -> bool
    ensures { result ≡ characters.continues_identifier c }
{
    unicode_ident::is_xid_continue(c) && c != '\u{200c}' && c != '\u{200d}' || c == '$'
}

fn letters_and_digits(text: &[char]) -> usize
    ensures value { result ≡ prefix_len characters.continues_identifier text.now }
    ensures within { result ≤ length text.now }
{
    text.iter()
        .take_while(|c| continues_identifier(**c))
        .count()
}

/// How many characters the word at the front has.
pub fn word_len(text: &[char]) -> usize
    ensures { record {
      value : result ≡ spec.word_len text.now;
      within : result ≤ length text.now;
    } }
{
    match text {
        [c, rest @ ..] if starts_identifier(*c) => 1 + letters_and_digits(rest),
        _ => 0,
    }
}
