//! The texts in annotations.

ghost use Rattle.std.specs.Prelude.{◌≡◌, ◌≤◌, ◌<◌, ◌^◌, length, option_map, IfOk};
ghost use Rattle.std.specs.Str.{chars};
ghost use Rattle.ix_annot.specs.Texts as spec;

use crate::characters::{after_blanks, begins, characters_of, digits_len, text_of, word_len};
use crate::words::is_word;
use ix_text::Text;
use std::alloc::{AllocError, Global};

/// A name in an annotation, as it is written.
#[derive(Drop)]
pub enum Naming {
    /// `#` and the number of a parameter; here it counts from 0.
    Parameter(u32),
    /// `this.` and an identifier.
    OfThis(Text),
    /// An identifier.
    Variable(Text),
}

/// What an upper bound adds to the index, as it is written.
#[derive(Drop)]
pub enum Offset {
    Constant(i32),
    /// The named variable and a constant.
    Plus(Naming, i32),
    /// The negated variable and a constant.
    Minus(Naming, i32),
}

const GREATEST_INT: u32 = 2_147_483_647;

#[tactic(auto, using(crate::proofs::Decimals::value_grows))]
fn digits(most: u32, mut text: &[char]) -> Option<u32>
    ensures { result ≡ spec.digits most text.entry.now }
{
    let mut value = 0;
    while let [c, rest @ ..] = text {
        let digit = c.to_digit(10)?;
        let next = u64::from(value) * 10 + u64::from(digit);
        if next > u64::from(most) {
            return None;
        }
        value = next as u32;
        text = rest;
    }
    Some(value)
}

/// The number that a whole text is, `0` or digits of which the first is not 0, unless it is above the greatest one allowed.
fn number(most: u32, text: &[char]) -> Option<u32>
    ensures { result ≡ spec.number most text.now }
{
    match text {
        [] => None,
        [_] => digits(most, text),
        ['0', ..] => None,
        _ => digits(most, text),
    }
}

/// An identifier at the front of a text, and what follows it.
fn identifier(alloc: Global, text: &[char]) -> Result<Option<(Text, &[char])>, AllocError>
    ensures { IfOk result (λ found. option_map (λ part. (part.0, part.1.now)) found ≡ spec.identifier text.now) }
{
    let len = word_len(text);
    if len == 0 || is_word(&text[..len]) {
        return Ok(None);
    }
    let name = text_of(alloc, &text[..len])?;
    Ok(Some((name, &text[len..])))
}

fn parameter(text: &[char]) -> Option<(Naming, &[char])>
    ensures { option_map (λ part. (part.0, part.1.now)) result ≡ spec.parameter text.now }
{
    let len = digits_len(text);
    match number(GREATEST_INT, &text[..len]) {
        None | Some(0) => None,
        Some(k) => Some((Naming::Parameter(k - 1), &text[len..])),
    }
}

fn of_this(alloc: Global, text: &[char]) -> Result<Option<(Naming, &[char])>, AllocError>
    ensures { IfOk result (λ found. option_map (λ part. (part.0, part.1.now)) found ≡ spec.of_this text.now) }
{
    match identifier(alloc, text)? {
        None => Ok(None),
        Some((name, rest)) => Ok(Some((Naming::OfThis(name), rest))),
    }
}

fn variable(alloc: Global, text: &[char]) -> Result<Option<(Naming, &[char])>, AllocError>
    ensures { IfOk result (λ found. option_map (λ part. (part.0, part.1.now)) found ≡ spec.variable text.now) }
{
    match identifier(alloc, text)? {
        None => Ok(None),
        Some((name, rest)) => Ok(Some((Naming::Variable(name), rest))),
    }
}

/// A name at the front of a text, and what follows it.
fn name(alloc: Global, text: &[char]) -> Result<Option<(Naming, &[char])>, AllocError>
    ensures { IfOk result (λ found. option_map (λ part. (part.0, part.1.now)) found ≡ spec.name text.now) }
{
    if begins(b"#", text) {
        Ok(parameter(after_blanks(&text[1..])))
    } else if begins(b"this.", text) {
        of_this(alloc, after_blanks(&text[5..]))
    } else {
        variable(alloc, text)
    }
}

fn negated(n: u32) -> i32
    requires { n ≤ 2 ^ 31 }
    ensures { result ≡ spec.negated n }
{
    (0 - i64::from(n)) as i32
}

/// An unsigned int behind blanks, with `+` or `-` before them.
fn signed_constant(text: &[char]) -> Option<i32>
    ensures { result ≡ spec.signed_constant text.now }
{
    match text {
        ['+', rest @ ..] => match number(GREATEST_INT, after_blanks(rest)) {
            None => None,
            Some(n) => Some(n as i32),
        },
        ['-', rest @ ..] => match number(GREATEST_INT, after_blanks(rest)) {
            None => None,
            Some(n) => Some(negated(n)),
        },
        _ => None,
    }
}

/// What may stand behind a name.
fn constant(text: &[char]) -> Option<i32>
    ensures { result ≡ spec.constant text.now }
{
    if text.is_empty() {
        Some(0)
    } else {
        signed_constant(after_blanks(text))
    }
}

/// The name that a whole text is.
#[tactic(auto, unfolding(crate::specs::Texts::array_text))]
fn array_name(alloc: Global, text: &[char]) -> Result<Option<Naming>, AllocError>
    ensures { IfOk result (λ naming. naming ≡ spec.array_text text.now) }
{
    match name(alloc, text)? {
        Some((naming, [])) => Ok(Some(naming)),
        _ => Ok(None),
    }
}

/// The name and the constant that a whole text is.
#[tactic(auto, unfolding(crate::specs::Texts::bound_text))]
fn bound(alloc: Global, text: &[char]) -> Result<Option<(Naming, i32)>, AllocError>
    ensures { IfOk result (λ bound. bound ≡ spec.bound_text text.now) }
{
    match name(alloc, text)? {
        None => Ok(None),
        Some((naming, rest)) => match constant(rest) {
            None => Ok(None),
            Some(c) => Ok(Some((naming, c))),
        },
    }
}

#[tactic(auto, unfolding(crate::specs::Texts::plain_offset))]
fn plain_offset(alloc: Global, text: &[char]) -> Result<Option<Offset>, AllocError>
    ensures { IfOk result (λ offset. offset ≡ spec.plain_offset text.now) }
{
    if let Some(n) = number(GREATEST_INT, text) {
        return Ok(Some(Offset::Constant(n as i32)));
    }
    match bound(alloc, text)? {
        None => Ok(None),
        Some((naming, c)) => Ok(Some(Offset::Plus(naming, c))),
    }
}

#[tactic(auto, unfolding(crate::specs::Texts::negative_offset))]
fn negative_offset(alloc: Global, text: &[char]) -> Result<Option<Offset>, AllocError>
    ensures { IfOk result (λ offset. offset ≡ spec.negative_offset text.now) }
{
    if let Some(n) = number(GREATEST_INT + 1, text) {
        return Ok(Some(Offset::Constant(negated(n))));
    }
    match bound(alloc, text)? {
        None => Ok(None),
        Some((naming, c)) => Ok(Some(Offset::Minus(naming, c))),
    }
}

#[tactic(auto, unfolding(crate::specs::Texts::offset_text))]
fn signed_offset(alloc: Global, text: &[char]) -> Result<Option<Offset>, AllocError>
    ensures { IfOk result (λ offset. offset ≡ spec.offset_text text.now) }
{
    if begins(b"-", text) {
        negative_offset(alloc, after_blanks(&text[1..]))
    } else {
        plain_offset(alloc, text)
    }
}

/// The array that a text names, if it names one.
pub fn array_text(alloc: Global, text: &Text) -> Result<Option<Naming>, AllocError>
    ensures { IfOk result (λ naming. naming ≡ spec.array_text (chars text.now)) }
{
    let characters = characters_of(alloc, text.as_str())?;
    array_name(alloc, &characters)
}

/// The variable and the constant of a bound, `@LessThan`'s text.
pub fn bound_text(alloc: Global, text: &Text) -> Result<Option<(Naming, i32)>, AllocError>
    ensures { IfOk result (λ bound. bound ≡ spec.bound_text (chars text.now)) }
{
    let characters = characters_of(alloc, text.as_str())?;
    bound(alloc, &characters)
}

/// The offset that a text writes, if it writes one.
pub fn offset_text(alloc: Global, text: &Text) -> Result<Option<Offset>, AllocError>
    ensures { IfOk result (λ offset. offset ≡ spec.offset_text (chars text.now)) }
{
    let characters = characters_of(alloc, text.as_str())?;
    signed_offset(alloc, &characters)
}
