//! The numbers that integer literals write.

ghost use Rattle.std.specs.Prelude.{◌≡◌, ◌≤◌, ◌<◌, ◌+◌, ◌^◌, length, IfSome, true, false};
ghost use Rattle.ix_lexer.specs.Characters as characters;
ghost use Rattle.ix_lexer.specs.Numbers as spec;
ghost use Rattle.ix_lexer.specs.Scan as scan;

use crate::elements::first;

fn digits_from(base: u32, most: u32, mut text: &[char]) -> Option<u32>
    requires { record {
      low : 2 ≤ base;
      high : base ≤ 36;
    } }
    ensures { result ≡ scan.digits_from base most true 0 text.entry.now }
{
    let mut value = 0;
    let mut wanted = true;
    while let [c, rest @ ..] = text {
        if *c == '_' {
            wanted = true;
        } else {
            let digit = c.to_digit(base)?;
            let next = u64::from(value) * u64::from(base) + u64::from(digit);
            if next > u64::from(most) {
                return None;
            }
            value = next as u32;
            wanted = false;
        }
        text = rest;
    }
    if wanted { None } else { Some(value) }
}

fn digits(base: u32, most: u32, text: &[char]) -> Option<u32>
    requires { record {
      low : 2 ≤ base;
      high : base ≤ 36;
    } }
    ensures { result ≡ spec.digits base most text.now }
{
    if first(text) == '_' {
        None
    } else {
        digits_from(base, most, text)
    }
}

pub fn is_hexadecimal(text: &[char]) -> bool
    ensures { record {
      value : result ≡ spec.is_hexadecimal text.now;
      within : result ≡ true → 2 ≤ length text.now;
    } }
{
    match text {
        ['0', x, ..] => *x == 'x' || *x == 'X',
        _ => false,
    }
}

/// The number that a run of digits and letters writes, if it writes one.
pub fn number_of(text: &[char]) -> Option<u32>
    ensures { result ≡ spec.number_of text.now }
{
    if is_hexadecimal(text) {
        digits(16, 0xFFFF_FFFF, &text[2..])
    } else if first(text) == '0' {
        if text.len() == 1 { Some(0) } else { None }
    } else {
        digits(10, 2_147_483_648, text)
    }
}
