//! Which input element stands at the front of a text: the longest one.

ghost use Rattle.std.specs.Prelude.{◌≡◌, ◌≤◌, ◌<◌, ◌+◌, ◌^◌, length, map, IfSome, true, false};
ghost use Rattle.std.specs.List.{prefix_len};
ghost use Rattle.ix_lexer.specs.Characters as characters;
ghost use Rattle.ix_lexer.specs.Elements as elements;
ghost use Rattle.ix_lexer.specs.Scan as spec;

use crate::fixed::SIGNS;

/// The kinds of input elements (JLS 3.5).
#[derive(Clone, Copy)]
pub enum Element {
    /// White space or a comment.
    Gap,
    /// An identifier or a keyword.
    Word,
    /// What begins with a digit.
    Number,
    /// A string with both quotes.
    Quoted,
    /// A separator or an operator.
    Sign,
    /// `/*` that nothing closes.
    OpenComment,
    /// A quote that nothing closes.
    OpenString,
}

fn starts_identifier(c: char) -> bool
    ensures { result ≡ characters.starts_identifier c }
{
    unicode_ident::is_xid_start(c) || c == '_' || c == '$'
}

fn continues_identifier(c: char) -> bool
    ensures { result ≡ characters.continues_identifier c }
{
    unicode_ident::is_xid_continue(c) && c != '\u{200c}' && c != '\u{200d}' || c == '$'
}

fn is_white_space(c: char) -> bool
    ensures { result ≡ characters.is_white_space c }
{
    c == ' ' || c == '\t' || c == '\u{c}' || ends_line(c)
}

fn ends_line(c: char) -> bool
    ensures { result ≡ characters.ends_line c }
{
    c == '\n' || c == '\r'
}

/// How many characters from the front on go on with an identifier.
fn identifier_len(text: &[char]) -> usize
    ensures value { result ≡ prefix_len characters.continues_identifier text.now }
    ensures within { result ≤ length text.now }
{
    text.iter()
        .take_while(|c| continues_identifier(**c))
        .count()
}

/// How many characters from the front on end no line.
fn line_len(text: &[char]) -> usize
    ensures value { result ≡ prefix_len spec.stays_in_line text.now }
    ensures within { result ≤ length text.now }
{
    text.iter().take_while(|c| !ends_line(**c)).count()
}

/// The first character, or 0 at the end of the text.
pub fn first(text: &[char]) -> char
    ensures { result ≡ characters.first text.now }
{
    match text {
        [] => '\0',
        [c, ..] => *c,
    }
}

/// How many characters a string has behind its first quote, counted with both quotes; none where no quote on its line closes it.
fn closing_quote(mut text: &[char]) -> Option<usize>
    requires { length text.now < 2 ^ 61 }
    ensures { record {
      value : result ≡ spec.closing_quote false 1 text.entry.now;
      within : IfSome result (λ end. (1 ≤ end) × (end ≤ 1 + length text.entry.now));
    } }
{
    let mut escaped = false;
    let mut before = 1;
    while let [c, rest @ ..] = text {
        if !escaped && *c == '"' {
            return Some(before + 1);
        }
        if ends_line(*c) {
            return None;
        }
        escaped = !escaped && *c == '\\';
        before += 1;
        text = rest;
    }
    None
}

/// How many characters a comment has, of which two stand before this text; none where nothing closes it.
fn comment_end(mut text: &[char]) -> Option<usize>
    requires { length text.now < 2 ^ 61 }
    ensures { record {
      value : result ≡ spec.comment_end 2 text.entry.now;
      within : IfSome result (λ end. (1 ≤ end) × (end ≤ 2 + length text.entry.now));
    } }
{
    let mut before = 2;
    while let [c, rest @ ..] = text {
        if *c == '*' && first(rest) == '/' {
            return Some(before + 2);
        }
        before += 1;
        text = rest;
    }
    None
}

fn begins(mut sign: &[u8], mut text: &[char]) -> bool
    ensures { record {
      value : result ≡ spec.begins sign.entry.now text.entry.now;
      within : result ≡ true → length sign.entry.now ≤ length text.entry.now;
    } }
{
    while let [s, signs @ ..] = sign {
        match text {
            [] => return false,
            [c, rest @ ..] => {
                if *c != char::from(*s) {
                    return false;
                }
                sign = signs;
                text = rest;
            }
        }
    }
    true
}

/// The length of the longest text of the table that the text begins with, or 0.
fn longest(mut table: &[(u8, &[u8])], text: &[char]) -> usize
    ensures { record {
      value : result ≡ spec.longest (map (λ fixed. fixed.1.now) table.entry.now) 0 text.now;
      within : result ≤ length text.now;
    } }
{
    let mut best = 0;
    while let [(_, sign), rest @ ..] = table {
        if best < sign.len() && begins(sign, text) {
            best = sign.len();
        }
        table = rest;
    }
    best
}

#[tactic(auto, unfolding(crate::specs::Fixed::signs))]
fn longest_sign(text: &[char]) -> usize
    ensures { record {
      value : result ≡ spec.longest elements.signs 0 text.now;
      within : result ≤ length text.now;
    } }
{
    longest(&SIGNS, text)
}

#[tactic(auto, unfolding(crate::specs::Scan::sign))]
fn sign(text: &[char]) -> Option<(Element, usize)>
    ensures { record {
      value : result ≡ spec.sign text.now;
      within : IfSome result (λ found. (1 ≤ found.1) × (found.1 ≤ length text.now));
    } }
{
    let len = longest_sign(text);
    if len == 0 {
        None
    } else {
        Some((Element::Sign, len))
    }
}

fn slash(text: &[char]) -> Option<(Element, usize)>
    requires { record {
      small : length text.now < 2 ^ 60;
      some : 1 ≤ length text.now;
    } }
    ensures { record {
      value : result ≡ spec.slash text.now;
      within : IfSome result (λ found. (1 ≤ found.1) × (found.1 ≤ length text.now));
    } }
{
    match text {
        [_, '/', rest @ ..] => Some((Element::Gap, 2 + line_len(rest))),
        [_, '*', rest @ ..] => match comment_end(rest) {
            None => Some((Element::OpenComment, 2)),
            Some(end) => Some((Element::Gap, end)),
        },
        _ => sign(text),
    }
}

/// The longest element at the front of the text, and how many characters it has; none where the text is at its end or no element begins.
#[tactic(auto, unfolding(crate::specs::Scan::element_at))]
pub fn element_at(text: &[char]) -> Option<(Element, usize)>
    requires { length text.now < 2 ^ 60 }
    ensures { record {
      value : result ≡ spec.element_at text.now;
      within : IfSome result (λ found. (1 ≤ found.1) × (found.1 ≤ length text.now));
    } }
{
    match text {
        [] => None,
        [c, rest @ ..] => {
            if starts_identifier(*c) {
                Some((Element::Word, 1 + identifier_len(rest)))
            } else if c.is_ascii_digit() {
                Some((Element::Number, 1 + identifier_len(rest)))
            } else if is_white_space(*c) {
                Some((Element::Gap, 1))
            } else if *c == '"' {
                match closing_quote(rest) {
                    None => Some((Element::OpenString, 1)),
                    Some(end) => Some((Element::Quoted, end)),
                }
            } else if *c == '/' {
                slash(text)
            } else {
                sign(text)
            }
        }
    }
}
