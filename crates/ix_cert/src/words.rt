//! A line of a certificate as a fact. A fact is read from its text, and other texts may be read too: who reads a line compares its fact's text with it.

ghost use Rattle.std.specs.Prelude.{◌≡◌, ℕ, ℤ, ◌<◌, ◌^◌, List, ◌∷◌, ◌++◌, IsSomeAnd, decimal};
ghost use Rattle.std.specs.Fmt.{signed_decimal};
ghost use Rattle.std.specs.Str.{IsAscii};
ghost use Rattle.ix_num.specs.Ints.{IsInt};
ghost use Rattle.ix_core.specs.declared.fact.Path.{Path};
ghost use Rattle.ix_core.specs.declared.fact.PathOff.{PathOff};
ghost use Rattle.ix_core.specs.declared.fact.Fact.{Fact};
ghost use Rattle.ix_cert.specs.Lines.{path_text};
ghost use Rattle.ix_cert.specs.Reading.{IsSmall, IsSmallOffset, IsSmallFact, offset_text, args_text, given_text};

use crate::cut::{behind, cut};
use ix_core::{Fact, Path, PathOff};

/// The bytes as text, where they are one.
fn text_of(word: &[u8]) -> Option<&str>
    ensures { IsAscii word.now → IsSomeAnd result (λ text. text.now ≡ word.now) }
{
    match str::from_utf8(word) {
        Ok(text) => Some(text),
        Err(_) => None,
    }
}

fn number(word: &[u8]) -> Option<u32>
    ensures { (n : ℕ) → n < 2 ^ 32 → word.now ≡ decimal n → result ≡ Some n }
{
    let text = text_of(word)?;
    text.parse().ok()
}

fn end(word: &[u8]) -> Option<i64>
    ensures { (n : ℤ) → IsInt n → word.now ≡ signed_decimal n → result ≡ Some n }
{
    let text = text_of(word)?;
    text.parse().ok()
}

fn constant(word: &[u8]) -> Option<i32>
    ensures { (n : ℤ) → IsInt n → word.now ≡ signed_decimal n → result ≡ Some n }
{
    let text = text_of(word)?;
    text.parse().ok()
}

fn path(text: &[u8]) -> Option<Path>
    ensures { (p : Path) → IsSmall p → text.now ≡ path_text p → result ≡ Some p }
{
    let digits = text.strip_prefix(b"s")?;
    match cut(digits, b'.') {
        None => Some(Path::Slot(number(digits)?)),
        Some((slot, field)) => Some(Path::FieldOf(number(slot)?, number(field)?)),
    }
}

/// The path before the first space, and what stands behind it.
fn first_path(text: &[u8]) -> Option<(Path, &[u8])>
    ensures { (p : Path) (rest : List ℕ) → IsSmall p → text.now ≡ path_text p ++ 32 ∷ rest → IsSomeAnd result (λ parts. (parts.0 ≡ p) × (parts.1.now ≡ rest)) }
{
    let (word, rest) = cut(text, b' ')?;
    Some((path(word)?, rest))
}

/// Two paths, the second at the end.
fn two_paths(text: &[u8]) -> Option<(Path, Path)>
    ensures { (p q : Path) → IsSmall p → IsSmall q → text.now ≡ path_text p ++ 32 ∷ path_text q → IsSomeAnd result (λ parts. (parts.0 ≡ p) × (parts.1 ≡ q)) }
{
    let (p, rest) = first_path(text)?;
    Some((p, path(rest)?))
}

fn offset(text: &[u8]) -> Option<PathOff>
    ensures { (o : PathOff) → IsSmallOffset o → text.now ≡ offset_text o → result ≡ Some o }
{
    if let Some(rest) = text.strip_prefix(b"+") {
        return Some(PathOff::Plus(path(rest)?));
    }
    if let Some(rest) = text.strip_prefix(b"-") {
        return Some(PathOff::Minus(path(rest)?));
    }
    Some(PathOff::Nothing)
}

/// The ends before and behind the first space.
fn ends(text: &[u8]) -> Option<(i64, i64)>
    ensures { (l h : ℤ) → IsInt l → IsInt h → text.now ≡ signed_decimal l ++ 32 ∷ signed_decimal h → IsSomeAnd result (λ ends. (ends.0 ≡ l) × (ends.1 ≡ h)) }
{
    let (first, last) = cut(text, b' ')?;
    Some((end(first)?, end(last)?))
}

fn range(text: &[u8]) -> Option<Fact>
    ensures { (p : Path) (l h : ℤ) → IsSmallFact (Fact.Rng p l h) → text.now ≡ args_text (Fact.Rng p l h) → result ≡ Some (Fact.Rng p l h) }
{
    let (p, rest) = first_path(text)?;
    let (low, high) = ends(rest)?;
    Some(Fact::Rng(p, low, high))
}

fn length_range(text: &[u8]) -> Option<Fact>
    ensures { (a : Path) (l h : ℤ) → IsSmallFact (Fact.LenRng a l h) → text.now ≡ args_text (Fact.LenRng a l h) → result ≡ Some (Fact.LenRng a l h) }
{
    let (a, rest) = first_path(text)?;
    let (low, high) = ends(rest)?;
    Some(Fact::LenRng(a, low, high))
}

fn low(text: &[u8]) -> Option<Fact>
    ensures { (p : Path) (c : ℤ) → IsSmallFact (Fact.Low p c) → text.now ≡ args_text (Fact.Low p c) → result ≡ Some (Fact.Low p c) }
{
    let (p, rest) = first_path(text)?;
    Some(Fact::Low(p, constant(rest)?))
}

fn same(text: &[u8]) -> Option<Fact>
    ensures { (a b : Path) → IsSmallFact (Fact.Same a b) → text.now ≡ args_text (Fact.Same a b) → result ≡ Some (Fact.Same a b) }
{
    let (a, b) = two_paths(text)?;
    Some(Fact::Same(a, b))
}

fn is_length(text: &[u8]) -> Option<Fact>
    ensures { (p a : Path) → IsSmallFact (Fact.IsLen p a) → text.now ≡ args_text (Fact.IsLen p a) → result ≡ Some (Fact.IsLen p a) }
{
    let (p, a) = two_paths(text)?;
    Some(Fact::IsLen(p, a))
}

fn less(text: &[u8]) -> Option<Fact>
    ensures { (p q : Path) (c : ℤ) → IsSmallFact (Fact.Less p q c) → text.now ≡ args_text (Fact.Less p q c) → result ≡ Some (Fact.Less p q c) }
{
    let (p, rest) = first_path(text)?;
    let (q, rest) = first_path(rest)?;
    Some(Fact::Less(p, q, constant(rest)?))
}

fn sum(text: &[u8]) -> Option<Fact>
    ensures { (t y z : Path) → IsSmallFact (Fact.Sum t y z) → text.now ≡ args_text (Fact.Sum t y z) → result ≡ Some (Fact.Sum t y z) }
{
    let (t, rest) = first_path(text)?;
    let (y, z) = two_paths(rest)?;
    Some(Fact::Sum(t, y, z))
}

fn search(text: &[u8]) -> Option<Fact>
    ensures { (p a : Path) → IsSmallFact (Fact.Search p a) → text.now ≡ args_text (Fact.Search p a) → result ≡ Some (Fact.Search p a) }
{
    let (p, a) = two_paths(text)?;
    Some(Fact::Search(p, a))
}

fn negative(text: &[u8]) -> Option<Fact>
    ensures { (p a : Path) → IsSmallFact (Fact.Neg p a) → text.now ≡ args_text (Fact.Neg p a) → result ≡ Some (Fact.Neg p a) }
{
    let (p, a) = two_paths(text)?;
    Some(Fact::Neg(p, a))
}

/// The offset before the first space, and the constant behind it.
fn offset_and_constant(text: &[u8]) -> Option<(PathOff, i32)>
    ensures { (o : PathOff) (c : ℤ) → IsSmallOffset o → IsInt c → text.now ≡ offset_text o ++ 32 ∷ signed_decimal c → IsSomeAnd result (λ parts. (parts.0 ≡ o) × (parts.1 ≡ c)) }
{
    let (first, last) = cut(text, b' ')?;
    Some((offset(first)?, constant(last)?))
}

fn upper(text: &[u8]) -> Option<Fact>
    ensures { (p a : Path) (o : PathOff) (c : ℤ) → IsSmallFact (Fact.Upper p a o c) → text.now ≡ args_text (Fact.Upper p a o c) → result ≡ Some (Fact.Upper p a o c) }
{
    let (p, rest) = first_path(text)?;
    let (a, rest) = first_path(rest)?;
    let (offset, constant) = offset_and_constant(rest)?;
    Some(Fact::Upper(p, a, offset, constant))
}

/// The fact of a line without its end.
pub(crate) fn fact(line: &[u8]) -> Option<Fact>
    ensures given { (fact : Fact) → IsSmallFact fact → line.now ≡ given_text fact → result ≡ Some fact }
{
    if let Some(rest) = behind(b"rng ", line) {
        return range(rest);
    }
    if let Some(rest) = behind(b"len ", line) {
        return length_range(rest);
    }
    if let Some(rest) = behind(b"low ", line) {
        return low(rest);
    }
    if let Some(rest) = behind(b"same ", line) {
        return same(rest);
    }
    if let Some(rest) = behind(b"islen ", line) {
        return is_length(rest);
    }
    if let Some(rest) = behind(b"less ", line) {
        return less(rest);
    }
    if let Some(rest) = behind(b"sum ", line) {
        return sum(rest);
    }
    if let Some(rest) = behind(b"search ", line) {
        return search(rest);
    }
    if let Some(rest) = behind(b"neg ", line) {
        return negative(rest);
    }
    if let Some(rest) = behind(b"upper ", line) {
        return upper(rest);
    }
    None
}
