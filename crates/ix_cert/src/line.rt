//! A fact as a line of a certificate.

ghost use Rattle.std.specs.Prelude.{◌≡◌, ◌++◌, OnOk, IfOk, string_bytes, codes};
ghost use Rattle.std.specs.Fmt.{signed_decimal};
ghost use Rattle.ix_cert.specs.Lines as spec;
ghost use Rattle.ix_cert.specs.Lines.{path_text, fact_text};
ghost use Rattle.ix_cert.specs.Reading.{word_of};

use ix_core::{Fact, Path, PathOff};
use std::alloc::{AllocError, Global};

/// Adds a path: `s3`, and `s3.1` for field 1 of the object in it.
fn add_path(text: &mut String, path: &Path) -> Result<(), AllocError>
    ensures { OnOk result (string_bytes text.new ≡ string_bytes text.old ++ path_text path.now) }
{
    match *path {
        Path::Slot(slot) => write!(text, "s{slot}"),
        Path::FieldOf(slot, field) => write!(text, "s{slot}.{field}"),
    }
}

/// Adds two paths.
fn add_two(text: &mut String, p: &Path, q: &Path) -> Result<(), AllocError>
    ensures { OnOk result (string_bytes text.new ≡ string_bytes text.old ++ spec.two p.now q.now) }
{
    add_path(text, p)
        .and(text.push_str(" "))
        .and(add_path(text, q))
}

/// The text of a path.
fn path_line(alloc: Global, path: &Path) -> Result<String, AllocError>
    ensures { IfOk result (λ text. string_bytes text ≡ path_text path.now) }
{
    let mut text = String::new(alloc);
    add_path(&mut text, path).and(Ok(text))
}

/// Whether the text of the second path comes before that of the first.
fn is_turned(alloc: Global, p: &Path, q: &Path) -> Result<bool, AllocError>
    ensures { IfOk result (λ turned. turned ≡ spec.is_before (path_text q.now) (path_text p.now)) }
{
    let first = path_line(alloc, p)?;
    let second = path_line(alloc, q)?;
    Ok(second.as_bytes().cmp(first.as_bytes()).is_lt())
}

/// Adds two paths that may be exchanged, the one first whose text isn't the greater.
fn add_both(alloc: Global, text: &mut String, p: &Path, q: &Path) -> Result<(), AllocError>
    ensures { OnOk result (string_bytes text.new ≡ string_bytes text.old ++ spec.both_texts p.now q.now) }
{
    if is_turned(alloc, p, q)? {
        return add_two(text, q, p);
    }
    add_two(text, p, q)
}

/// Adds a bound at a sum.
fn add_sum_bound(text: &mut String, p: &Path, a: &Path, q: &Path) -> Result<(), AllocError>
    ensures { OnOk result (string_bytes text.new ≡ string_bytes text.old ++ spec.sum_bound p.now a.now q.now) }
{
    add_two(text, p, a)
        .and(text.push_str(" +"))
        .and(add_path(text, q))
}

/// Adds a bound from an array's end, without its constant.
fn add_bound(
    alloc: Global,
    text: &mut String,
    p: &Path,
    a: &Path,
    offset: &PathOff,
) -> Result<(), AllocError>
    ensures { OnOk result (string_bytes text.new ≡ string_bytes text.old ++ spec.bound_text p.now a.now offset.now) }
{
    match offset {
        PathOff::Nothing => add_two(text, p, a).and(text.push_str(" 0")),
        PathOff::Plus(q) => {
            if is_turned(alloc, p, q)? {
                return add_sum_bound(text, q, a, p);
            }
            add_sum_bound(text, p, a, q)
        }
        PathOff::Minus(q) => {
            add_two(text, p, a)
                .and(text.push_str(" -"))
                .and(add_path(text, q))
        }
    }
}

/// The word that the line of a fact begins with.
fn word(fact: &Fact) -> &'static str
    ensures { result.now ≡ word_of fact.now }
{
    match fact {
        Fact::Rng(_, _, _) => "rng ",
        Fact::LenRng(_, _, _) => "len ",
        Fact::Low(_, _) => "low ",
        Fact::Same(_, _) => "same ",
        Fact::IsLen(_, _) => "islen ",
        Fact::Less(_, _, _) => "less ",
        Fact::Sum(_, _, _) => "sum ",
        Fact::Search(_, _) => "search ",
        Fact::Neg(_, _) => "neg ",
        Fact::Upper(_, _, _, _) => "upper ",
    }
}

/// Adds a constant behind a space.
fn add_constant(text: &mut String, constant: i32) -> Result<(), AllocError>
    ensures { OnOk result (string_bytes text.new ≡ string_bytes text.old ++ (codes " " ++ signed_decimal constant)) }
{
    write!(text, " {constant}")
}

/// Adds what stands behind the word.
fn add_args(alloc: Global, text: &mut String, fact: &Fact) -> Result<(), AllocError>
    ensures { OnOk result (string_bytes text.new ≡ string_bytes text.old ++ spec.behind_word fact.now) }
{
    match fact {
        Fact::Rng(p, low, high) | Fact::LenRng(p, low, high) => {
            add_path(text, p).and(write!(text, " {low} {high}"))
        }
        Fact::Low(p, low) => add_path(text, p).and(add_constant(text, *low)),
        Fact::Same(a, b) => add_both(alloc, text, a, b),
        Fact::IsLen(p, a) | Fact::Search(p, a) | Fact::Neg(p, a) => add_two(text, p, a),
        Fact::Less(p, q, constant) => { add_two(text, p, q).and(add_constant(text, *constant)) }
        Fact::Sum(t, y, z) => {
            add_path(text, t)
                .and(text.push_str(" "))
                .and(add_both(alloc, text, y, z))
        }
        Fact::Upper(p, a, offset, constant) => {
            add_bound(alloc, text, p, a, offset).and(add_constant(text, *constant))
        }
    }
}

/// Adds a fact, without its line's end.
pub fn add_fact(alloc: Global, text: &mut String, fact: &Fact) -> Result<(), AllocError>
    ensures text { OnOk result (string_bytes text.new ≡ string_bytes text.old ++ fact_text fact.now) }
{
    text.push_str(word(fact))?;
    add_args(alloc, text, fact)
}
