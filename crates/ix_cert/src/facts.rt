//! The lines of facts, read.

ghost use Rattle.std.specs.Prelude.{◌≡◌, ◌≢◌, ◌↔◌, [], false, IsTrue, IfOk, IfSome, IfNone};
ghost use Rattle.ix_core.specs.declared.fact.Fact.{Fact};
ghost use Rattle.ix_facts.specs.Forget.{names, offset_names};
ghost use Rattle.ix_cert.specs.Lines.{fact_text};
ghost use Rattle.ix_cert.specs.Labellings.{is_outside};
ghost use Rattle.ix_cert.specs.Reading.{FactsText, IsNextFact, IsReadAs, IsSmallFact, MayBeRead, Stops, in_text_order};

use crate::cut::cut;
use crate::lines::fact_line;
use crate::words;
use ix_core::{Fact, Path, PathOff};
use std::alloc::{AllocError, Global};

fn is_inside(slots: u32, fields: u32, path: &Path) -> bool
    ensures { IsTrue result ↔ (is_outside slots fields path.now ≡ false) }
{
    match *path {
        Path::Slot(slot) => slot < slots,
        Path::FieldOf(slot, field) => slot < slots && field < fields,
    }
}

fn is_offset_inside(slots: u32, fields: u32, offset: &PathOff) -> bool
    ensures { IsTrue result ↔ (offset_names (is_outside slots fields) offset.now ≡ false) }
{
    match offset {
        PathOff::Nothing => true,
        PathOff::Plus(path) => is_inside(slots, fields, path),
        PathOff::Minus(path) => is_inside(slots, fields, path),
    }
}

/// Whether each path that the fact names is a slot of the method, or a field of the program of the object in one.
fn names_inside(slots: u32, fields: u32, fact: &Fact) -> bool
    ensures { IsTrue result ↔ (names (is_outside slots fields) fact.now ≡ false) }
{
    match fact {
        Fact::Rng(p, _, _) | Fact::LenRng(p, _, _) | Fact::Low(p, _) => is_inside(slots, fields, p),
        Fact::Same(p, q)
        | Fact::IsLen(p, q)
        | Fact::Less(p, q, _)
        | Fact::Search(p, q)
        | Fact::Neg(p, q) => is_inside(slots, fields, p) && is_inside(slots, fields, q),
        Fact::Sum(t, y, z) => is_inside(slots, fields, t)
            && is_inside(slots, fields, y)
            && is_inside(slots, fields, z),
        Fact::Upper(p, a, offset, _) => is_inside(slots, fields, p)
            && is_inside(slots, fields, a)
            && is_offset_inside(slots, fields, offset),
    }
}

/// The fact, where it names nothing outside and the line is its own.
fn checked(
    alloc: Global,
    slots: u32,
    fields: u32,
    line: &[u8],
    fact: Fact,
) -> Result<Option<Fact>, AllocError>
    ensures { record {
      found : IfOk result (λ found. IfSome found (λ found. (found ≡ fact) × (fact_text fact ≡ line.now) × (names (is_outside slots fields) fact ≡ false)));
      none : IfOk result (λ found. IfNone found (fact_text fact ≡ line.now → names (is_outside slots fields) fact ≡ false → ⊥));
    } }
{
    if !names_inside(slots, fields, &fact) {
        return Ok(None);
    }
    let text = fact_line(alloc, &fact)?;
    if text.as_bytes() == line {
        return Ok(Some(fact));
    }
    Ok(None)
}

/// The fact of a line, of slots of the method and fields of the program.
fn fact_of(alloc: Global, slots: u32, fields: u32, line: &[u8]) -> Result<Option<Fact>, AllocError>
    ensures read { IfOk result (λ fact. IfSome fact (IsReadAs slots fields line.now)) }
    ensures none { IfOk result (λ fact. IfNone fact ((other : Fact) → MayBeRead slots fields other → fact_text other ≢ line.now)) }
{
    match words::fact(line) {
        None => Ok(None),
        Some(fact) => checked(alloc, slots, fields, line, fact),
    }
}

/// The fact of the text's first line, that line and what stands behind it; none where no line of a fact stands first that may come behind the last one.
fn next_fact<'a>(
    alloc: Global,
    slots: u32,
    fields: u32,
    last: &[u8],
    text: &'a [u8],
) -> Result<Option<(Fact, &'a [u8], &'a [u8])>, AllocError>
    ensures next { IfOk result (λ next. IfSome next (λ parts. IsNextFact slots fields last.now text.now parts.0 parts.1.now parts.2.now)) }
    ensures none { IfOk result (λ next. IfNone next (Stops slots fields last.now text.now)) }
{
    let Some((line, rest)) = cut(text, b'\n') else {
        return Ok(None);
    };
    if !last.cmp(line).is_lt() {
        return Ok(None);
    }
    match fact_of(alloc, slots, fields, line)? {
        None => Ok(None),
        Some(fact) => Ok(Some((fact, line, rest))),
    }
}

/// The facts that the text begins with, a line each and in order, and what stands behind them.
pub(crate) fn read_facts<'a>(
    alloc: Global,
    slots: u32,
    fields: u32,
    text: &'a [u8],
) -> Result<(Vec<Fact>, &'a [u8]), AllocError>
    ensures { IfOk result (λ parts. FactsText slots fields [] text.now parts.0.items parts.1.now) }
{
    let mut facts = Vec::new(alloc);
    let mut last: &[u8] = &[];
    let mut rest = text;
    while let Some((fact, line, later)) = next_fact(alloc, slots, fields, last, rest)? {
        facts.push(fact)?;
        last = line;
        rest = later;
    }
    Ok((facts, rest))
}
