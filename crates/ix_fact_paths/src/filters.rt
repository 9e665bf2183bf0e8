//! Lists of facts as the answers of a system: what each call of `System` makes of the facts of a table.

ghost use Rattle.std.specs.Prelude.{◌≡◌, IfOk, IsTrue, option_to_list};
ghost use Rattle.ix_facts.specs.Forget.{of_path, without};
ghost use Rattle.ix_facts.specs.After.{of_target};
ghost use Rattle.ix_core.specs.declared.fact.Fact.TheVariants.{Rng, LenRng, Less, Upper};
ghost use Rattle.ix_facts.specs.Exact.{if_some};
ghost use Rattle.ix_facts.specs.Round as round;
ghost use Rattle.ix_facts.specs.Round.{Rises};
ghost use Rattle.ix_facts.specs.Systems.{system_rounded};

use crate::forget::{names_path, names_target};
use crate::landmarks::{mark_above, mark_below, rise};
use ix_core::{Fact, OpKind, Path, PathOff};
use std::alloc::{AllocError, Global};

/// The facts that don't name the path; of a slot also without those that name a field of the object in it.
pub fn facts_without_path(
    alloc: Global,
    facts: &[Fact],
    path: &Path,
) -> Result<Vec<Fact>, AllocError>
    ensures facts { IfOk result (λ kept. kept.items ≡ without (of_path path.now) facts.now) }
{
    let mut kept = Vec::with_capacity(alloc, facts.len())?;
    for fact in facts {
        if !names_path(path, fact) {
            kept.push_reserved(*fact);
        }
    }
    Ok(kept)
}

/// The facts that don't name a path that the operation may change.
pub fn facts_without_target(
    alloc: Global,
    facts: &[Fact],
    kind: &OpKind,
) -> Result<Vec<Fact>, AllocError>
    ensures facts { IfOk result (λ kept. kept.items ≡ without (of_target kind.now) facts.now) }
{
    let mut kept = Vec::with_capacity(alloc, facts.len())?;
    for fact in facts {
        if !names_target(kind, fact) {
            kept.push_reserved(*fact);
        }
    }
    Ok(kept)
}

fn rounded_range(marks: &[i32], rising: bool, p: &Path, low: i64, high: i64) -> Option<Fact>
    requires rises { IsTrue rising → Rises marks.now }
    ensures { option_to_list result ≡ round.if_both (Rng p.now) (round.mark_below marks.now low) (round.mark_above marks.now high) }
{
    match (
        mark_below(marks, rising, low),
        mark_above(marks, rising, high),
    ) {
        (Some(l), Some(h)) => Some(Fact::Rng(*p, l, h)),
        _ => None,
    }
}

fn rounded_length(marks: &[i32], rising: bool, a: &Path, low: i64, high: i64) -> Option<Fact>
    requires rises { IsTrue rising → Rises marks.now }
    ensures { option_to_list result ≡ round.if_both (LenRng a.now) (round.mark_below marks.now low) (round.mark_above marks.now high) }
{
    match (
        mark_below(marks, rising, low),
        mark_above(marks, rising, high),
    ) {
        (Some(l), Some(h)) => Some(Fact::LenRng(*a, l, h)),
        _ => None,
    }
}

fn rounded_less(marks: &[i32], rising: bool, p: &Path, q: &Path, c: i32) -> Option<Fact>
    requires rises { IsTrue rising → Rises marks.now }
    ensures { option_to_list result ≡ if_some (Less p.now q.now) (round.mark_above marks.now c) }
{
    match mark_above(marks, rising, c as i64) {
        Some(n) => Some(Fact::Less(*p, *q, n as i32)),
        None => None,
    }
}

fn rounded_upper(
    marks: &[i32],
    rising: bool,
    p: &Path,
    a: &Path,
    offset: &PathOff,
    c: i32,
) -> Option<Fact>
    requires rises { IsTrue rising → Rises marks.now }
    ensures { option_to_list result ≡ if_some (Upper p.now a.now offset.now) (round.mark_below marks.now c) }
{
    match mark_below(marks, rising, c as i64) {
        Some(n) => Some(Fact::Upper(*p, *a, *offset, n as i32)),
        None => None,
    }
}

fn rounded(marks: &[i32], rising: bool, fact: &Fact) -> Option<Fact>
    requires rises { IsTrue rising → Rises marks.now }
    ensures { option_to_list result ≡ round.rounded_fact marks.now fact.now }
{
    match *fact {
        Fact::Rng(p, low, high) => rounded_range(marks, rising, &p, low, high),
        Fact::LenRng(a, low, high) => rounded_length(marks, rising, &a, low, high),
        Fact::Less(p, q, c) => rounded_less(marks, rising, &p, &q, c),
        Fact::Upper(p, a, offset, c) => rounded_upper(marks, rising, &p, &a, &offset, c),
        _ => Some(*fact),
    }
}

/// The facts moved to the landmarks.
pub fn rounded_facts(alloc: Global, facts: &[Fact], marks: &[i32]) -> Result<Vec<Fact>, AllocError>
    ensures facts { IfOk result (λ kept. kept.items ≡ system_rounded marks.now facts.now) }
{
    let rising = rise(marks);
    let mut kept = Vec::with_capacity(alloc, facts.len())?;
    for fact in facts {
        if let Some(moved) = rounded(marks, rising, fact) {
            kept.push_reserved(moved);
        }
    }
    Ok(kept)
}
