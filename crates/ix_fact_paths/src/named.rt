//! The ints and the arrays that facts name, each once.

ghost use Rattle.std.specs.Prelude.{◌≡◌, ◌⊎◌, ◌∷◌, ◌++◌, [], IsTrue, IfOk, OnOk};
ghost use Rattle.ix_core.specs.declared.fact.Path.{Path};
ghost use Rattle.ix_facts.specs.Exact.{offset_paths, ints_of, arrays_of, named_ints, named_arrays};
ghost use Rattle.ix_facts.specs.Named.{IsAmongPaths};
ghost use Rattle.ix_fact_paths.specs.ByPath.{put_all};
ghost use Rattle.ix_fact_paths.specs.NamedLaws.{AreAmong};
ghost use Rattle.ix_fact_paths.specs.PutLaws.{IsRising};
ghost use Rattle.ix_fact_paths.specs.PutUntil.{IsPutUntil};

use crate::path_order::compare_paths;
use crate::path_set::PathSet;
use ix_core::{Fact, Path, PathOff};
use std::alloc::{AllocError, Global};
use std::cmp::Ordering;

fn put_offset(paths: &mut PathSet, offset: &PathOff) -> Result<(), AllocError>
    ensures { OnOk result (paths.new ≡ put_all paths.old (offset_paths offset.now)) }
{
    match offset {
        PathOff::Nothing => Ok(()),
        PathOff::Plus(q) => paths.put_copy(q),
        PathOff::Minus(q) => paths.put_copy(q),
    }
}

#[inline]
fn put_two(paths: &mut PathSet, p: &Path, q: &Path) -> Result<(), AllocError>
    ensures { OnOk result (paths.new ≡ put_all paths.old (p.now ∷ q.now ∷ [])) }
{
    paths.put_copy(p).and(paths.put_copy(q))
}

fn put_three(paths: &mut PathSet, t: &Path, y: &Path, z: &Path) -> Result<(), AllocError>
    ensures { OnOk result (paths.new ≡ put_all paths.old (t.now ∷ y.now ∷ z.now ∷ [])) }
{
    paths.put_copy(t).and(put_two(paths, y, z))
}

#[inline]
fn put_int_and_array(
    ints: &mut PathSet,
    arrays: &mut PathSet,
    p: &Path,
    a: &Path,
) -> Result<(), AllocError>
    ensures { record {
      ints : OnOk result (ints.new ≡ put_all ints.old (p.now ∷ []));
      arrays : OnOk result (arrays.new ≡ put_all arrays.old (a.now ∷ []));
    } }
{
    ints.put_copy(p).and(arrays.put_copy(a))
}

/// Puts the ints that the fact names into the one set, and the arrays into the other.
#[inline(never)]
fn put_named(ints: &mut PathSet, arrays: &mut PathSet, fact: &Fact) -> Result<(), AllocError>
    ensures { record {
      ints : OnOk result (ints.new ≡ put_all ints.old (ints_of fact.now));
      arrays : OnOk result (arrays.new ≡ put_all arrays.old (arrays_of fact.now));
    } }
{
    match fact {
        Fact::Rng(p, _, _) | Fact::Low(p, _) => ints.put_copy(p),
        Fact::LenRng(a, _, _) => arrays.put_copy(a),
        Fact::Same(a, b) => put_two(arrays, a, b),
        Fact::IsLen(p, a) | Fact::Search(p, a) | Fact::Neg(p, a) => {
            put_int_and_array(ints, arrays, p, a)
        }
        Fact::Less(p, q, _) => put_two(ints, p, q),
        Fact::Sum(t, y, z) => put_three(ints, t, y, z),
        Fact::Upper(p, a, offset, _) => {
            put_int_and_array(ints, arrays, p, a).and(put_offset(ints, offset))
        }
    }
}

/// The same. Most facts are differences, ranges and classes of ints that are marked: those take a look in place, and no call.
#[inline]
fn put_fact(ints: &mut PathSet, arrays: &mut PathSet, fact: &Fact) -> Result<(), AllocError>
    ensures { record {
      ints : OnOk result (ints.new ≡ put_all ints.old (ints_of fact.now));
      arrays : OnOk result (arrays.new ≡ put_all arrays.old (arrays_of fact.now));
    } }
{
    match fact {
        Fact::Less(p, q, _) => put_two(ints, p, q),
        Fact::Rng(p, _, _) | Fact::Low(p, _) => ints.put_copy(p),
        _ => put_named(ints, arrays, fact),
    }
}

/// Puts what the facts name.
fn put_facts(ints: &mut PathSet, arrays: &mut PathSet, facts: &[Fact]) -> Result<(), AllocError>
    ensures { record {
      ints : OnOk result (ints.new ≡ put_all ints.old (named_ints facts.now));
      arrays : OnOk result (arrays.new ≡ put_all arrays.old (named_arrays facts.now));
    } }
{
    for fact in facts {
        put_fact(ints, arrays, fact)?;
    }
    Ok(())
}

/// Puts the ints that the facts name, until there are so many paths.
fn put_until(
    alloc: Global,
    ints: &mut PathSet,
    facts: &[Fact],
    count: usize,
) -> Result<(), AllocError>
    ensures { OnOk result (IsPutUntil ints.old facts.now count ints.new) }
{
    let mut arrays = PathSet::new(alloc);
    for fact in facts {
        if ints.len() >= count {
            return Ok(());
        }
        put_named(ints, &mut arrays, fact)?;
    }
    Ok(())
}

/// The ints that the facts name, and the arrays. The only error is want of memory.
pub fn ints_and_arrays(alloc: Global, facts: &[Fact]) -> Result<(Vec<Path>, Vec<Path>), AllocError>
    ensures { record {
      ints : IfOk result (λ named. named.0.items ≡ put_all [] (named_ints facts.now));
      arrays : IfOk result (λ named. named.1.items ≡ put_all [] (named_arrays facts.now));
    } }
{
    let mut ints = PathSet::with_room(alloc, 16)?;
    let mut arrays = PathSet::new(alloc);
    put_facts(&mut ints, &mut arrays, facts)?;
    Ok((ints.into_paths(), arrays.into_paths()))
}

/// Puts the arrays that the fact names.
fn put_arrays(arrays: &mut PathSet, fact: &Fact) -> Result<(), AllocError>
    ensures { OnOk result (arrays.new ≡ put_all arrays.old (arrays_of fact.now)) }
{
    match fact {
        Fact::LenRng(a, _, _)
        | Fact::IsLen(_, a)
        | Fact::Search(_, a)
        | Fact::Neg(_, a)
        | Fact::Upper(_, a, _, _) => arrays.put_copy(a),
        Fact::Same(a, b) => put_two(arrays, a, b),
        Fact::Rng(_, _, _) | Fact::Low(_, _) | Fact::Less(_, _, _) | Fact::Sum(_, _, _) => Ok(()),
    }
}

fn put_all_arrays(arrays: &mut PathSet, facts: &[Fact]) -> Result<(), AllocError>
    ensures { OnOk result (arrays.new ≡ put_all arrays.old (named_arrays facts.now)) }
{
    for fact in facts {
        put_arrays(arrays, fact)?;
    }
    Ok(())
}

/// The arrays that facts in two parts name.
fn arrays_of_both(alloc: Global, first: &[Fact], last: &[Fact]) -> Result<Vec<Path>, AllocError>
    ensures { IfOk result (λ arrays. arrays.items ≡ put_all (put_all [] (named_arrays first.now)) (named_arrays last.now)) }
{
    let mut arrays = PathSet::new(alloc);
    put_all_arrays(&mut arrays, first).and(put_all_arrays(&mut arrays, last))?;
    Ok(arrays.into_paths())
}

/// The paths behind the first, where the fact is the range of that, and else all.
fn behind_range<'a>(paths: &'a [Path], fact: &Fact) -> &'a [Path]
    ensures { (p : Path) → IsAmongPaths p paths.now → IsAmongPaths p result.now ⊎ IsAmongPaths p (ints_of fact.now) }
{
    let (Some((first, more)), Fact::Rng(q, _, _)) = (paths.split_first(), fact) else {
        return paths;
    };
    match compare_paths(first, q) {
        Ordering::Equal => more,
        _ => paths,
    }
}

/// Whether among the facts, in order, there is a range of each path: then no more of them need be looked at.
fn have_ranges(facts: &[Fact], paths: &[Path]) -> bool
    ensures { IsTrue result → AreAmong paths.now (named_ints facts.now) }
{
    let mut rest = paths;
    for fact in facts {
        if rest.is_empty() {
            return true;
        }
        rest = behind_range(rest, fact);
    }
    rest.is_empty()
}

/// The ints that facts in three parts name, as a search through the first, the last and then those between finds them: no more are sought where there are so many.
fn ints_among(
    alloc: Global,
    first: &[Fact],
    between: &[Fact],
    last: &[Fact],
    count: usize,
) -> Result<Vec<Path>, AllocError>
    ensures { IfOk result (λ ints. IsPutUntil (put_all (put_all [] (named_ints first.now)) (named_ints last.now)) between.now count ints.items) }
{
    let mut ints = PathSet::with_room(alloc, count)?;
    let mut arrays = PathSet::new(alloc);
    put_facts(&mut ints, &mut arrays, first)
        .and(put_facts(&mut ints, &mut arrays, last))
        .and(put_until(alloc, &mut ints, between, count))?;
    Ok(ints.into_paths())
}

/// The ints that facts in three parts name, and the arrays, where all ints that they name are among these paths, and those between are differences, which name no arrays. Where
/// the first part has a range of each path, these are the ints; else as many are sought as there are paths. The only error is want of memory.
pub fn ints_and_arrays_among(
    alloc: Global,
    first: &[Fact],
    between: &[Fact],
    last: &[Fact],
    paths: &[Path],
) -> Result<(Vec<Path>, Vec<Path>), AllocError>
    requires rising { IsRising paths.now }
    requires among { (p : Path) → IsAmongPaths p (named_ints (first.now ++ (between.now ++ last.now))) → IsAmongPaths p paths.now }
    requires between { named_arrays between.now ≡ [] }
    ensures ints { IfOk result (λ named. named.0.items ≡ put_all [] (named_ints (first.now ++ (between.now ++ last.now)))) }
    ensures arrays { IfOk result (λ named. named.1.items ≡ put_all [] (named_arrays (first.now ++ (between.now ++ last.now)))) }
{
    let arrays = arrays_of_both(alloc, first, last)?;
    if have_ranges(first, paths) {
        let ints = Vec::from_slice(alloc, paths)?;
        return Ok((ints, arrays));
    }
    let ints = ints_among(alloc, first, between, last, paths.len())?;
    Ok((ints, arrays))
}

/// Paths in order, and among them the ints that the facts name. The only error is want of memory.
// Mostly there is one new int at most: with room for it no list grows.
pub fn with_ints(alloc: Global, paths: &[Path], facts: &[Fact]) -> Result<Vec<Path>, AllocError>
    requires rising { IsRising paths.now }
    ensures { IfOk result (λ more. more.items ≡ put_all paths.now (named_ints facts.now)) }
{
    let mut known = Vec::with_capacity(alloc, paths.len().saturating_add(1))?;
    known.extend_from_slice(paths)?;
    let mut ints = PathSet::of(alloc, known);
    let mut arrays = PathSet::new(alloc);
    put_facts(&mut ints, &mut arrays, facts)?;
    Ok(ints.into_paths())
}
