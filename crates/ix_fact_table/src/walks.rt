//! Walks along two lists of facts that rise by key.

ghost use Rattle.std.specs.Prelude.{◌≡◌, ◌<◌, ◌≤◌, ◌+◌, true, ◌↔◌, List, [], ◌∷◌, ◌++◌, length, IsTrue, IfOk, IfSome, IfNone, OnOk};
ghost use Rattle.std.specs.Vec.{vec_len, vec_capacity};
ghost use Rattle.ix_core.specs.declared.fact.Fact.{Fact};
ghost use Rattle.ix_facts.specs.Facts.{is_default};
ghost use Rattle.ix_fact_table.specs.Rising.{rises};
ghost use Rattle.ix_fact_table.specs.Walks.{ArePast, IsPassed, HasBoth, HasShared, IsSkipped, AllCovered, Merging, Sharing, Comparing, if_not};

use crate::entries::is_said_of_all;
use crate::meets::{common, is_as_strong, met};
use crate::order::compare_facts;
use crate::rising::is_before;
use ix_core::Fact;
use ix_fact_paths::room_for;
use std::alloc::{AllocError, Global};
use std::cmp::Ordering;

/// Room for the facts of two lists.
fn room(first: &[Fact], second: &[Fact]) -> usize
    ensures { length first.now + length second.now ≤ result }
{
    room_for(first.len() + second.len())
}

/// How many facts the shorter list has. It is for room alone.
fn lesser_length(first: &[Fact], second: &[Fact]) -> usize {
    first.len().min(second.len())
}

/// In how few steps a short run ends: a search for the end of a longer one is begun only behind them.
const SHORT: usize = 8;

/// Whether the facts are so many more than the others that their runs are long, and one that is not among the first few is before the other. It is for speed alone.
fn is_long_before(facts: &[Fact], other: &Fact, others: usize) -> bool {
    if facts.len() / SHORT < others {
        return false;
    }
    match facts.get(SHORT) {
        Some(fact) => is_before(fact, other),
        None => false,
    }
}

/// How many facts at the front have keys that are less than the other's.
fn run_before(facts: &[Fact], other: &Fact) -> usize
    requires rises { rises facts.now ≡ true }
    ensures within { result ≤ length facts.now }
    ensures before { ArePast facts.now result other.now }
{
    match facts.binary_search_by(|fact| compare_facts(fact, other)) {
        Ok(place) => place,
        Err(place) => place,
    }
}

/// Takes over the facts at the front whose keys are less than the other's, where these are not few. It answers those that are left.
fn passed<'a>(
    all: &mut Vec<Fact>,
    facts: &'a [Fact],
    other: &Fact,
    others: usize,
) -> Result<&'a [Fact], AllocError>
    requires rises { rises facts.now ≡ true }
    ensures run { IfOk result (λ rest. IsPassed facts.now other.now all.old.items all.new.items rest.now) }
    ensures len { IfOk result (λ rest. vec_len all.new + length rest.now ≡ vec_len all.old + length facts.now) }
    ensures capacity { vec_capacity all.old ≤ vec_capacity all.new }
{
    if !is_long_before(facts, other, others) {
        return Ok(facts);
    }
    let (run, rest) = facts.split_at(run_before(facts, other));
    all.extend_from_slice(run)?;
    Ok(rest)
}

pub(crate) fn is_none(facts: &[Fact]) -> bool
    ensures { IsTrue result ↔ (facts.now ≡ []) }
{
    facts.is_empty()
}

/// Takes over all facts.
fn add_all(all: &mut Vec<Fact>, facts: &[Fact]) -> Result<(), AllocError>
    ensures items { OnOk result (all.new.items ≡ all.old.items ++ facts.now) }
{
    if is_none(facts) {
        return Ok(());
    }
    all.extend_from_slice(facts)
}

/// Takes over the facts at the front whose keys are less than the other's, and then the other: where a fact stands at its key, what both say. It answers those that are
/// left.
fn add_up_to<'a>(all: &mut Vec<Fact>, facts: &'a [Fact], other: &Fact) -> &'a [Fact]
    requires room { vec_len all.old + length facts.now < vec_capacity all.old }
    ensures merging { (first second rest : List Fact) → Merging first second facts.now (other.now ∷ rest) all.old.items → Merging first second result.now rest all.new.items }
    ensures len { vec_len all.new + length result.now ≤ vec_len all.old + length facts.now + 1 }
    ensures capacity { vec_capacity all.new ≡ vec_capacity all.old }
{
    let mut rest = facts;
    while let Some((fact, more)) = rest.split_first() {
        match compare_facts(fact, other) {
            Ordering::Less => {
                all.push_reserved(*fact);
                rest = more;
            }
            Ordering::Greater => {
                all.push_reserved(*other);
                return rest;
            }
            Ordering::Equal => {
                all.push_reserved(met(fact, other));
                return more;
            }
        }
    }
    all.push_reserved(*other);
    rest
}

/// The facts of both lists, at each key one: what both say together. There is room for all from the start.
pub(crate) fn merged(
    alloc: Global,
    first: &[Fact],
    second: &[Fact],
) -> Result<Vec<Fact>, AllocError>
    requires first { rises first.now ≡ true }
    requires second { rises second.now ≡ true }
    ensures both { IfOk result (λ all. HasBoth first.now second.now all.items) }
    ensures rises { IfOk result (λ all. rises all.items ≡ true) }
{
    let mut all = Vec::with_capacity(alloc, room(first, second))?;
    let mut mine = first;
    let mut theirs = second;
    while let Some((other, more)) = theirs.split_first() {
        let rest = passed(&mut all, mine, other, theirs.len())?;
        mine = add_up_to(&mut all, rest, other);
        theirs = more;
    }
    add_all(&mut all, mine).and(Ok(all))
}

fn push_shared(shared: &mut Vec<Fact>, fact: Fact) -> Result<(), AllocError>
    ensures { OnOk result (shared.new.items ≡ shared.old.items ++ if_not (is_default fact) fact) }
{
    if is_said_of_all(&fact) {
        return Ok(());
    }
    shared.push(fact).map_err(AllocError::from)
}

/// Adds what the other and the fact at its key have in common, where there is one. It answers the facts that are left: those behind the other's key.
fn add_shared<'a>(
    shared: &mut Vec<Fact>,
    facts: &'a [Fact],
    other: &Fact,
) -> Result<&'a [Fact], AllocError>
    ensures sharing { IfOk result (λ left. (first second rest : List Fact) → Sharing first second facts.now (other.now ∷ rest) shared.old.items → Sharing first second left.now rest shared.new.items) }
{
    let mut rest = facts;
    while let Some((fact, more)) = rest.split_first() {
        match compare_facts(fact, other) {
            Ordering::Less => rest = more,
            Ordering::Greater => return Ok(rest),
            Ordering::Equal => {
                push_shared(shared, common(fact, other))?;
                return Ok(more);
            }
        }
    }
    Ok(rest)
}

/// At each key that both lists have what they say in common.
pub(crate) fn shared(
    alloc: Global,
    first: &[Fact],
    second: &[Fact],
) -> Result<Vec<Fact>, AllocError>
    requires first { rises first.now ≡ true }
    requires second { rises second.now ≡ true }
    ensures shared { IfOk result (λ shared. HasShared first.now second.now shared.items) }
    ensures rises { IfOk result (λ shared. rises shared.items ≡ true) }
{
    let mut shared = Vec::with_capacity(alloc, lesser_length(first, second))?;
    let mut mine = first;
    let mut theirs = second;
    while let Some((other, more)) = theirs.split_first() {
        mine = add_shared(&mut shared, mine, other)?;
        theirs = more;
    }
    Ok(shared)
}

/// The facts without those at the front whose keys are less than the other's, where these are not few.
fn skipped<'a>(facts: &'a [Fact], other: &Fact, others: usize) -> &'a [Fact]
    requires rises { rises facts.now ≡ true }
    ensures run { IsSkipped facts.now other.now result.now }
{
    if !is_long_before(facts, other, others) {
        return facts;
    }
    let (_, rest) = facts.split_at(run_before(facts, other));
    rest
}

/// The facts behind the one that covers the other; none where no fact covers it.
fn behind_cover<'a>(facts: &'a [Fact], other: &Fact) -> Option<&'a [Fact]>
    ensures covered { IfSome result (λ behind. (first second rest : List Fact) → Comparing first second facts.now (other.now ∷ rest) → Comparing first second behind.now rest) }
    ensures lacks { IfNone result ((first second rest : List Fact) → Comparing first second facts.now (other.now ∷ rest) → AllCovered first second → ⊥) }
{
    let mut rest = facts;
    while let Some((fact, more)) = rest.split_first() {
        match compare_facts(fact, other) {
            Ordering::Less => rest = more,
            Ordering::Greater => return None,
            Ordering::Equal => {
                if !is_as_strong(fact, other) {
                    return None;
                }
                return Some(more);
            }
        }
    }
    None
}

/// Whether each fact of the second list is covered by one of the first.
pub(crate) fn covers_all(first: &[Fact], second: &[Fact]) -> bool
    requires first { rises first.now ≡ true }
    requires second { rises second.now ≡ true }
    ensures covered { IsTrue result ↔ AllCovered first.now second.now }
{
    let mut mine = first;
    let mut theirs = second;
    while let Some((other, more)) = theirs.split_first() {
        let Some(behind) = behind_cover(skipped(mine, other, theirs.len()), other) else {
            return false;
        };
        mine = behind;
        theirs = more;
    }
    true
}
