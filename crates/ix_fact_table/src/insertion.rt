//! Facts put one by one where their keys belong.

ghost use Rattle.std.specs.Prelude.{◌≡◌, true, List, [], ◌∷◌, ◌++◌, length, IsTrue, IfOk, OnOk};
ghost use Rattle.ix_core.specs.declared.fact.Fact.{Fact};
ghost use Rattle.ix_facts.specs.Kinds.{is_of, of_kind};
ghost use Rattle.ix_facts.specs.Systems.{HasClass, HaveClasses, IsTable};
ghost use Rattle.ix_fact_table.specs.Rising.{rises, is_table_of};
ghost use Rattle.ix_fact_table.specs.Walks.{ArePast, HasBoth};
ghost use Rattle.ix_fact_table.specs.Piles.{IsPiled, ArePiles};

use crate::entries::{entry_of, int_of, is_said_of_all};
use crate::meets::met;
use crate::order::compare_facts;
use crate::rising::is_before;
use crate::walks::{is_none, merged};
use ix_core::Fact;
use ix_facts::{Kind, is_of_kind};
use std::alloc::{AllocError, Global};

/// Puts the fact where its key belongs. Where a fact stands at that key, what both say takes its place.
fn put(facts: &mut Vec<Fact>, fact: &Fact) -> Result<(), AllocError>
    requires rises { rises facts.old.items ≡ true }
    ensures both { OnOk result (HasBoth facts.old.items (fact.now ∷ []) facts.new.items) }
    ensures rises { OnOk result (rises facts.new.items ≡ true) }
{
    match facts.binary_search_by(|other| compare_facts(other, fact)) {
        Ok(place) => facts[place] = met(&facts[place], fact),
        Err(place) => facts.insert(place, *fact)?,
    }
    Ok(())
}

/// Whether the fact's key is greater than those of all facts: that of the last one is the greatest.
fn is_behind(facts: &[Fact], fact: &Fact) -> bool
    requires rises { rises facts.now ≡ true }
    ensures behind { IsTrue result → ArePast facts.now (length facts.now) fact.now }
{
    match facts.last() {
        Some(last) => is_before(last, fact),
        None => true,
    }
}

/// Adds a fact whose key is greater than those of all facts.
fn add_behind(facts: &mut Vec<Fact>, fact: &Fact) -> Result<(), AllocError>
    requires { record {
      rises : rises facts.old.items ≡ true;
      behind : ArePast facts.old.items (length facts.old.items) fact.now;
    } }
    ensures { record {
      both : OnOk result (HasBoth facts.old.items (fact.now ∷ []) facts.new.items);
      rises : OnOk result (rises facts.new.items ≡ true);
    } }
{
    facts.push(*fact).map_err(AllocError::from)
}

/// Up to how many facts the first pile takes all, while it is the only one. It is for speed alone: to merge two short piles takes more than to search places in one.
const SHORT: usize = 3;

/// Whether the first pile is short and the only one.
fn is_short(first: &[Fact], second: &[Fact]) -> bool {
    first.len() < SHORT && second.is_empty()
}

/// Adds a fact behind the second pile, which asks once for room: for half of the facts that the first one may have.
fn add_second(second: &mut Vec<Fact>, fact: &Fact, room: usize) -> Result<(), AllocError>
    requires { record {
      rises : rises second.old.items ≡ true;
      behind : ArePast second.old.items (length second.old.items) fact.now;
    } }
    ensures { record {
      both : OnOk result (HasBoth second.old.items (fact.now ∷ []) second.new.items);
      rises : OnOk result (rises second.new.items ≡ true);
    } }
{
    if second.is_empty() {
        second.reserve(room / 2)?;
    }
    add_behind(second, fact)
}

/// Puts the fact into the shorter pile, where fewer facts stand behind it.
fn put_shorter(first: &mut Vec<Fact>, second: &mut Vec<Fact>, fact: &Fact) -> Result<(), AllocError>
    requires { record {
      first : rises first.old.items ≡ true;
      second : rises second.old.items ≡ true;
    } }
    ensures piled { OnOk result (IsPiled first.old.items second.old.items fact.now first.new.items second.new.items) }
{
    if first.len() < second.len() {
        return put(first, fact);
    }
    put(second, fact)
}

/// Adds the fact behind the first facts or behind the second ones, where its key is greater than theirs, and else puts it among the fewer. New facts come in runs that
/// rise, of which two may alternate: to add one takes less than to search its place.
#[inline(always)]
fn pile(first: &mut Vec<Fact>, second: &mut Vec<Fact>, fact: &Fact) -> Result<(), AllocError>
    requires { record {
      first : rises first.old.items ≡ true;
      second : rises second.old.items ≡ true;
    } }
    ensures piled { OnOk result (IsPiled first.old.items second.old.items fact.now first.new.items second.new.items) }
{
    if is_behind(first, fact) {
        return add_behind(first, fact);
    }
    if is_short(first, second) {
        return put(first, fact);
    }
    if is_behind(second, fact) {
        return add_second(second, fact, first.capacity());
    }
    put_shorter(first, second, fact)
}

/// Puts a fact of the kind into one of two tables that are together the table of some facts: then they are that of these and the fact.
#[inline(never)]
fn pile_form(
    first: &mut Vec<Fact>,
    second: &mut Vec<Fact>,
    kind: Kind,
    fact: &Fact,
) -> Result<(), AllocError>
    requires class { HasClass fact.now }
    requires kind { is_of kind fact.now ≡ true }
    requires first { is_table_of kind first.old.items ≡ true }
    requires second { is_table_of kind second.old.items ≡ true }
    ensures piles { OnOk result ((facts : List Fact) → ArePiles kind facts first.old.items second.old.items → ArePiles kind (facts ++ fact.now ∷ []) first.new.items second.new.items) }
{
    let _number = int_of(fact);
    if is_said_of_all(fact) {
        return Ok(());
    }
    pile(first, second, &entry_of(fact))
}

/// The same, where the fact is of the kind. Most facts are differences, which a table keeps as they are.
fn pile_entry(
    first: &mut Vec<Fact>,
    second: &mut Vec<Fact>,
    kind: Kind,
    fact: &Fact,
) -> Result<(), AllocError>
    requires class { HasClass fact.now }
    requires first { is_table_of kind first.old.items ≡ true }
    requires second { is_table_of kind second.old.items ≡ true }
    ensures piles { OnOk result ((facts : List Fact) → ArePiles kind facts first.old.items second.old.items → ArePiles kind (facts ++ fact.now ∷ []) first.new.items second.new.items) }
{
    let _number = int_of(fact);
    if !is_of_kind(kind, fact) {
        return Ok(());
    }
    match *fact {
        Fact::Less(_, _, _) => pile(first, second, fact),
        _ => pile_form(first, second, kind, fact),
    }
}

/// How many facts of one kind there is room for from the start.
const OF_A_KIND: usize = 8;

/// Room for the facts of the kind: of one kind few are new. It is for speed alone.
fn room(kind: Kind, facts: &[Fact]) -> usize {
    match kind {
        Kind::Any => facts.len(),
        _ => facts.len().min(OF_A_KIND),
    }
}

/// Two tables that are together the table of the facts of the kind.
fn piles(alloc: Global, kind: Kind, facts: &[Fact]) -> Result<(Vec<Fact>, Vec<Fact>), AllocError>
    requires classes { HaveClasses facts.now }
    ensures piles { IfOk result (λ both. ArePiles kind facts.now both.0.items both.1.items) }
{
    let mut first = Vec::with_capacity(alloc, room(kind, facts))?;
    let mut second = Vec::new(alloc);
    for fact in facts {
        pile_entry(&mut first, &mut second, kind, fact)?;
    }
    Ok((first, second))
}

/// The table of the facts of the kind. A new fact that is behind neither pile moves those behind it, so that this is for lists that are not long.
pub(crate) fn inserted(alloc: Global, kind: Kind, facts: &[Fact]) -> Result<Vec<Fact>, AllocError>
    requires classes { HaveClasses facts.now }
    ensures form { IfOk result (λ table. is_table_of kind table.items ≡ true) }
    ensures table { IfOk result (λ table. IsTable (of_kind kind facts.now) table.items) }
{
    let (first, second) = piles(alloc, kind, facts)?;
    if is_none(&second) {
        return Ok(first);
    }
    merged(alloc, first.as_slice(), second.as_slice())
}
