//! Facts as they may stand in a store: each proper, and no two at one key.

ghost use Rattle.std.specs.Prelude.{◌≡◌, ◌↔◌, IsTrue, IfOk, OnOk, map};
ghost use Rattle.std.specs.List.{list_all};
ghost use Rattle.std.specs.List.Sorted.{IsPermutation, IsSorted};
ghost use Rattle.ix_fact_table.specs.Apart as spec;
ghost use Rattle.ix_fact_table.specs.Apart.{AreApart};
ghost use Rattle.ix_fact_table.specs.Entries as entries;
ghost use Rattle.ix_fact_table.specs.FactOrder.{fact_cmp};

use crate::entries::{in_first_order, is_said_of_all};
use crate::order::compare_facts;
use crate::rising::{has_ends, is_before};
use ix_core::Fact;
use ix_fact_paths::compare_paths;
use std::alloc::{AllocError, Global};
use std::cmp::Ordering;

/// The facts, each in its first order.
fn first_orders(alloc: Global, facts: &[Fact]) -> Result<Vec<Fact>, AllocError>
    ensures { IfOk result (λ keys. keys.items ≡ map entries.in_first_order facts.now) }
{
    let mut keys = Vec::with_capacity(alloc, facts.len())?;
    for fact in facts {
        keys.push_reserved(in_first_order(fact));
    }
    Ok(keys)
}

/// Sorts facts by their keys.
fn sort_by_key(keys: &mut Vec<Fact>) -> Result<(), AllocError>
    ensures permutation { OnOk result (IsPermutation keys.old.items keys.new.items) }
    ensures sorted { OnOk result (IsSorted fact_cmp keys.new.items) }
{
    keys.sort_by(|one, other| compare_facts(one, other))
}

/// Whether each key is less than the next one.
fn all_rise(keys: &[Fact]) -> bool
    ensures { result ≡ spec.all_rise keys.now }
{
    let Some((first, more)) = keys.split_first() else {
        return true;
    };
    let mut last = first;
    for key in more {
        if !is_before(last, key) {
            return false;
        }
        last = key;
    }
    true
}

/// Whether no two of the facts are at one key, in whichever of its orders each stands. The only error is want of memory.
pub fn are_apart(alloc: Global, facts: &[Fact]) -> Result<bool, AllocError>
    ensures apart { IfOk result (λ apart. IsTrue apart ↔ AreApart facts.now) }
{
    let mut keys = first_orders(alloc, facts)?;
    sort_by_key(&mut keys)?;
    Ok(all_rise(&keys))
}

/// Whether a difference is one of two ints.
fn compares_two(fact: &Fact) -> bool
    ensures { result ≡ spec.compares_two fact.now }
{
    match fact {
        Fact::Less(p, q, _) => match compare_paths(p, q) {
            Ordering::Equal => false,
            _ => true,
        },
        _ => true,
    }
}

/// Whether the fact may stand in a store as it is.
fn is_proper(fact: &Fact) -> bool
    ensures { result ≡ spec.is_proper fact.now }
{
    has_ends(fact) && (!is_said_of_all(fact) && compares_two(fact))
}

/// Whether each fact tells something, has numbers that may stand in a table, and compares no int with itself. It takes no memory.
pub fn are_proper(facts: &[Fact]) -> bool
    ensures proper { result ≡ list_all spec.is_proper facts.now }
{
    for fact in facts {
        if !is_proper(fact) {
            return false;
        }
    }
    true
}
