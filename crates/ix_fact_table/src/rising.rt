//! Facts that stand already as a table keeps them.

ghost use Rattle.std.specs.Prelude.{◌≡◌, ◌≤◌, ◌&&◌, true, length, take};
ghost use Rattle.std.specs.Ordering.{is_gt, is_lt};
ghost use Rattle.ix_facts.specs.Kinds.{is_of};
ghost use Rattle.ix_fact_table.specs.Entries as spec;
ghost use Rattle.ix_fact_table.specs.FactOrder.{fact_cmp};
ghost use Rattle.ix_fact_table.specs.Rising.{is_table_of};

use crate::entries::{int_of, is_after, is_said_of_all};
use crate::order::compare_facts;
use ix_core::{Fact, PathOff};
use ix_facts::{Kind, is_of_kind};
use std::cmp::Ordering;

fn is_first(fact: &Fact) -> bool
    ensures { result ≡ spec.is_first fact.now }
{
    match fact {
        Fact::Same(a, b) => !is_after(a, b),
        Fact::Sum(_, y, z) => !is_after(y, z),
        Fact::Upper(p, _, PathOff::Plus(q), _) => !is_after(p, q),
        _ => true,
    }
}

pub(crate) fn has_ends(fact: &Fact) -> bool
    ensures { result ≡ spec.has_ends fact.now }
{
    let _number = int_of(fact);
    match *fact {
        Fact::Rng(_, low, high) => low >= -2147483648 && high <= 2147483647,
        Fact::LenRng(_, low, high) => low >= 0 && high <= 2147483647,
        Fact::Low(_, low) => low >= -1 && low <= 1,
        _ => true,
    }
}

/// Whether a table keeps the fact as it is.
fn is_entry(fact: &Fact) -> bool
    ensures { result ≡ spec.is_entry fact.now }
{
    is_first(fact) && has_ends(fact) && !is_said_of_all(fact)
}

/// Whether a table of the kind keeps the fact as it is.
fn is_kept(kind: Kind, fact: &Fact) -> bool
    ensures { result ≡ (is_of kind fact.now && spec.is_entry fact.now) }
{
    is_of_kind(kind, fact) && is_entry(fact)
}

pub(crate) fn is_before(fact: &Fact, other: &Fact) -> bool
    ensures { result ≡ is_lt (fact_cmp fact.now other.now) }
{
    match compare_facts(fact, other) {
        Ordering::Less => true,
        _ => false,
    }
}

/// How many facts at the front stand as a table of the kind keeps them: each in the form in which a table keeps it, in the order of keys. It takes no memory.
pub(crate) fn kept_front(kind: Kind, facts: &[Fact]) -> usize
    ensures within { result ≤ length facts.now }
    ensures form { is_table_of kind (take result facts.now) ≡ true }
{
    let Some((first, more)) = facts.split_first() else {
        return 0;
    };
    if !is_kept(kind, first) {
        return 0;
    }
    let mut last = first;
    let mut count = 1;
    for fact in more {
        if !is_before(last, fact) || !is_kept(kind, fact) {
            return count;
        }
        last = fact;
        count += 1;
    }
    count
}
