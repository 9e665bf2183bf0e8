//! The form in which a table keeps a fact.

ghost use Rattle.std.specs.Prelude.{◌≡◌, IfSome};
ghost use Rattle.std.specs.Ordering.{is_gt};
ghost use Rattle.ix_facts.specs.PathOrder.{path_cmp};
ghost use Rattle.ix_facts.specs.Facts.{is_default};
ghost use Rattle.ix_facts.specs.Small.{IsEnd};
ghost use Rattle.ix_fact_table.specs.Entries as spec;
ghost use Rattle.ix_fact_table.specs.Entries.{HasInt};

use ix_core::{Fact, Path, PathOff};
use ix_fact_paths::compare_paths;
use std::cmp::Ordering;

/// Whether the first path comes after the second in the order of paths.
pub(crate) fn is_after(p: &Path, q: &Path) -> bool
    ensures { result ≡ is_gt (path_cmp p.now q.now) }
{
    match compare_paths(p, q) {
        Ordering::Greater => true,
        _ => false,
    }
}

/// Of the orders of a fact the one in which its paths are in order.
pub(crate) fn in_first_order(fact: &Fact) -> Fact
    ensures { result ≡ spec.in_first_order fact.now }
{
    match *fact {
        Fact::Same(a, b) if is_after(&a, &b) => Fact::Same(b, a),
        Fact::Sum(t, y, z) if is_after(&y, &z) => Fact::Sum(t, z, y),
        Fact::Upper(p, a, PathOff::Plus(q), c) if is_after(&p, &q) => {
            Fact::Upper(q, a, PathOff::Plus(p), c)
        }
        _ => *fact,
    }
}

/// A range met with the one that is said of every path.
fn within(fact: &Fact) -> Fact
    ensures { result ≡ spec.within fact.now }
{
    match *fact {
        Fact::Rng(p, low, high) => Fact::Rng(p, low.max(-2147483648), high.min(2147483647)),
        Fact::LenRng(a, low, high) => Fact::LenRng(a, low.max(0), high.min(2147483647)),
        _ => *fact,
    }
}

/// The fact as a table keeps it. Most facts are differences, which are kept as they are, and ranges, which have one order.
pub(crate) fn entry_of(fact: &Fact) -> Fact
    ensures { result ≡ spec.entry_of fact.now }
{
    match *fact {
        Fact::Less(_, _, _) => *fact,
        Fact::Rng(_, _, _) => within(fact),
        _ => within(&in_first_order(fact)),
    }
}

/// Whether the fact is a range that is said of every path.
pub(crate) fn is_said_of_all(fact: &Fact) -> bool
    ensures { result ≡ is_default fact.now }
{
    match *fact {
        Fact::Rng(_, low, high) => low <= -2147483648 && high >= 2147483647,
        Fact::LenRng(_, low, high) => low <= 0 && high >= 2147483647,
        _ => false,
    }
}

/// The number of a difference or a bound is an int: so its type has it.
pub(crate) fn int_of(fact: &Fact) -> i32
    ensures int { HasInt fact.now }
{
    match *fact {
        Fact::Less(_, _, c) => c,
        Fact::Upper(_, _, _, c) => c,
        _ => 0,
    }
}

/// The c of a difference `p < q + c`.
pub(crate) fn less_constant(fact: &Fact) -> Option<i64>
    ensures constant { result ≡ spec.less_constant fact.now }
    ensures small { IfSome result IsEnd }
{
    match *fact {
        Fact::Less(_, _, c) => Some(c as i64),
        _ => None,
    }
}
