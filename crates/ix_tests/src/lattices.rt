//! The calls of lattices with ample memory.

use ix_lattice::{FactMap, Flat, Lattice, Pair};
use std::alloc::{AllocError, Global};
use std::process::Abort;

fn joined<L: Lattice>(alloc: Global, left: &L, right: &L) -> Result<L, AllocError> {
    left.join(alloc, right)
}

fn is_below<L: Lattice>(low: &L, high: &L) -> bool {
    low.leq(high)
}

/// A value as a number: 0 for no key, 1 for nothing yet, 2 for any, and 10 more than the value for a known one.
fn number(value: Option<Flat<u32>>) -> u64 {
    match value {
        None => 0,
        Some(Flat::Nothing) => 1,
        Some(Flat::Any) => 2,
        Some(Flat::Just(n)) => n as u64 + 10,
    }
}

/// Keys and the facts that are set of them, in no order; on the left in place of others.
const ON_LEFT: &[(u32, Flat<u32>)] = &[
    (30, Flat::Any),
    (30, Flat::Nothing),
    (10, Flat::Any),
    (10, Flat::Just(1)),
    (20, Flat::Any),
    (20, Flat::Just(2)),
    (40, Flat::Any),
    (40, Flat::Just(4)),
];

const ON_RIGHT: &[(u32, Flat<u32>)] = &[
    (30, Flat::Just(3)),
    (50, Flat::Nothing),
    (20, Flat::Just(2)),
    (40, Flat::Just(5)),
];

/// A key, the number of its fact on the left, and of its fact in the join: a key of one side alone goes, and a common key stands at the join of its two values.
const ROWS: &[(u32, u64, u64)] = &[
    (30, 1, 13),
    (10, 11, 0),
    (50, 0, 0),
    (20, 12, 12),
    (40, 14, 2),
];

type Known = Pair<Flat<u32>, FactMap<u32, Flat<u32>>>;

fn known<R: Abort>(rt: &R, alloc: Global, first: Flat<u32>, facts: &[(u32, Flat<u32>)]) -> Known {
    let mut second = FactMap::new(alloc);
    for fact in facts {
        second.set(fact.0, fact.1).expect(rt, "memory");
    }
    Pair { first, second }
}

fn has_row(left: &Known, join: &Known, row: &(u32, u64, u64)) -> bool {
    number(left.second.get(&row.0).copied()) == row.1
        && number(join.second.get(&row.0).copied()) == row.2
}

fn stands_above(join: &Known, left: &Known, right: &Known) -> bool {
    number(Some(join.first)) == 17
        && join.second.len() == 3
        && is_below(left, join)
        && is_below(right, join)
        && !is_below(join, left)
        && !is_below(left, right)
}

#[test]
fn joins_a_pair_of_a_value_and_a_map(rt: HostRuntime) {
    let left = known(&rt, rt.alloc(), Flat::Just(7), ON_LEFT);
    let right = known(&rt, rt.alloc(), Flat::Nothing, ON_RIGHT);
    let join = joined(rt.alloc(), &left, &right).expect(&rt, "memory");
    for row in ROWS {
        assert!(rt; has_row(&left, &join, row), "key {}", row.0);
    }
    assert!(rt; stands_above(&join, &left, &right));
}
