//! Whether facts are the same, and whether facts say others.

use ix_core::{Fact, Path, PathOff};
use ix_facts::{is_same_offset, is_same_path};

/// What a fact says in parts: a number for its variant, what it names, and the range of its number: the stronger fact has the narrower one.
#[derive(Clone, Copy)]
pub struct Parts {
    pub variant: u32,
    pub first: Path,
    pub second: Path,
    pub offset: PathOff,
    pub low: i64,
    pub high: i64,
}

fn naming(variant: u32, first: Path, second: Path, offset: PathOff) -> Parts {
    Parts {
        variant,
        first,
        second,
        offset,
        low: 0,
        high: 0,
    }
}

fn ranged(names: Parts, low: i64, high: i64) -> Parts {
    Parts { low, high, ..names }
}

pub fn parts_of(fact: &Fact) -> Parts {
    let none = PathOff::Nothing;
    match *fact {
        Fact::Rng(p, l, h) => ranged(naming(0, p, p, none), l, h),
        Fact::LenRng(a, l, h) => ranged(naming(1, a, a, none), l, h),
        Fact::Low(p, c) => ranged(naming(2, p, p, none), i64::from(c), 0),
        Fact::Same(a, b) => naming(3, a, b, none),
        Fact::IsLen(p, a) => naming(4, p, a, none),
        Fact::Less(p, q, c) => ranged(naming(5, p, q, none), 0, i64::from(c)),
        Fact::Sum(t, y, z) => naming(6, y, z, PathOff::Plus(t)),
        Fact::Search(p, a) => naming(7, p, a, none),
        Fact::Neg(p, a) => naming(8, p, a, none),
        Fact::Upper(p, a, o, c) => ranged(naming(9, p, a, o), i64::from(c), 0),
    }
}

/// The fact with the two paths that it names alike in the order of paths.
fn ordered(fact: &Fact) -> Fact {
    match *fact {
        Fact::Same(a, b) if b < a => Fact::Same(b, a),
        Fact::Sum(t, y, z) if z < y => Fact::Sum(t, z, y),
        Fact::Upper(p, a, PathOff::Plus(q), c) if q < p => Fact::Upper(q, a, PathOff::Plus(p), c),
        other => other,
    }
}

fn is_of(part: &Parts, other: &Parts) -> bool {
    part.variant == other.variant
        && is_same_path(&part.first, &other.first)
        && is_same_path(&part.second, &other.second)
        && is_same_offset(&part.offset, &other.offset)
}

/// Whether the facts are the same as they stand.
pub fn is_fact(fact: &Fact, other: &Fact) -> bool {
    let part = parts_of(fact);
    let others = parts_of(other);
    is_of(&part, &others) && part.low == others.low && part.high == others.high
}

/// Whether the fact is one of the facts, in one of its orders.
pub fn is_among(fact: &Fact, facts: &[Fact]) -> bool {
    let wanted = ordered(fact);
    for other in facts {
        if is_fact(&wanted, &ordered(other)) {
            return true;
        }
    }
    false
}

/// The range of a number that every fact of this variant has: ints, or lengths.
fn known_range(variant: u32) -> Option<(i64, i64)> {
    match variant {
        0 => Some((-2147483648, 2147483647)),
        1 => Some((0, 2147483647)),
        _ => None,
    }
}

fn met(range: Option<(i64, i64)>, part: &Parts) -> Option<(i64, i64)> {
    match range {
        None => Some((part.low, part.high)),
        Some((low, high)) => Some((low.max(part.low), high.min(part.high))),
    }
}

/// Whether the facts say the fact: those that name the same are met.
fn says(facts: &[Fact], fact: &Fact) -> bool {
    let wanted = parts_of(&ordered(fact));
    let mut range = known_range(wanted.variant);
    for other in facts {
        let part = parts_of(&ordered(other));
        if is_of(&part, &wanted) {
            range = met(range, &part);
        }
    }
    match range {
        None => false,
        Some((low, high)) => wanted.low <= low && high <= wanted.high,
    }
}

/// Whether the first facts say all of the second.
pub fn says_all(facts: &[Fact], others: &[Fact]) -> bool {
    for fact in others {
        if !says(facts, fact) {
            return false;
        }
    }
    true
}
