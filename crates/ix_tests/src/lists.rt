//! The calls over lists of facts with ample memory.

use crate::after::list;
use ix_core::{Fact, Path, PathOff, path_number, path_of};
use ix_fact_paths::{compare_offsets, compare_paths};
use ix_facts::Know;
use std::cmp::Ordering;

const INDEX: Path = Path::Slot(1);

const LIMIT: Path = Path::Slot(2);

const ARRAY: Path = Path::FieldOf(0, 3);

/// `0 <= index <= 17`, `index < limit`, `limit = array.length`, and a range that says nothing of another int.
const KNOWN: &[Fact] = &[
    Fact::Rng(INDEX, 0, 17),
    Fact::Less(INDEX, LIMIT, 0),
    Fact::IsLen(LIMIT, ARRAY),
    Fact::Rng(Path::Slot(9), -2147483648, 2147483647),
];

fn bounds<K: Know>(know: &K) -> bool {
    let none = PathOff::Nothing;
    know.lo(&INDEX) == 0
        && know.hi(&INDEX) == 17
        && know.lo(&LIMIT) == 1
        && know.upper(&INDEX, &ARRAY, &none) == Some(0)
        && know.less(&INDEX, &LIMIT) == Some(0)
        && know.difference(&LIMIT, &INDEX).is_none()
        && know.is_len(&LIMIT, &ARRAY)
        && know.facts() == 4
        && know.ints() == 2
        && know.arrays() == 1
}

#[test]
fn a_list_of_facts_answers_its_bounds(rt: HostRuntime) {
    assert!(rt; bounds(&list(&rt, rt.alloc(), KNOWN)));
}

#[test]
fn slots_come_before_fields(rt: HostRuntime) {
    let plus = PathOff::Plus(INDEX);
    assert!(rt;
        compare_paths(&LIMIT, &ARRAY) == Ordering::Less
            && compare_paths(&LIMIT, &INDEX) == Ordering::Greater
            && compare_offsets(&PathOff::Minus(INDEX), &plus) == Ordering::Greater
    );
}

/// Numbers, and the path of each.
const NUMBERED: &[(u64, Option<Path>)] = &[
    (511, Some(Path::Slot(511))),
    (512, None),
    (4294967295, None),
    (4294967296, Some(Path::FieldOf(0, 0))),
    (2203318222847, Some(Path::FieldOf(511, 4294967295))),
    (2203318222848, None),
];

#[test]
fn paths_come_back_from_their_numbers(rt: HostRuntime) {
    assert!(rt; path_number(&INDEX) == 1 && path_number(&Path::FieldOf(2, 7)) == 12884901895);
    for &(number, path) in NUMBERED {
        assert!(rt; path_of(number) == path, "{number}");
    }
}
