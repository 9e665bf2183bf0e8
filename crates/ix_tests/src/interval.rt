//! Rows of the table of intervals, worked out apart from its code. That from 1 to 0 is empty.

use crate::numbers::Row::{Empty, FlippedAll, Hull, Includes, Meet, NegatedAll, Results, Within};
use crate::numbers::{Row, agree};
use ix_num::Arith::{Add, And, Div, Mul, Or, Rem, Shl, Shr, Sub, Ushr, Xor};
use ix_num::Interval;

#[rattlefmt::skip]
const RESULTS: &[Row] = &[
    Results(Add, Interval { lo: -3, hi: 5 }, Interval { lo: 2, hi: 2147483647 }, Interval { lo: -1, hi: 2147483652 }),
    Results(Sub, Interval { lo: -3, hi: 5 }, Interval { lo: -2147483648, hi: 2 }, Interval { lo: -5, hi: 2147483653 }),
    Results(Mul, Interval { lo: -3, hi: 5 }, Interval { lo: -7, hi: 2 }, Interval { lo: -35, hi: 21 }),
    Results(Div, Interval { lo: -100, hi: 7 }, Interval { lo: -3, hi: 4 }, Interval { lo: -100, hi: 100 }),
    Results(Div, Interval { lo: -2147483648, hi: -2147483648 }, Interval { lo: -1, hi: -1 }, Interval { lo: 2147483648, hi: 2147483648 }),
    Results(Div, Interval { lo: 5, hi: 9 }, Interval { lo: 0, hi: 0 }, Interval { lo: 1, hi: 0 }),
    Results(Rem, Interval { lo: -9, hi: 4 }, Interval { lo: -3, hi: 2 }, Interval { lo: -2, hi: 2 }),
    Results(Rem, Interval { lo: -9, hi: 4 }, Interval { lo: 0, hi: 0 }, Interval { lo: 1, hi: 0 }),
    Results(Rem, Interval { lo: 5, hi: 9 }, Interval { lo: -2147483648, hi: -2147483648 }, Interval { lo: 0, hi: 9 }),
    Results(And, Interval { lo: 3, hi: 9 }, Interval { lo: -2, hi: 6 }, Interval { lo: 0, hi: 9 }),
    Results(Or, Interval { lo: 3, hi: 9 }, Interval { lo: 5, hi: 6 }, Interval { lo: 5, hi: 2147483647 }),
    Results(Xor, Interval { lo: 3, hi: 9 }, Interval { lo: -5, hi: 6 }, Interval { lo: -2147483648, hi: 2147483647 }),
    Results(Shl, Interval { lo: 0, hi: 1 }, Interval { lo: 0, hi: 1 }, Interval { lo: -2147483648, hi: 2147483647 }),
    Results(Shr, Interval { lo: -20, hi: 9 }, Interval { lo: 35, hi: 35 }, Interval { lo: -3, hi: 1 }),
    Results(Shr, Interval { lo: 4, hi: 9 }, Interval { lo: 0, hi: 1 }, Interval { lo: 0, hi: 9 }),
    Results(Ushr, Interval { lo: -4, hi: 9 }, Interval { lo: -1, hi: -1 }, Interval { lo: 0, hi: 1 }),
    Results(Ushr, Interval { lo: -4, hi: 9 }, Interval { lo: 0, hi: 1 }, Interval { lo: -2147483648, hi: 2147483647 }),
    Results(Add, Interval { lo: 1, hi: 0 }, Interval { lo: 3, hi: 4 }, Interval { lo: 1, hi: 0 }),
];

#[rattlefmt::skip]
const MEETS_AND_HULLS: &[Row] = &[
    Meet(Interval { lo: 1, hi: 5 }, Interval { lo: 3, hi: 9 }, Interval { lo: 3, hi: 5 }), Hull(Interval { lo: 1, hi: 5 }, Interval { lo: 3, hi: 9 }, Interval { lo: 1, hi: 9 }),
    Meet(Interval { lo: 1, hi: 2 }, Interval { lo: 3, hi: 9 }, Interval { lo: 1, hi: 0 }), Hull(Interval { lo: 1, hi: 2 }, Interval { lo: 3, hi: 9 }, Interval { lo: 1, hi: 9 }),
    Meet(Interval { lo: 5, hi: 1 }, Interval { lo: 3, hi: 9 }, Interval { lo: 1, hi: 0 }), Hull(Interval { lo: 5, hi: 1 }, Interval { lo: 3, hi: 9 }, Interval { lo: 3, hi: 9 }),
];

#[rattlefmt::skip]
const NEGATED_FLIPPED_AND_ASKED: &[Row] = &[
    NegatedAll(Interval { lo: -3, hi: 7 }, Interval { lo: -7, hi: 3 }), FlippedAll(Interval { lo: -3, hi: 7 }, Interval { lo: -8, hi: 2 }),
    Empty(Interval { lo: 5, hi: 1 }, true), Empty(Interval { lo: 1, hi: 5 }, false),
    Includes(Interval { lo: 1, hi: 5 }, 5, true), Includes(Interval { lo: 1, hi: 5 }, 6, false),
    Within(Interval { lo: 2, hi: 5 }, Interval { lo: 1, hi: 5 }, true), Within(Interval { lo: 3, hi: 9 }, Interval { lo: 1, hi: 5 }, false),
];

#[test]
fn results(rt: HostRuntime) {
    agree(&rt, RESULTS);
}

#[test]
fn meets_and_hulls(rt: HostRuntime) {
    agree(&rt, MEETS_AND_HULLS);
}

#[test]
fn negated_flipped_and_asked(rt: HostRuntime) {
    agree(&rt, NEGATED_FLIPPED_AND_ASKED);
}
