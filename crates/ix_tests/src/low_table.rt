//! The low table and the keys of rules, worked out apart from their code.

use crate::numbers::Row::{Below, Class, ClassOf, Key};
use crate::numbers::{Row, agree};
use ix_num::Arith::{Add, And, Div, Mul, Or, Rem, Shl, Shr, Sub, Ushr, Xor};
use ix_tables::Low::{MinusOne, One, Unknown, Zero};

#[rattlefmt::skip]
const CLASSES_OF_RESULTS: &[Row] = &[
    Class(Add, One, One, One, true),
    Class(Add, MinusOne, MinusOne, Unknown, false),
    Class(Sub, One, MinusOne, Unknown, false),
    Class(Mul, One, Zero, Zero, true),
    Class(Mul, MinusOne, One, Unknown, false),
    Class(Div, Zero, MinusOne, Unknown, false),
    Class(Div, One, One, Zero, false),
    Class(Rem, One, Unknown, Zero, false),
    Class(And, MinusOne, MinusOne, MinusOne, false),
    Class(And, Unknown, Zero, Zero, false),
    Class(Or, Zero, One, One, false),
    Class(Or, One, MinusOne, MinusOne, false),
    Class(Xor, One, One, Zero, false),
    Class(Shl, One, One, Unknown, false),
    Class(Shr, MinusOne, Unknown, MinusOne, false),
    Class(Ushr, Unknown, One, Unknown, false),
];

#[rattlefmt::skip]
const CLASSES_OF_NUMBERS: &[Row] = &[
    ClassOf(-2, Unknown),
    ClassOf(-1, MinusOne),
    ClassOf(0, Zero),
    ClassOf(1, One),
    ClassOf(2147483648, One),
    Below(One, Zero, true), Below(Unknown, MinusOne, false),
];

#[rattlefmt::skip]
const KEYS_OF_RULES: &[Row] = &[
    Key(1, Some("access.low")),
    Key(17, Some("missing.return")),
    Key(18, Some("post.claim")),
    Key(0, None),
    Key(19, None),
];

#[test]
fn classes_of_results(rt: HostRuntime) {
    agree(&rt, CLASSES_OF_RESULTS);
}

#[test]
fn classes_of_numbers(rt: HostRuntime) {
    agree(&rt, CLASSES_OF_NUMBERS);
}

#[test]
fn keys_of_rules(rt: HostRuntime) {
    agree(&rt, KEYS_OF_RULES);
}
