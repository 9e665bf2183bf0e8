//! What a Java virtual machine (OpenJDK 17) computes.

use crate::numbers::Row::{Flipped, Java, Negated, Related, Wrapped};
use crate::numbers::{Row, agree};
use ix_num::Arith::{Add, And, Div, Mul, Or, Rem, Shl, Shr, Sub, Ushr, Xor};
use ix_num::Rel::{Eq, Ge, Gt, Le, Lt, Ne};

#[rattlefmt::skip]
const SUMS_PRODUCTS_AND_BITS: &[Row] = &[
    Java(Add, 2147483647, 1, Some(-2147483648)), Java(Sub, 2147483647, 1, Some(2147483646)), Java(Mul, 2147483647, 1, Some(2147483647)), Java(And, 2147483647, 1, Some(1)), Java(Or, 2147483647, 1, Some(2147483647)), Java(Xor, 2147483647, 1, Some(2147483646)),
    Java(Add, -2147483648, -1, Some(2147483647)), Java(Sub, -2147483648, -1, Some(-2147483647)), Java(Mul, -2147483648, -1, Some(-2147483648)), Java(And, -2147483648, -1, Some(-2147483648)), Java(Or, -2147483648, -1, Some(-1)), Java(Xor, -2147483648, -1, Some(2147483647)),
    Java(Add, -2147483648, 1, Some(-2147483647)), Java(Sub, -2147483648, 1, Some(2147483647)), Java(Mul, -2147483648, 1, Some(-2147483648)), Java(And, -2147483648, 1, Some(0)), Java(Or, -2147483648, 1, Some(-2147483647)), Java(Xor, -2147483648, 1, Some(-2147483647)),
    Java(Add, 2147483647, 2147483647, Some(-2)), Java(Sub, 2147483647, 2147483647, Some(0)), Java(Mul, 2147483647, 2147483647, Some(1)), Java(And, 2147483647, 2147483647, Some(2147483647)), Java(Or, 2147483647, 2147483647, Some(2147483647)), Java(Xor, 2147483647, 2147483647, Some(0)),
    Java(Add, -2147483648, -2147483648, Some(0)), Java(Sub, -2147483648, -2147483648, Some(0)), Java(Mul, -2147483648, -2147483648, Some(0)), Java(And, -2147483648, -2147483648, Some(-2147483648)), Java(Or, -2147483648, -2147483648, Some(-2147483648)), Java(Xor, -2147483648, -2147483648, Some(0)),
    Java(Add, 2147483647, -1, Some(2147483646)), Java(Sub, 2147483647, -1, Some(-2147483648)), Java(Mul, 2147483647, -1, Some(-2147483647)), Java(And, 2147483647, -1, Some(2147483647)), Java(Or, 2147483647, -1, Some(-1)), Java(Xor, 2147483647, -1, Some(-2147483648)),
    Java(Add, 0, -2147483648, Some(-2147483648)), Java(Sub, 0, -2147483648, Some(-2147483648)), Java(Mul, 0, -2147483648, Some(0)), Java(And, 0, -2147483648, Some(0)), Java(Or, 0, -2147483648, Some(-2147483648)), Java(Xor, 0, -2147483648, Some(-2147483648)),
    Java(Add, -1, 0, Some(-1)), Java(Sub, -1, 0, Some(-1)), Java(Mul, -1, 0, Some(0)), Java(And, -1, 0, Some(0)), Java(Or, -1, 0, Some(-1)), Java(Xor, -1, 0, Some(-1)),
    Java(Add, 0, 0, Some(0)), Java(Sub, 0, 0, Some(0)), Java(Mul, 0, 0, Some(0)), Java(And, 0, 0, Some(0)), Java(Or, 0, 0, Some(0)), Java(Xor, 0, 0, Some(0)),
    Java(Add, 46341, 46341, Some(92682)), Java(Sub, 46341, 46341, Some(0)), Java(Mul, 46341, 46341, Some(-2147479015)), Java(And, 46341, 46341, Some(46341)), Java(Or, 46341, 46341, Some(46341)), Java(Xor, 46341, 46341, Some(0)),
    Java(Add, 65536, 65536, Some(131072)), Java(Sub, 65536, 65536, Some(0)), Java(Mul, 65536, 65536, Some(0)), Java(And, 65536, 65536, Some(65536)), Java(Or, 65536, 65536, Some(65536)), Java(Xor, 65536, 65536, Some(0)),
    Java(Add, -65537, 65535, Some(-2)), Java(Sub, -65537, 65535, Some(-131072)), Java(Mul, -65537, 65535, Some(1)), Java(And, -65537, 65535, Some(65535)), Java(Or, -65537, 65535, Some(-65537)), Java(Xor, -65537, 65535, Some(-131072)),
    Java(Add, 7, 2, Some(9)), Java(Sub, 7, 2, Some(5)), Java(Mul, 7, 2, Some(14)), Java(And, 7, 2, Some(2)), Java(Or, 7, 2, Some(7)), Java(Xor, 7, 2, Some(5)),
    Java(Add, -7, 2, Some(-5)), Java(Sub, -7, 2, Some(-9)), Java(Mul, -7, 2, Some(-14)), Java(And, -7, 2, Some(0)), Java(Or, -7, 2, Some(-5)), Java(Xor, -7, 2, Some(-5)),
    Java(Add, 7, -2, Some(5)), Java(Sub, 7, -2, Some(9)), Java(Mul, 7, -2, Some(-14)), Java(And, 7, -2, Some(6)), Java(Or, 7, -2, Some(-1)), Java(Xor, 7, -2, Some(-7)),
    Java(Add, -7, -2, Some(-9)), Java(Sub, -7, -2, Some(-5)), Java(Mul, -7, -2, Some(14)), Java(And, -7, -2, Some(-8)), Java(Or, -7, -2, Some(-1)), Java(Xor, -7, -2, Some(7)),
    Java(Add, 12, 10, Some(22)), Java(Sub, 12, 10, Some(2)), Java(Mul, 12, 10, Some(120)), Java(And, 12, 10, Some(8)), Java(Or, 12, 10, Some(14)), Java(Xor, 12, 10, Some(6)),
    Java(Add, -2147483648, 2147483647, Some(-1)), Java(Sub, -2147483648, 2147483647, Some(1)), Java(Mul, -2147483648, 2147483647, Some(-2147483648)), Java(And, -2147483648, 2147483647, Some(0)), Java(Or, -2147483648, 2147483647, Some(-1)), Java(Xor, -2147483648, 2147483647, Some(-1)),
];

#[rattlefmt::skip]
const QUOTIENTS_AND_REMAINDERS: &[Row] = &[
    Java(Div, 2147483647, 1, Some(2147483647)), Java(Rem, 2147483647, 1, Some(0)),
    Java(Div, -2147483648, -1, Some(-2147483648)), Java(Rem, -2147483648, -1, Some(0)),
    Java(Div, -2147483648, 1, Some(-2147483648)), Java(Rem, -2147483648, 1, Some(0)),
    Java(Div, 2147483647, 2147483647, Some(1)), Java(Rem, 2147483647, 2147483647, Some(0)),
    Java(Div, -2147483648, -2147483648, Some(1)), Java(Rem, -2147483648, -2147483648, Some(0)),
    Java(Div, 2147483647, -1, Some(-2147483647)), Java(Rem, 2147483647, -1, Some(0)),
    Java(Div, 0, -2147483648, Some(0)), Java(Rem, 0, -2147483648, Some(0)),
    Java(Div, -1, 0, None), Java(Rem, -1, 0, None),
    Java(Div, 0, 0, None), Java(Rem, 0, 0, None),
    Java(Div, 46341, 46341, Some(1)), Java(Rem, 46341, 46341, Some(0)),
    Java(Div, 65536, 65536, Some(1)), Java(Rem, 65536, 65536, Some(0)),
    Java(Div, -65537, 65535, Some(-1)), Java(Rem, -65537, 65535, Some(-2)),
    Java(Div, 7, 2, Some(3)), Java(Rem, 7, 2, Some(1)),
    Java(Div, -7, 2, Some(-3)), Java(Rem, -7, 2, Some(-1)),
    Java(Div, 7, -2, Some(-3)), Java(Rem, 7, -2, Some(1)),
    Java(Div, -7, -2, Some(3)), Java(Rem, -7, -2, Some(-1)),
    Java(Div, 12, 10, Some(1)), Java(Rem, 12, 10, Some(2)),
    Java(Div, -2147483648, 2147483647, Some(-1)), Java(Rem, -2147483648, 2147483647, Some(-1)),
];

#[rattlefmt::skip]
const SHIFTS: &[Row] = &[
    Java(Shl, 1, 31, Some(-2147483648)), Java(Shr, 1, 31, Some(0)), Java(Ushr, 1, 31, Some(0)),
    Java(Shl, 1, 32, Some(1)), Java(Shr, 1, 32, Some(1)), Java(Ushr, 1, 32, Some(1)),
    Java(Shl, 1, 33, Some(2)), Java(Shr, 1, 33, Some(0)), Java(Ushr, 1, 33, Some(0)),
    Java(Shl, 1, -1, Some(-2147483648)), Java(Shr, 1, -1, Some(0)), Java(Ushr, 1, -1, Some(0)),
    Java(Shl, -1, 31, Some(-2147483648)), Java(Shr, -1, 31, Some(-1)), Java(Ushr, -1, 31, Some(1)),
    Java(Shl, -1, 32, Some(-1)), Java(Shr, -1, 32, Some(-1)), Java(Ushr, -1, 32, Some(-1)),
    Java(Shl, -1, 33, Some(-2)), Java(Shr, -1, 33, Some(-1)), Java(Ushr, -1, 33, Some(2147483647)),
    Java(Shl, -1, -1, Some(-2147483648)), Java(Shr, -1, -1, Some(-1)), Java(Ushr, -1, -1, Some(1)),
    Java(Shl, -2147483648, 1, Some(0)), Java(Shr, -2147483648, 1, Some(-1073741824)), Java(Ushr, -2147483648, 1, Some(1073741824)),
    Java(Shl, -2147483648, 31, Some(0)), Java(Shr, -2147483648, 31, Some(-1)), Java(Ushr, -2147483648, 31, Some(1)),
    Java(Shl, 2147483647, 4, Some(-16)), Java(Shr, 2147483647, 4, Some(134217727)), Java(Ushr, 2147483647, 4, Some(134217727)),
    Java(Shl, -20, 3, Some(-160)), Java(Shr, -20, 3, Some(-3)), Java(Ushr, -20, 3, Some(536870909)),
    Java(Shl, -20, 36, Some(-320)), Java(Shr, -20, 36, Some(-2)), Java(Ushr, -20, 36, Some(268435454)),
    Java(Shl, 1073741824, 2, Some(0)), Java(Shr, 1073741824, 2, Some(268435456)), Java(Ushr, 1073741824, 2, Some(268435456)),
];

#[rattlefmt::skip]
const OF_ONE_NUMBER: &[Row] = &[
    Negated(-2147483648, -2147483648), Flipped(-2147483648, 2147483647),
    Negated(-1, 1), Flipped(-1, 0),
    Negated(0, 0), Flipped(0, -1),
    Negated(2147483647, -2147483647), Flipped(2147483647, -2147483648),
    Wrapped(4294967296, 0),
    Wrapped(2147483648, -2147483648),
    Wrapped(-2147483649, 2147483647),
    Wrapped(9223372036854775807, -1),
    Wrapped(-4294967297, -1),
];

#[rattlefmt::skip]
const RELATIONS: &[Row] = &[
    Related(Lt, 1, 2, true), Related(Lt, 2, 2, false), Related(Lt, 2, 1, false),
    Related(Le, 1, 2, true), Related(Le, 2, 2, true), Related(Le, 2, 1, false),
    Related(Gt, 1, 2, false), Related(Gt, 2, 2, false), Related(Gt, 2, 1, true),
    Related(Ge, 1, 2, false), Related(Ge, 2, 2, true), Related(Ge, 2, 1, true),
    Related(Eq, 1, 2, false), Related(Eq, 2, 2, true), Related(Eq, 2, 1, false),
    Related(Ne, 1, 2, true), Related(Ne, 2, 2, false), Related(Ne, 2, 1, true),
];

#[test]
fn sums_products_and_bits(rt: HostRuntime) {
    agree(&rt, SUMS_PRODUCTS_AND_BITS);
}

#[test]
fn quotients_and_remainders(rt: HostRuntime) {
    agree(&rt, QUOTIENTS_AND_REMAINDERS);
}

#[test]
fn shifts(rt: HostRuntime) {
    agree(&rt, SHIFTS);
}

#[test]
fn negated_flipped_and_wrapped(rt: HostRuntime) {
    agree(&rt, OF_ONE_NUMBER);
}

#[test]
fn relations(rt: HostRuntime) {
    agree(&rt, RELATIONS);
}
