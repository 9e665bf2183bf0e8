//! Joins of tables, and their order.

use crate::tables::Step::{Below, Facts, Has, Join, Known, New, Other};
use crate::tables::{Step, agree};
use ix_core::Fact::{IsLen, LenRng, Less, Low, Neg, Rng, Same, Search, Sum, Upper};
use ix_core::PathOff;
use ix_fact_rows::paths::{S0, S1, S5, S6, S9F0};

/// Two lists of facts, and the joins of their six tables.
#[rattlefmt::skip]
const JOINED_ROWS: &[Step] = &[
    New, Known(Less(S9F0, S1, 1073741824)), Known(Upper(S0, S5, PathOff::Minus(S9F0), -1)), Other(Less(S9F0, S1, 1073741823)), Other(Upper(S0, S5, PathOff::Minus(S9F0), 1)), Join, Facts(2), Has(Less(S9F0, S1, 1073741824)), Has(Upper(S0, S5, PathOff::Minus(S9F0), -1)),
    New, Known(Less(S9F0, S0, -2)), Known(Low(S1, -1)), Known(Rng(S9F0, -3, 1)), Other(Low(S1, -1)), Other(Rng(S9F0, -4, 3)), Join, Facts(2), Has(Rng(S9F0, -4, 3)), Has(Low(S1, -1)),
    New, Known(Low(S0, 1)), Known(Upper(S9F0, S5, PathOff::Minus(S9F0), -2147483647)), Other(Low(S0, -1)), Other(Upper(S9F0, S5, PathOff::Minus(S9F0), -2147483648)), Other(Same(S5, S6)), Join, Facts(2), Has(Low(S0, -1)), Has(Upper(S9F0, S5, PathOff::Minus(S9F0), -2147483648)),
    New, Known(Less(S9F0, S0, 1073741824)), Known(Same(S6, S5)), Known(Search(S0, S5)), Known(Less(S9F0, S0, -2147483648)), Other(Same(S6, S5)), Other(Less(S9F0, S0, -2147483648)), Other(LenRng(S5, 2147483646, 2147483646)), Join, Facts(2), Has(Same(S5, S6)), Has(Less(S9F0, S0, -2147483648)),
    New, Known(LenRng(S6, 0, 3)), Known(LenRng(S5, 2, 2)), Known(LenRng(S6, 0, 2147483647)), Other(LenRng(S6, 0, 3)), Other(LenRng(S5, 2, 2)), Other(Search(S0, S6)), Join, Facts(2), Has(LenRng(S5, 2, 2)), Has(LenRng(S6, 0, 3)),
    New, Known(IsLen(S9F0, S6)), Join, Facts(0),
    New, Known(Neg(S1, S6)), Known(Upper(S0, S5, PathOff::Nothing, 1)), Known(Rng(S1, 1, 2147483647)), Known(LenRng(S6, 0, 2147483647)), Known(Upper(S0, S6, PathOff::Nothing, 2)), Known(LenRng(S6, 2147483646, 2147483647)), Other(Neg(S1, S6)), Other(Upper(S0, S5, PathOff::Nothing, -1)), Other(Rng(S1, -1, 2147483647)), Other(Upper(S0, S6, PathOff::Nothing, 3)), Other(Upper(S0, S5, PathOff::Nothing, -2)), Join, Facts(4), Has(Rng(S1, -1, 2147483647)), Has(Neg(S1, S6)), Has(Upper(S0, S5, PathOff::Nothing, -1)), Has(Upper(S0, S6, PathOff::Nothing, 2)),
    New, Known(Upper(S9F0, S6, PathOff::Minus(S0), 3)), Other(Low(S1, 0)), Join, Facts(0),
    New, Known(Rng(S9F0, -1, 2147483647)), Known(Less(S9F0, S0, 2147483647)), Known(Upper(S0, S6, PathOff::Plus(S9F0), -2147483647)), Other(Less(S9F0, S0, 2147483647)), Join, Facts(1), Has(Less(S9F0, S0, 2147483647)),
    New, Known(Less(S1, S0, -1)), Known(Rng(S1, -2147483648, 2147483647)), Known(Less(S1, S0, 1073741824)), Known(LenRng(S6, 0, 2147483647)), Other(Less(S1, S0, 1073741822)), Other(LenRng(S6, 0, 2147483647)), Other(Sum(S0, S1, S9F0)), Join, Facts(1), Has(Less(S1, S0, 1073741822)),
    New, Known(Neg(S9F0, S6)), Known(Less(S0, S9F0, -2)), Known(Rng(S0, -2147483648, -6)), Other(Less(S0, S9F0, -4)), Other(Search(S0, S6)), Join, Facts(1), Has(Less(S0, S9F0, -2)),
    New, Known(Rng(S1, -2147483648, 2147483647)), Other(Rng(S1, -2147483648, 2147483647)), Other(Sum(S9F0, S9F0, S0)), Join, Facts(0),
    New, Known(Less(S1, S0, -1)), Known(Rng(S1, -2147483648, 2147483647)), Known(Less(S1, S0, 1073741824)), Known(LenRng(S6, 0, 2147483647)), Other(Less(S1, S0, 1073741822)), Other(LenRng(S6, 0, 2147483647)), Other(Sum(S0, S1, S9F0)), Join, Facts(1), Has(Less(S1, S0, 1073741822)),
    New, Known(IsLen(S9F0, S5)), Known(Less(S9F0, S1, 3)), Known(Sum(S1, S0, S0)), Known(Low(S1, 0)), Other(IsLen(S9F0, S5)), Other(Less(S9F0, S1, 2)), Other(Low(S1, -1)), Other(IsLen(S0, S5)), Join, Facts(3), Has(Low(S1, -1)), Has(IsLen(S9F0, S5)), Has(Less(S9F0, S1, 3)),
];

/// Two lists of facts, and of each of the six systems whether the first says all that the second says.
#[rattlefmt::skip]
const BELOW_ROWS: &[Step] = &[
    New, Known(Upper(S1, S5, PathOff::Plus(S0), -2147483648)), Known(Rng(S1, -10, 2147483647)), Other(Upper(S1, S5, PathOff::Plus(S0), -2147483646)), Other(LenRng(S5, 0, 2147483647)), Below([true, true, true, true, true, false]),
    New, Known(Low(S9F0, 0)), Other(Low(S9F0, 1)), Below([true, false, true, true, true, true]),
    New, Known(LenRng(S6, 0, 2147483647)), Known(Less(S9F0, S0, 2)), Other(LenRng(S6, 0, 2147483647)), Other(Less(S9F0, S0, 1)), Below([true, true, true, false, true, true]),
    New, Known(Rng(S1, 1, 2147483647)), Other(Rng(S1, -1, 2147483647)), Other(IsLen(S9F0, S6)), Below([true, true, false, true, true, true]),
    New, Known(Upper(S1, S5, PathOff::Plus(S0), 0)), Known(Rng(S9F0, -1, 12)), Known(Low(S9F0, 0)), Known(Sum(S0, S1, S9F0)), Known(Upper(S0, S6, PathOff::Minus(S1), -7)), Known(Sum(S1, S1, S9F0)), Other(Rng(S9F0, -1, 12)), Other(Low(S9F0, 0)), Other(Sum(S0, S1, S9F0)), Other(Upper(S0, S6, PathOff::Minus(S1), -7)), Other(Sum(S1, S1, S9F0)), Other(Rng(S9F0, -2147483648, 2)), Below([false, true, true, true, true, true]),
    New, Known(Rng(S9F0, -2, 2)), Known(Same(S5, S5)), Other(Rng(S9F0, -2, 2)), Other(Same(S5, S5)), Other(Search(S1, S6)), Below([true, true, true, true, false, true]),
    New, Known(Neg(S0, S6)), Known(Less(S0, S1, -1)), Known(Less(S0, S9F0, 1073741824)), Known(Less(S0, S1, 0)), Other(Neg(S0, S6)), Other(Less(S0, S1, -1)), Other(Less(S0, S9F0, 1073741824)), Other(Less(S0, S1, -2)), Below([true, true, true, false, true, true]),
    New, Known(Less(S9F0, S0, -1)), Other(Less(S9F0, S0, -1)), Below([true, true, true, true, true, true]),
    New, Known(Less(S9F0, S0, 1073741824)), Known(Rng(S0, 2, 2)), Known(Neg(S0, S5)), Known(Search(S0, S5)), Known(Low(S0, 1)), Known(Sum(S9F0, S9F0, S1)), Other(Less(S9F0, S0, 1073741823)), Other(Rng(S0, 1, 2)), Other(Search(S0, S5)), Other(Sum(S9F0, S9F0, S1)), Other(Less(S9F0, S0, 2147483646)), Below([true, true, true, false, true, true]),
    New, Known(Sum(S1, S0, S1)), Known(Upper(S0, S5, PathOff::Minus(S0), -6)), Other(Sum(S1, S0, S1)), Other(Upper(S0, S5, PathOff::Minus(S0), -6)), Other(Rng(S1, -2147483648, 2147483647)), Below([true, true, true, true, true, true]),
    New, Known(Rng(S9F0, 2, 2)), Known(Rng(S9F0, -2147483648, 2147483647)), Known(LenRng(S5, 0, 2147483647)), Known(Same(S6, S6)), Other(Rng(S9F0, 2, 4)), Other(LenRng(S5, 0, 2147483647)), Other(Same(S6, S6)), Below([true, true, true, true, true, true]),
    New, Known(Sum(S9F0, S1, S0)), Known(Search(S0, S6)), Known(Rng(S9F0, 3, 12)), Other(Sum(S9F0, S1, S0)), Other(Search(S0, S6)), Other(Rng(S9F0, 2, 12)), Other(Upper(S9F0, S6, PathOff::Minus(S0), -2147483648)), Below([true, true, true, true, true, false]),
    New, Known(Less(S9F0, S0, -2)), Known(LenRng(S6, 0, 6)), Known(Less(S1, S9F0, -9)), Known(Low(S9F0, 0)), Known(IsLen(S0, S5)), Known(IsLen(S9F0, S5)), Other(Less(S9F0, S0, -1)), Other(LenRng(S6, 0, 7)), Other(Less(S1, S9F0, -11)), Other(IsLen(S0, S5)), Other(IsLen(S9F0, S5)), Below([true, true, true, false, true, true]),
    New, Known(Less(S9F0, S1, -4)), Known(Upper(S9F0, S6, PathOff::Minus(S0), -9)), Known(IsLen(S9F0, S6)), Known(Upper(S1, S5, PathOff::Nothing, 3)), Other(Upper(S9F0, S6, PathOff::Minus(S0), -10)), Other(Upper(S1, S5, PathOff::Nothing, 5)), Other(Rng(S0, 1073741824, 1073741824)), Below([false, true, true, true, true, false]),
];

#[test]
fn joins_say_what_both_say(rt: HostRuntime) {
    agree(&rt, JOINED_ROWS);
}

#[test]
fn a_table_is_below_what_says_less(rt: HostRuntime) {
    agree(&rt, BELOW_ROWS);
}
