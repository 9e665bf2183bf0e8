//! Tables of facts, and tables with one fact more, without what names a path, or moved to landmarks.

use crate::tables::Step::{Add, Facts, Forget, Has, Known, New, Round, Table};
use crate::tables::{Step, agree};
use ix_core::Fact::{IsLen, LenRng, Less, Low, Neg, Rng, Same, Search, Sum, Upper};
use ix_core::PathOff;
use ix_fact_rows::paths::{S0, S1, S5, S6, S9, S9F0, S9F1, S9F7};

/// Facts, and the six tables of them.
#[rattlefmt::skip]
const MADE_ROWS: &[Step] = &[
    New, Known(Upper(S0, S5, PathOff::Minus(S0), -2)), Known(Less(S9F0, S0, 2147483647)), Known(Less(S1, S9F0, 1)), Known(Less(S0, S1, 2)), Known(Low(S1, -1)), Known(Rng(S1, -2147483648, -3)), Table, Facts(6), Has(Rng(S1, -2147483648, -3)), Has(Low(S1, -1)), Has(Less(S0, S1, 2)), Has(Less(S1, S9F0, 1)), Has(Less(S9F0, S0, 2147483647)), Has(Upper(S0, S5, PathOff::Minus(S0), -2)),
    New, Known(Rng(S1, 3, 2147483647)), Known(Upper(S9F0, S6, PathOff::Nothing, -2)), Known(LenRng(S5, 0, 6)), Known(LenRng(S6, 0, 2)), Known(Upper(S9F0, S6, PathOff::Nothing, 3)), Table, Facts(4), Has(Rng(S1, 3, 2147483647)), Has(LenRng(S5, 0, 6)), Has(LenRng(S6, 0, 2)), Has(Upper(S9F0, S6, PathOff::Nothing, 3)),
    New, Known(Neg(S1, S6)), Known(Upper(S1, S5, PathOff::Nothing, 2147483647)), Known(Less(S1, S0, 2)), Known(Rng(S9F0, -2147483648, 2147483647)), Known(Rng(S1, 2147483647, 2147483647)), Known(Less(S1, S0, -2147483648)), Table, Facts(4), Has(Rng(S1, 2147483647, 2147483647)), Has(Less(S1, S0, -2147483648)), Has(Neg(S1, S6)), Has(Upper(S1, S5, PathOff::Nothing, 2147483647)),
    New, Known(Upper(S0, S5, PathOff::Nothing, -2147483648)), Known(Rng(S9F0, -3, -3)), Table, Facts(2), Has(Rng(S9F0, -3, -3)), Has(Upper(S0, S5, PathOff::Nothing, -2147483648)),
    New, Known(Upper(S1, S5, PathOff::Nothing, 2147483646)), Known(Upper(S1, S5, PathOff::Nothing, 0)), Known(IsLen(S9F0, S6)), Known(Less(S0, S1, 1)), Table, Facts(3), Has(IsLen(S9F0, S6)), Has(Less(S0, S1, 1)), Has(Upper(S1, S5, PathOff::Nothing, 2147483646)),
    New, Known(Low(S1, 0)), Known(Search(S1, S6)), Known(Less(S1, S0, -2147483647)), Known(Low(S1, 1)), Known(Upper(S1, S6, PathOff::Minus(S0), 2147483646)), Table, Facts(4), Has(Low(S1, 1)), Has(Less(S1, S0, -2147483647)), Has(Search(S1, S6)), Has(Upper(S1, S6, PathOff::Minus(S0), 2147483646)),
    New, Known(Neg(S1, S6)), Known(Less(S9F0, S0, 2)), Known(LenRng(S6, 2147483647, 2147483647)), Known(LenRng(S6, 0, 2147483647)), Known(Upper(S0, S5, PathOff::Nothing, -2)), Known(Upper(S9F0, S6, PathOff::Plus(S1), 2147483646)), Known(Upper(S0, S5, PathOff::Minus(S9F0), 1)), Table, Facts(6), Has(LenRng(S6, 2147483647, 2147483647)), Has(Less(S9F0, S0, 2)), Has(Neg(S1, S6)), Has(Upper(S0, S5, PathOff::Nothing, -2)), Has(Upper(S0, S5, PathOff::Minus(S9F0), 1)), Has(Upper(S1, S6, PathOff::Plus(S9F0), 2147483646)),
    New, Known(Less(S0, S9F0, -2147483648)), Known(Less(S9F0, S0, -2147483648)), Known(Less(S9F0, S0, 3)), Known(Upper(S1, S6, PathOff::Plus(S9F0), 1)), Known(LenRng(S5, 3, 6)), Known(Upper(S0, S6, PathOff::Minus(S1), -10)), Known(Sum(S0, S1, S1)), Table, Facts(6), Has(LenRng(S5, 3, 6)), Has(Less(S0, S9F0, -2147483648)), Has(Sum(S0, S1, S1)), Has(Less(S9F0, S0, -2147483648)), Has(Upper(S0, S6, PathOff::Minus(S1), -10)), Has(Upper(S1, S6, PathOff::Plus(S9F0), 1)),
    New, Known(Sum(S0, S1, S1)), Known(LenRng(S6, 0, 2147483647)), Known(LenRng(S5, 12, 2147483647)), Known(Low(S1, 1)), Known(Neg(S9F0, S6)), Known(Neg(S1, S5)), Table, Facts(5), Has(LenRng(S5, 12, 2147483647)), Has(Low(S1, 1)), Has(Sum(S0, S1, S1)), Has(Neg(S1, S5)), Has(Neg(S9F0, S6)),
    New, Known(Rng(S1, -2147483647, 2)), Known(Rng(S9F0, 2, 2147483646)), Known(Low(S1, 0)), Known(Search(S1, S5)), Known(Upper(S9F0, S5, PathOff::Minus(S1), -1)), Known(Sum(S0, S0, S1)), Known(Upper(S1, S6, PathOff::Nothing, 1073741824)), Table, Facts(7), Has(Rng(S1, -2147483647, 2)), Has(Rng(S9F0, 2, 2147483646)), Has(Low(S1, 0)), Has(Sum(S0, S0, S1)), Has(Search(S1, S5)), Has(Upper(S1, S6, PathOff::Nothing, 1073741824)), Has(Upper(S9F0, S5, PathOff::Minus(S1), -1)),
    New, Known(Upper(S1, S5, PathOff::Nothing, -1)), Known(Upper(S9F0, S6, PathOff::Plus(S1), 5)), Known(Search(S1, S5)), Known(Upper(S9F0, S5, PathOff::Minus(S9F0), -1)), Known(IsLen(S1, S5)), Table, Facts(5), Has(IsLen(S1, S5)), Has(Search(S1, S5)), Has(Upper(S1, S5, PathOff::Nothing, -1)), Has(Upper(S1, S6, PathOff::Plus(S9F0), 5)), Has(Upper(S9F0, S5, PathOff::Minus(S9F0), -1)),
    New, Known(Less(S9F0, S1, -2147483648)), Known(LenRng(S6, 1, 2)), Known(Upper(S9F0, S5, PathOff::Nothing, 0)), Known(Rng(S9F0, -1, -1)), Known(Same(S5, S5)), Known(IsLen(S1, S6)), Table, Facts(6), Has(LenRng(S6, 1, 2)), Has(Rng(S9F0, -1, -1)), Has(IsLen(S1, S6)), Has(Same(S5, S5)), Has(Less(S9F0, S1, -2147483648)), Has(Upper(S9F0, S5, PathOff::Nothing, 0)),
];

/// Facts and one more.
#[rattlefmt::skip]
const ADDED_ROWS: &[Step] = &[
    New, Known(Less(S9F0, S0, -2)), Known(Upper(S9F0, S5, PathOff::Minus(S1), -12)), Add(LenRng(S5, 0, 2147483647)), Facts(2), Has(Less(S9F0, S0, -2)), Has(Upper(S9F0, S5, PathOff::Minus(S1), -12)),
    New, Known(Low(S0, 0)), Known(Same(S6, S5)), Known(Less(S9F0, S0, 1073741824)), Add(Less(S9F0, S0, 0)), Facts(3), Has(Low(S0, 0)), Has(Same(S5, S6)), Has(Less(S9F0, S0, 0)),
    New, Known(Neg(S1, S5)), Known(Less(S0, S1, 2)), Known(Less(S9F0, S1, -3)), Known(Less(S1, S0, -12)), Known(Less(S1, S0, 0)), Known(Less(S1, S9F0, 2147483647)), Add(Rng(S0, -1, 8)), Facts(6), Has(Rng(S0, -1, 8)), Has(Less(S0, S1, 2)), Has(Less(S1, S0, -12)), Has(Less(S1, S9F0, 2147483647)), Has(Less(S9F0, S1, -3)), Has(Neg(S1, S5)),
    New, Known(Sum(S1, S1, S0)), Known(Low(S0, 1)), Known(Less(S9F0, S1, 2147483647)), Add(Low(S0, 0)), Facts(3), Has(Low(S0, 1)), Has(Sum(S1, S0, S1)), Has(Less(S9F0, S1, 2147483647)),
    New, Known(Search(S0, S5)), Known(Sum(S9F0, S9F0, S1)), Known(Upper(S0, S5, PathOff::Nothing, 9)), Add(Upper(S1, S5, PathOff::Nothing, -2147483648)), Facts(4), Has(Sum(S9F0, S1, S9F0)), Has(Search(S0, S5)), Has(Upper(S0, S5, PathOff::Nothing, 9)), Has(Upper(S1, S5, PathOff::Nothing, -2147483648)),
    New, Known(Rng(S9F0, -4, 2147483647)), Known(Rng(S0, -11, 2147483647)), Known(LenRng(S5, 1073741824, 2147483647)), Known(Less(S9F0, S1, -2147483647)), Known(Rng(S9F0, -2147483648, 1073741824)), Add(LenRng(S6, 0, 2)), Facts(5), Has(Rng(S0, -11, 2147483647)), Has(LenRng(S5, 1073741824, 2147483647)), Has(LenRng(S6, 0, 2)), Has(Rng(S9F0, -4, 1073741824)), Has(Less(S9F0, S1, -2147483647)),
    New, Known(Same(S6, S6)), Known(Low(S0, -1)), Known(Less(S9F0, S1, 3)), Known(Low(S0, 0)), Known(Search(S9F0, S6)), Known(Low(S9F0, -1)), Known(Low(S9F0, 1)), Add(Less(S1, S0, 2)), Facts(6), Has(Low(S0, 0)), Has(Low(S9F0, 1)), Has(Same(S6, S6)), Has(Less(S1, S0, 2)), Has(Less(S9F0, S1, 3)), Has(Search(S9F0, S6)),
    New, Known(Rng(S0, 2, 2)), Known(Search(S0, S5)), Known(Sum(S9F0, S0, S9F0)), Known(LenRng(S5, 0, 0)), Known(Upper(S0, S6, PathOff::Nothing, 2)), Known(Upper(S9F0, S6, PathOff::Nothing, 0)), Known(Upper(S1, S6, PathOff::Minus(S9F0), -3)), Add(Upper(S0, S6, PathOff::Nothing, 1)), Facts(7), Has(Rng(S0, 2, 2)), Has(LenRng(S5, 0, 0)), Has(Sum(S9F0, S0, S9F0)), Has(Search(S0, S5)), Has(Upper(S0, S6, PathOff::Nothing, 2)), Has(Upper(S1, S6, PathOff::Minus(S9F0), -3)), Has(Upper(S9F0, S6, PathOff::Nothing, 0)),
    New, Known(Neg(S1, S5)), Known(Less(S0, S1, 2)), Known(Less(S9F0, S1, -3)), Known(Less(S1, S0, -12)), Known(Less(S1, S0, 0)), Known(Less(S1, S9F0, 2147483647)), Add(Rng(S0, -1, 8)), Facts(6), Has(Rng(S0, -1, 8)), Has(Less(S0, S1, 2)), Has(Less(S1, S0, -12)), Has(Less(S1, S9F0, 2147483647)), Has(Less(S9F0, S1, -3)), Has(Neg(S1, S5)),
    New, Known(Sum(S1, S9F0, S1)), Known(Less(S1, S0, -2147483647)), Known(Low(S9F0, 1)), Known(Rng(S1, 4, 4)), Add(Upper(S1, S5, PathOff::Minus(S1), -2)), Facts(5), Has(Rng(S1, 4, 4)), Has(Low(S9F0, 1)), Has(Less(S1, S0, -2147483647)), Has(Sum(S1, S1, S9F0)), Has(Upper(S1, S5, PathOff::Minus(S1), -2)),
    New, Known(Upper(S0, S5, PathOff::Nothing, -2147483647)), Known(Upper(S0, S6, PathOff::Plus(S1), 2)), Known(Rng(S0, 11, 11)), Known(Sum(S0, S9F0, S1)), Known(Rng(S1, -2147483648, 2147483647)), Add(IsLen(S0, S6)), Facts(5), Has(Rng(S0, 11, 11)), Has(IsLen(S0, S6)), Has(Sum(S0, S1, S9F0)), Has(Upper(S0, S5, PathOff::Nothing, -2147483647)), Has(Upper(S0, S6, PathOff::Plus(S1), 2)),
    New, Known(Less(S9F0, S1, -2147483647)), Known(IsLen(S1, S5)), Known(Sum(S9F0, S0, S9F0)), Add(Low(S9F0, 1)), Facts(4), Has(Low(S9F0, 1)), Has(IsLen(S1, S5)), Has(Less(S9F0, S1, -2147483647)), Has(Sum(S9F0, S0, S9F0)),
];

/// Facts and a path.
#[rattlefmt::skip]
const FORGOTTEN_ROWS: &[Step] = &[
    New, Known(Less(S0, S1, -1)), Known(Rng(S1, 2147483647, 2147483647)), Known(Upper(S9F0, S6, PathOff::Plus(S0), 0)), Known(Less(S0, S1, -1)), Known(Search(S9F0, S5)), Known(Upper(S1, S5, PathOff::Minus(S1), -11)), Known(Same(S6, S5)), Forget(S9), Facts(4), Has(Rng(S1, 2147483647, 2147483647)), Has(Same(S5, S6)), Has(Less(S0, S1, -1)), Has(Upper(S1, S5, PathOff::Minus(S1), -11)),
    New, Known(Less(S9F0, S0, -3)), Known(LenRng(S5, 2147483646, 2147483647)), Known(Less(S0, S1, 2147483647)), Known(Same(S6, S6)), Known(Rng(S9F0, 1, 2147483647)), Known(Rng(S9F0, -3, 2147483647)), Forget(S9), Facts(3), Has(LenRng(S5, 2147483646, 2147483647)), Has(Same(S6, S6)), Has(Less(S0, S1, 2147483647)),
    New, Known(Upper(S1, S6, PathOff::Nothing, -1)), Known(Less(S1, S9F0, -2)), Known(Search(S0, S6)), Known(Less(S0, S1, -2147483647)), Known(IsLen(S1, S5)), Known(Low(S0, 0)), Forget(S1), Facts(2), Has(Low(S0, 0)), Has(Search(S0, S6)),
    New, Known(Neg(S1, S5)), Known(Low(S9F0, -1)), Known(Upper(S0, S6, PathOff::Nothing, 3)), Known(Upper(S0, S5, PathOff::Minus(S9F0), 2)), Forget(S9), Facts(2), Has(Neg(S1, S5)), Has(Upper(S0, S6, PathOff::Nothing, 3)),
    New, Known(IsLen(S0, S6)), Known(Less(S9F0, S0, 1)), Known(Less(S9F0, S0, 3)), Known(Upper(S9F0, S6, PathOff::Minus(S0), -1)), Forget(S9F7), Facts(3), Has(IsLen(S0, S6)), Has(Less(S9F0, S0, 1)), Has(Upper(S9F0, S6, PathOff::Minus(S0), -1)),
    New, Known(Upper(S0, S6, PathOff::Minus(S9F0), -2)), Known(Less(S1, S0, 0)), Known(Less(S0, S1, -10)), Known(Sum(S1, S9F0, S0)), Known(Sum(S0, S9F0, S1)), Known(LenRng(S6, 0, 10)), Known(Rng(S0, -2147483648, -9)), Forget(S9F0), Facts(4), Has(Rng(S0, -2147483648, -9)), Has(LenRng(S6, 0, 10)), Has(Less(S0, S1, -10)), Has(Less(S1, S0, 0)),
    New, Known(Neg(S9F0, S5)), Known(Rng(S1, -7, -7)), Known(IsLen(S9F0, S5)), Known(Rng(S9F0, 2, 2)), Forget(S9F1), Facts(4), Has(Rng(S1, -7, -7)), Has(Rng(S9F0, 2, 2)), Has(IsLen(S9F0, S5)), Has(Neg(S9F0, S5)),
    New, Known(Upper(S1, S5, PathOff::Plus(S0), -1)), Known(Rng(S1, 0, 0)), Forget(S5), Facts(1), Has(Rng(S1, 0, 0)),
    New, Known(Low(S9F0, -1)), Forget(S9F1), Facts(1), Has(Low(S9F0, -1)),
    New, Known(Upper(S1, S5, PathOff::Minus(S1), -2147483648)), Known(Search(S0, S6)), Known(Less(S9F0, S0, 2)), Known(Upper(S9F0, S5, PathOff::Minus(S9F0), -2)), Forget(S9), Facts(2), Has(Search(S0, S6)), Has(Upper(S1, S5, PathOff::Minus(S1), -2147483648)),
    New, Known(Sum(S9F0, S9F0, S1)), Known(Rng(S9F0, 2, 3)), Known(Rng(S9F0, -2147483648, 2147483647)), Known(Same(S6, S5)), Known(Less(S9F0, S1, 4)), Forget(S9F7), Facts(4), Has(Rng(S9F0, 2, 3)), Has(Same(S5, S6)), Has(Less(S9F0, S1, 4)), Has(Sum(S9F0, S1, S9F0)),
    New, Known(Upper(S1, S6, PathOff::Nothing, -9)), Known(Low(S1, 1)), Known(Same(S6, S6)), Known(Rng(S9F0, -2147483648, -2147483648)), Known(Same(S6, S5)), Forget(S6), Facts(2), Has(Rng(S9F0, -2147483648, -2147483648)), Has(Low(S1, 1)),
    New, Known(Less(S1, S0, 2)), Known(Sum(S0, S9F0, S0)), Known(Less(S1, S9F0, -1)), Known(Same(S6, S6)), Known(Upper(S1, S5, PathOff::Nothing, 1)), Known(Upper(S1, S5, PathOff::Nothing, -3)), Forget(S9), Facts(3), Has(Same(S6, S6)), Has(Less(S1, S0, 2)), Has(Upper(S1, S5, PathOff::Nothing, 1)),
];

/// Facts and landmarks.
#[rattlefmt::skip]
const ROUNDED_ROWS: &[Step] = &[
    New, Known(Same(S6, S5)), Known(Less(S1, S9F0, 2147483646)), Known(Sum(S9F0, S1, S9F0)), Known(Upper(S1, S5, PathOff::Minus(S0), -1)), Known(Neg(S1, S5)), Known(Rng(S0, -8, -8)), Known(Rng(S1, 2, 2)), Round(-2147483648, 0, 1073741824, 2147483647), Facts(7), Has(Rng(S0, -2147483648, 0)), Has(Rng(S1, 0, 1073741824)), Has(Same(S5, S6)), Has(Less(S1, S9F0, 2147483647)), Has(Sum(S9F0, S1, S9F0)), Has(Neg(S1, S5)), Has(Upper(S1, S5, PathOff::Minus(S0), -2147483648)),
    New, Known(Low(S9F0, -1)), Known(Less(S0, S1, 8)), Round(-2147483648, 0, 4, 2147483647), Facts(2), Has(Low(S9F0, -1)), Has(Less(S0, S1, 2147483647)),
    New, Known(Search(S9F0, S5)), Known(Rng(S0, -2147483648, -7)), Known(LenRng(S6, 7, 2147483647)), Known(IsLen(S9F0, S5)), Round(-15, -3, 1, 12), Facts(2), Has(IsLen(S9F0, S5)), Has(Search(S9F0, S5)),
    New, Known(Same(S5, S6)), Known(Upper(S9F0, S5, PathOff::Nothing, -2147483648)), Round(-13, -11, -10, 9), Facts(1), Has(Same(S5, S6)),
    New, Known(Upper(S1, S5, PathOff::Nothing, -7)), Known(Less(S1, S0, 2)), Known(Less(S1, S9F0, -5)), Known(Less(S1, S9F0, -3)), Known(Less(S1, S9F0, 2)), Round(-2147483648, -3, 1, 2147483647), Facts(3), Has(Less(S1, S0, 2147483647)), Has(Less(S1, S9F0, -3)), Has(Upper(S1, S5, PathOff::Nothing, -2147483648)),
    New, Known(Same(S6, S5)), Known(Less(S0, S1, -3)), Known(Low(S0, 1)), Known(Upper(S0, S5, PathOff::Nothing, -1)), Known(Sum(S9F0, S1, S0)), Known(Upper(S0, S5, PathOff::Minus(S9F0), -1)), Known(Upper(S0, S5, PathOff::Nothing, 3)), Round(-2147483648, -6, 2, 2147483647), Facts(6), Has(Low(S0, 1)), Has(Same(S5, S6)), Has(Less(S0, S1, 2)), Has(Sum(S9F0, S0, S1)), Has(Upper(S0, S5, PathOff::Nothing, 2)), Has(Upper(S0, S5, PathOff::Minus(S9F0), -6)),
    New, Known(Upper(S1, S5, PathOff::Nothing, -2147483648)), Round(-2147483648, -1, 1, 2147483647), Facts(1), Has(Upper(S1, S5, PathOff::Nothing, -2147483648)),
    New, Known(Sum(S1, S1, S0)), Known(Less(S9F0, S0, 2147483647)), Round(-2147483648, -3, 3, 2147483647), Facts(2), Has(Sum(S1, S0, S1)), Has(Less(S9F0, S0, 2147483647)),
    New, Known(Rng(S1, -2147483647, -2147483647)), Known(Upper(S1, S5, PathOff::Plus(S1), 4)), Known(Low(S1, 0)), Known(Search(S0, S5)), Known(Neg(S1, S6)), Known(Upper(S1, S5, PathOff::Minus(S0), 2147483647)), Known(Rng(S0, -10, -3)), Round(-9, -8, -4, 13), Facts(5), Has(Low(S1, 0)), Has(Search(S0, S5)), Has(Neg(S1, S6)), Has(Upper(S1, S5, PathOff::Plus(S1), -4)), Has(Upper(S1, S5, PathOff::Minus(S0), 13)),
    New, Known(Less(S0, S1, -2)), Known(IsLen(S1, S5)), Known(Sum(S1, S9F0, S9F0)), Known(Rng(S1, -11, 2147483647)), Known(Upper(S9F0, S6, PathOff::Minus(S1), 1073741824)), Round(-2147483648, -7, 0, 2147483647), Facts(4), Has(IsLen(S1, S5)), Has(Less(S0, S1, 0)), Has(Sum(S1, S9F0, S9F0)), Has(Upper(S9F0, S6, PathOff::Minus(S1), 0)),
];

#[test]
fn tables_say_what_the_facts_say(rt: HostRuntime) {
    agree(&rt, MADE_ROWS);
}

#[test]
fn an_added_fact_counts_where_it_is_stronger(rt: HostRuntime) {
    agree(&rt, ADDED_ROWS);
}

#[test]
fn a_forgotten_path_is_not_named(rt: HostRuntime) {
    agree(&rt, FORGOTTEN_ROWS);
}

#[test]
fn facts_move_to_landmarks(rt: HostRuntime) {
    agree(&rt, ROUNDED_ROWS);
}
