//! Facts of each kind, what follows from them, and the bounds that they give.

use crate::stores::Step::{Ask, Facts, Has, Know, New, Proves};
use crate::stores::{Question, Step, in_both};
use ix_core::Fact::{IsLen, LenRng, Less, Low, Neg, Rng, Same, Search, Sum, Upper};
use ix_core::{PathClaim, PathOff};
use ix_fact_rows::paths::{S0, S1, S2, S3, S5, S6, S7, S8};

/// Rows of both profiles.
#[rattlefmt::skip]
const INTS: &[Step] = &[
    New, Know(Rng(S0, -4, 9)), Ask(Question::Lo(S0, -4)), Ask(Question::Hi(S0, 9)), Facts(1), Has(Rng(S0, -4, 9)),
    New, Know(Rng(S0, -2147483648, 2147483647)), Ask(Question::Count(0, 0, 0)), Facts(0),
    New, Know(LenRng(S5, 0, 2147483647)), Ask(Question::Count(0, 0, 0)), Facts(0),
    New, Know(LenRng(S5, -4, 9)), Ask(Question::Shortest(S5, 0)), Ask(Question::Longest(S5, 9)), Facts(1), Has(LenRng(S5, 0, 9)),
    New, Know(Low(S0, -1)), Ask(Question::Lo(S0, -1)), Facts(1), Has(Low(S0, -1)),
    New, Know(Same(S5, S6)), Know(Same(S6, S7)), Know(LenRng(S5, 2, 9)), Know(LenRng(S7, 0, 4)), Facts(9), Has(LenRng(S5, 2, 4)), Has(LenRng(S6, 2, 4)), Has(LenRng(S7, 2, 4)), Has(Same(S5, S5)), Has(Same(S5, S6)), Has(Same(S5, S7)), Has(Same(S6, S6)), Has(Same(S6, S7)), Has(Same(S7, S7)),
    New, Know(IsLen(S0, S5)), Know(IsLen(S0, S6)), Know(LenRng(S5, 1, 7)), Ask(Question::Same(S6, S5, true)), Ask(Question::Hi(S0, 7)), Facts(7), Has(IsLen(S0, S5)), Has(IsLen(S0, S6)), Has(LenRng(S5, 1, 7)), Has(LenRng(S6, 1, 7)), Has(Same(S5, S5)), Has(Same(S5, S6)), Has(Same(S6, S6)),
    New, Know(Same(S5, S6)), Know(IsLen(S0, S5)), Know(Search(S1, S5)), Know(Neg(S2, S6)), Facts(11), Has(IsLen(S0, S5)), Has(IsLen(S0, S6)), Has(Neg(S2, S5)), Has(Neg(S2, S6)), Has(Same(S5, S5)), Has(Same(S5, S6)), Has(Same(S6, S6)), Has(Search(S1, S5)), Has(Search(S1, S6)), Has(Search(S2, S5)), Has(Search(S2, S6)),
    New, Know(Less(S0, S1, -2)), Know(Rng(S1, 0, 5)), Know(Rng(S0, 1, 9)), Ask(Question::Hi(S0, 2)), Ask(Question::Lo(S1, 4)), Ask(Question::Less(S0, S1, Some(-2))), Facts(5), Has(Less(S0, S1, -2)), Has(Low(S0, 1)), Has(Low(S1, 0)), Has(Rng(S0, 1, 9)), Has(Rng(S1, 0, 5)),
    New, Know(Less(S0, S1, 3)), Know(Less(S0, S1, 1)), Know(Less(S0, S1, 2)), Ask(Question::Difference(S0, S1, Some(1))), Ask(Question::Difference(S1, S0, None)), Facts(1), Has(Less(S0, S1, 1)),
    New, Know(Sum(S0, S1, S2)), Know(Upper(S0, S5, PathOff::Nothing, 0)), Ask(Question::Upper(S1, S5, PathOff::Plus(S2), Some(0))), Ask(Question::Upper(S2, S5, PathOff::Plus(S1), Some(0))), Ask(Question::Upper(S1, S5, PathOff::Nothing, Some(-2147483648))), Facts(2), Has(Sum(S0, S1, S2)), Has(Upper(S0, S5, PathOff::Nothing, 0)),
    New, Know(Search(S0, S5)), Know(Rng(S0, -9, -1)), Ask(Question::Negative(S0, S5, true)), Facts(3), Has(Neg(S0, S5)), Has(Rng(S0, -9, -1)), Has(Search(S0, S5)),
    New, Know(Neg(S0, S5)), Ask(Question::Search(S0, S5, true)), Ask(Question::Hi(S0, 2147483647)), Facts(2), Has(Neg(S0, S5)), Has(Search(S0, S5)),
    New, Know(Rng(S0, 5, 5)), Know(Rng(S0, 0, 9)), Know(Low(S0, 0)), Facts(2), Has(Low(S0, 1)), Has(Rng(S0, 5, 5)),
    New, Know(Sum(S2, S0, S1)), Know(Upper(S0, S5, PathOff::Nothing, 3)), Ask(Question::Upper(S2, S5, PathOff::Minus(S1), Some(3))), Ask(Question::Upper(S2, S5, PathOff::Minus(S0), None)), Facts(2), Has(Sum(S2, S0, S1)), Has(Upper(S0, S5, PathOff::Nothing, 3)),
    New, Know(Sum(S2, S0, S1)), Know(Upper(S1, S5, PathOff::Nothing, 3)), Ask(Question::Upper(S2, S5, PathOff::Minus(S1), None)), Ask(Question::Upper(S2, S5, PathOff::Minus(S0), Some(3))), Facts(2), Has(Sum(S2, S0, S1)), Has(Upper(S1, S5, PathOff::Nothing, 3)),
    New, Know(IsLen(S0, S5)), Know(LenRng(S5, 4, 9)), Ask(Question::Lo(S0, 4)), Ask(Question::Hi(S0, 9)), Facts(3), Has(IsLen(S0, S5)), Has(LenRng(S5, 4, 9)), Has(Same(S5, S5)),
    New, Know(Rng(S0, -7, 9)), Know(Low(S0, 1)), Ask(Question::Lo(S0, 1)), Facts(2), Has(Low(S0, 1)), Has(Rng(S0, -7, 9)),
    New, Know(Search(S0, S5)), Know(LenRng(S5, 3, 3)), Ask(Question::Lo(S0, -2147483648)), Proves(S0, PathClaim::Negative(S5), false), Proves(S0, PathClaim::Low(-4), false), Proves(S0, PathClaim::Search(S5), true), Facts(2), Has(LenRng(S5, 3, 3)), Has(Search(S0, S5)),
    New, Know(Rng(S0, -5, 2)), Know(LenRng(S5, 3, 9)), Proves(S0, PathClaim::Search(S5), false), Facts(2), Has(LenRng(S5, 3, 9)), Has(Rng(S0, -5, 2)),
    New, Know(Rng(S0, -4, -1)), Know(LenRng(S5, 3, 9)), Proves(S0, PathClaim::Negative(S5), true), Proves(S0, PathClaim::Search(S5), true), Facts(2), Has(LenRng(S5, 3, 9)), Has(Rng(S0, -4, -1)),
    New, Know(Rng(S0, -5, -1)), Know(LenRng(S5, 3, 9)), Proves(S0, PathClaim::Negative(S5), false), Proves(S0, PathClaim::Search(S5), false), Facts(2), Has(LenRng(S5, 3, 9)), Has(Rng(S0, -5, -1)),
    New, Know(Same(S5, S6)), Know(Same(S7, S8)), Know(IsLen(S0, S6)), Know(IsLen(S0, S7)), Ask(Question::Count(14, 1, 4)), Ask(Question::Same(S5, S8, true)), Facts(14), Has(IsLen(S0, S5)), Has(IsLen(S0, S6)), Has(IsLen(S0, S7)), Has(IsLen(S0, S8)), Has(Same(S5, S5)), Has(Same(S5, S6)), Has(Same(S5, S7)), Has(Same(S5, S8)), Has(Same(S6, S6)), Has(Same(S6, S7)), Has(Same(S6, S8)), Has(Same(S7, S7)), Has(Same(S7, S8)), Has(Same(S8, S8)),
    New, Know(Sum(S0, S1, S1)), Know(Upper(S1, S5, PathOff::Plus(S1), 0)), Ask(Question::Upper(S0, S5, PathOff::Nothing, Some(-2147483648))), Ask(Question::Upper(S1, S5, PathOff::Plus(S1), Some(0))), Facts(2), Has(Sum(S0, S1, S1)), Has(Upper(S1, S5, PathOff::Plus(S1), 0)),
];

/// Rows of both profiles.
#[rattlefmt::skip]
const BOUNDS_FROM_ENDS: &[Step] = &[
    New, Know(Upper(S0, S5, PathOff::Nothing, 3)), Know(LenRng(S5, 5, 8)), Ask(Question::Hi(S0, 4)), Ask(Question::Upper(S0, S5, PathOff::Nothing, Some(3))), Facts(2), Has(LenRng(S5, 5, 8)), Has(Upper(S0, S5, PathOff::Nothing, 3)),
    New, Know(Upper(S0, S5, PathOff::Plus(S1), 3)), Ask(Question::Upper(S1, S5, PathOff::Plus(S0), Some(3))), Ask(Question::Upper(S0, S5, PathOff::Plus(S1), Some(3))), Ask(Question::Upper(S0, S5, PathOff::Minus(S1), None)), Facts(1), Has(Upper(S0, S5, PathOff::Plus(S1), 3)),
    New, Know(Upper(S0, S5, PathOff::Minus(S1), 3)), Know(Rng(S1, 0, 2)), Ask(Question::Upper(S0, S5, PathOff::Nothing, Some(1))), Facts(3), Has(Low(S1, 0)), Has(Rng(S1, 0, 2)), Has(Upper(S0, S5, PathOff::Minus(S1), 3)),
    New, Know(Upper(S0, S6, PathOff::Nothing, 0)), Know(Same(S5, S6)), Ask(Question::Upper(S0, S5, PathOff::Nothing, Some(0))), Ask(Question::Count(4, 1, 2)), Facts(4), Has(Same(S5, S5)), Has(Same(S5, S6)), Has(Same(S6, S6)), Has(Upper(S0, S6, PathOff::Nothing, 0)),
    New, Know(Less(S0, S1, 0)), Know(Upper(S1, S5, PathOff::Nothing, 0)), Ask(Question::Upper(S0, S5, PathOff::Nothing, Some(1))), Ask(Question::Upper(S1, S5, PathOff::Nothing, Some(0))), Facts(2), Has(Less(S0, S1, 0)), Has(Upper(S1, S5, PathOff::Nothing, 0)),
    New, Know(Same(S5, S5)), Know(IsLen(S0, S5)), Ask(Question::IsLength(S0, S5, true)), Ask(Question::Upper(S0, S5, PathOff::Nothing, Some(-1))), Ask(Question::Hi(S0, 2147483647)), Facts(2), Has(IsLen(S0, S5)), Has(Same(S5, S5)),
    New, Know(Upper(S0, S5, PathOff::Plus(S1), 3)), Know(Less(S2, S1, 1)), Ask(Question::Upper(S0, S5, PathOff::Plus(S2), Some(3))), Facts(2), Has(Less(S2, S1, 1)), Has(Upper(S0, S5, PathOff::Plus(S1), 3)),
    New, Know(Upper(S0, S5, PathOff::Plus(S1), 3)), Know(Less(S2, S0, -1)), Ask(Question::Upper(S2, S5, PathOff::Plus(S1), Some(5))), Ask(Question::Upper(S1, S5, PathOff::Plus(S2), Some(5))), Facts(2), Has(Less(S2, S0, -1)), Has(Upper(S0, S5, PathOff::Plus(S1), 3)),
    New, Know(Upper(S0, S5, PathOff::Minus(S1), 3)), Know(Less(S1, S2, 1)), Ask(Question::Upper(S0, S5, PathOff::Minus(S2), Some(3))), Ask(Question::Upper(S0, S5, PathOff::Minus(S1), Some(3))), Facts(2), Has(Less(S1, S2, 1)), Has(Upper(S0, S5, PathOff::Minus(S1), 3)),
    New, Know(Upper(S0, S5, PathOff::Minus(S1), 3)), Know(IsLen(S2, S5)), Ask(Question::Upper(S0, S5, PathOff::Minus(S2), None)), Ask(Question::Upper(S0, S5, PathOff::Plus(S2), Some(-2147483648))), Facts(3), Has(IsLen(S2, S5)), Has(Same(S5, S5)), Has(Upper(S0, S5, PathOff::Minus(S1), 3)),
    New, Know(Upper(S1, S5, PathOff::Nothing, -1)), Know(IsLen(S2, S5)), Know(Upper(S0, S6, PathOff::Minus(S2), 4)), Ask(Question::Upper(S0, S6, PathOff::Minus(S1), None)), Ask(Question::Less(S1, S2, Some(1))), Facts(4), Has(IsLen(S2, S5)), Has(Same(S5, S5)), Has(Upper(S0, S6, PathOff::Minus(S2), 4)), Has(Upper(S1, S5, PathOff::Nothing, -1)),
    New, Know(Upper(S0, S5, PathOff::Nothing, 3)), Know(Rng(S1, 0, 2)), Ask(Question::Upper(S0, S5, PathOff::Plus(S1), Some(1))), Ask(Question::Upper(S1, S5, PathOff::Plus(S0), Some(1))), Ask(Question::Upper(S0, S5, PathOff::Minus(S1), Some(3))), Facts(3), Has(Low(S1, 0)), Has(Rng(S1, 0, 2)), Has(Upper(S0, S5, PathOff::Nothing, 3)),
    New, Know(Upper(S1, S5, PathOff::Nothing, 3)), Know(Rng(S0, 0, 2)), Ask(Question::Upper(S0, S5, PathOff::Plus(S1), Some(1))), Ask(Question::Upper(S1, S5, PathOff::Plus(S0), Some(1))), Facts(3), Has(Low(S0, 0)), Has(Rng(S0, 0, 2)), Has(Upper(S1, S5, PathOff::Nothing, 3)),
    New, Know(Less(S0, S1, 0)), Know(Upper(S1, S5, PathOff::Nothing, 3)), Ask(Question::Upper(S0, S5, PathOff::Nothing, Some(4))), Ask(Question::Less(S0, S5, Some(4294967295))), Facts(2), Has(Less(S0, S1, 0)), Has(Upper(S1, S5, PathOff::Nothing, 3)),
    New, Know(IsLen(S1, S5)), Know(Less(S0, S1, 0)), Ask(Question::Upper(S0, S5, PathOff::Nothing, Some(0))), Ask(Question::Upper(S1, S5, PathOff::Nothing, Some(-1))), Facts(3), Has(IsLen(S1, S5)), Has(Less(S0, S1, 0)), Has(Same(S5, S5)),
    New, Know(IsLen(S1, S5)), Know(Upper(S0, S5, PathOff::Nothing, 2)), Ask(Question::Less(S0, S1, Some(-2))), Ask(Question::Difference(S0, S1, None)), Proves(S0, PathClaim::Less(S1, -2), true), Proves(S0, PathClaim::Less(S1, -3), false), Facts(3), Has(IsLen(S1, S5)), Has(Same(S5, S5)), Has(Upper(S0, S5, PathOff::Nothing, 2)),
    New, Know(Upper(S0, S5, PathOff::Nothing, -5)), Know(Less(S0, S1, 3)), Know(Rng(S1, 0, 4)), Know(LenRng(S5, 0, 6)), Ask(Question::Hi(S0, 6)), Facts(5), Has(LenRng(S5, 0, 6)), Has(Less(S0, S1, 3)), Has(Low(S1, 0)), Has(Rng(S1, 0, 4)), Has(Upper(S0, S5, PathOff::Nothing, -5)),
    New, Know(Rng(S0, -4, 2)), Know(LenRng(S5, 3, 9)), Proves(S0, PathClaim::Search(S5), true), Proves(S0, PathClaim::Upper(S5, PathOff::Nothing, 0), true), Proves(S0, PathClaim::Negative(S5), false), Facts(2), Has(LenRng(S5, 3, 9)), Has(Rng(S0, -4, 2)),
    New, Know(Upper(S1, S5, PathOff::Nothing, 3)), Know(Upper(S2, S5, PathOff::Nothing, 9)), Know(Less(S0, S1, 0)), Know(Less(S0, S2, 0)), Ask(Question::Upper(S0, S5, PathOff::Nothing, Some(10))), Facts(4), Has(Less(S0, S1, 0)), Has(Less(S0, S2, 0)), Has(Upper(S1, S5, PathOff::Nothing, 3)), Has(Upper(S2, S5, PathOff::Nothing, 9)),
    New, Know(Upper(S0, S5, PathOff::Plus(S1), 3)), Know(Upper(S0, S5, PathOff::Plus(S2), 9)), Know(Less(S3, S1, 0)), Know(Less(S3, S2, 0)), Ask(Question::Upper(S0, S5, PathOff::Plus(S3), Some(10))), Facts(4), Has(Less(S3, S1, 0)), Has(Less(S3, S2, 0)), Has(Upper(S0, S5, PathOff::Plus(S1), 3)), Has(Upper(S0, S5, PathOff::Plus(S2), 9)),
    New, Know(Upper(S0, S5, PathOff::Minus(S1), 3)), Know(Upper(S0, S5, PathOff::Minus(S2), 9)), Know(Less(S1, S3, 0)), Know(Less(S2, S3, 0)), Ask(Question::Upper(S0, S5, PathOff::Minus(S3), Some(10))), Facts(4), Has(Less(S1, S3, 0)), Has(Less(S2, S3, 0)), Has(Upper(S0, S5, PathOff::Minus(S1), 3)), Has(Upper(S0, S5, PathOff::Minus(S2), 9)),
    New, Know(Upper(S0, S5, PathOff::Nothing, 3)), Know(Upper(S0, S6, PathOff::Nothing, 9)), Know(Same(S5, S6)), Ask(Question::Upper(S0, S5, PathOff::Nothing, Some(9))), Ask(Question::Upper(S0, S6, PathOff::Nothing, Some(9))), Facts(5), Has(Same(S5, S5)), Has(Same(S5, S6)), Has(Same(S6, S6)), Has(Upper(S0, S5, PathOff::Nothing, 3)), Has(Upper(S0, S6, PathOff::Nothing, 9)),
    New, Know(IsLen(S2, S5)), Know(IsLen(S2, S6)), Know(Upper(S0, S5, PathOff::Nothing, 2)), Know(Upper(S1, S6, PathOff::Nothing, 4)), Ask(Question::Less(S0, S2, Some(-2))), Ask(Question::Less(S1, S2, Some(-4))), Facts(7), Has(IsLen(S2, S5)), Has(IsLen(S2, S6)), Has(Same(S5, S5)), Has(Same(S5, S6)), Has(Same(S6, S6)), Has(Upper(S0, S5, PathOff::Nothing, 2)), Has(Upper(S1, S6, PathOff::Nothing, 4)),
    New, Know(IsLen(S0, S5)), Know(Upper(S0, S5, PathOff::Nothing, -3)), Ask(Question::Upper(S0, S5, PathOff::Nothing, Some(-1))), Know(IsLen(S1, S5)), Know(Upper(S1, S5, PathOff::Nothing, 2)), Ask(Question::Upper(S1, S5, PathOff::Nothing, Some(5))), Facts(5), Has(IsLen(S0, S5)), Has(IsLen(S1, S5)), Has(Same(S5, S5)), Has(Upper(S0, S5, PathOff::Nothing, -3)), Has(Upper(S1, S5, PathOff::Nothing, 2)),
];

#[test]
fn closed_stores_agree_on_ints(rt: HostRuntime) {
    in_both(&rt, INTS);
}

#[test]
fn closed_stores_agree_on_bounds_from_ends(rt: HostRuntime) {
    in_both(&rt, BOUNDS_FROM_ENDS);
}
