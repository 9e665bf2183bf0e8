//! What tests tell.

use crate::stores::Step::{Ask, Assume, Do, Facts, Has, If, Know, New, Nowhere, Unless};
use crate::stores::{Question, Step, in_both};
use ix_core::Fact::{IsLen, LenRng, Less, Low, Neg, Rng, Same, Search, Sum, Upper};
use ix_core::{PathClaim, PathOff};
use ix_fact_rows::paths::{S0, S1, S2, S3, S5, S6};
use ix_fact_rows::{Does, Holds};
use ix_num::Rel;

/// Rows of both profiles.
#[rattlefmt::skip]
const IN_ORDER: &[Step] = &[
    New, If(0, Rel::Lt, 1, Holds::Ints), Facts(3), Has(Less(S0, S1, 0)), Has(Rng(S0, -2147483648, 2147483646)), Has(Rng(S1, -2147483647, 2147483647)),
    New, Unless(0, Rel::Lt, 1, Holds::Ints), Facts(1), Has(Less(S1, S0, 1)),
    New, If(0, Rel::Le, 1, Holds::Ints), If(1, Rel::Le, 0, Holds::Ints), Facts(2), Has(Less(S0, S1, 1)), Has(Less(S1, S0, 1)),
    New, If(0, Rel::Gt, 1, Holds::Ints), Unless(0, Rel::Ge, 1, Holds::Ints), Facts(4), Has(Less(S0, S1, 0)), Has(Less(S1, S0, -2)), Has(Rng(S0, -2147483645, 2147483645)), Has(Rng(S1, -2147483646, 2147483644)),
    New, Do(Does::Int(1, 0)), If(0, Rel::Ge, 1, Holds::Ints), Facts(5), Has(Less(S1, S0, 1)), Has(Low(S0, 0)), Has(Low(S1, 0)), Has(Rng(S0, 0, 2147483647)), Has(Rng(S1, 0, 0)),
    New, Do(Does::Int(1, 0)), Unless(0, Rel::Ge, 1, Holds::Ints), Facts(4), Has(Less(S0, S1, 0)), Has(Low(S1, 0)), Has(Rng(S0, -2147483648, -1)), Has(Rng(S1, 0, 0)),
    New, Do(Does::Length(1, 5)), If(0, Rel::Lt, 1, Holds::Ints), Facts(7), Has(IsLen(S1, S5)), Has(Less(S0, S1, 0)), Has(Low(S1, 0)), Has(Rng(S0, -2147483648, 2147483646)), Has(Rng(S1, 0, 2147483647)), Has(Same(S5, S5)), Has(Upper(S0, S5, PathOff::Nothing, 0)),
    New, Do(Does::Length(1, 5)), If(0, Rel::Le, 1, Holds::Ints), Do(Does::Int(2, 0)), If(0, Rel::Ge, 2, Holds::Ints), Facts(13), Has(IsLen(S1, S5)), Has(Less(S0, S1, 1)), Has(Less(S2, S0, 1)), Has(Less(S2, S1, 1)), Has(Low(S0, 0)), Has(Low(S1, 0)), Has(Low(S2, 0)), Has(Rng(S0, 0, 2147483647)), Has(Rng(S1, 0, 2147483647)), Has(Rng(S2, 0, 0)), Has(Same(S5, S5)), Has(Upper(S0, S5, PathOff::Nothing, -1)), Has(Upper(S2, S5, PathOff::Nothing, -1)),
    New, Assume(S0, PathClaim::Search(S5)), Do(Does::Int(1, 0)), If(0, Rel::Lt, 1, Holds::Ints), Facts(8), Has(Less(S0, S1, 0)), Has(Low(S1, 0)), Has(Neg(S0, S5)), Has(Rng(S0, -2147483648, -1)), Has(Rng(S1, 0, 0)), Has(Search(S0, S5)), Has(Upper(S0, S5, PathOff::Nothing, 0)), Has(Upper(S1, S5, PathOff::Nothing, -1)),
    New, Assume(S0, PathClaim::Search(S5)), Do(Does::Int(1, 0)), Unless(0, Rel::Lt, 1, Holds::Ints), Facts(8), Has(Less(S1, S0, 1)), Has(Low(S0, 0)), Has(Low(S1, 0)), Has(Rng(S0, 0, 2147483647)), Has(Rng(S1, 0, 0)), Has(Search(S0, S5)), Has(Upper(S0, S5, PathOff::Nothing, 0)), Has(Upper(S1, S5, PathOff::Nothing, 0)),
    New, Know(Sum(S0, S1, S2)), Do(Does::Length(3, 5)), If(0, Rel::Lt, 3, Holds::Ints), Facts(9), Has(IsLen(S3, S5)), Has(Less(S0, S3, 0)), Has(Low(S3, 0)), Has(Rng(S0, -2147483648, 2147483646)), Has(Rng(S3, 0, 2147483647)), Has(Same(S5, S5)), Has(Sum(S0, S1, S2)), Has(Upper(S0, S5, PathOff::Nothing, 0)), Has(Upper(S1, S5, PathOff::Plus(S2), 0)),
    New, Assume(S0, PathClaim::Less(S1, 0)), Assume(S2, PathClaim::Less(S3, 0)), If(1, Rel::Le, 2, Holds::Ints), Facts(10), Has(Less(S0, S1, 0)), Has(Less(S0, S2, 0)), Has(Less(S0, S3, -1)), Has(Less(S1, S2, 1)), Has(Less(S1, S3, 0)), Has(Less(S2, S3, 0)), Has(Rng(S0, -2147483648, 2147483645)), Has(Rng(S1, -2147483648, 2147483646)), Has(Rng(S2, -2147483647, 2147483647)), Has(Rng(S3, -2147483646, 2147483647)),
    New, If(0, Rel::Lt, 0, Holds::Ints), Facts(1), Has(Rng(S0, -2147483647, 2147483646)),
    New, If(0, Rel::Le, 0, Holds::Ints), Ask(Question::Count(0, 0, 0)), Facts(0),
    New, Know(Less(S2, S0, -1)), Know(Less(S1, S3, -1)), If(0, Rel::Lt, 1, Holds::Ints), Facts(10), Has(Less(S0, S1, 0)), Has(Less(S0, S3, -2)), Has(Less(S1, S3, -1)), Has(Less(S2, S0, -1)), Has(Less(S2, S1, -2)), Has(Less(S2, S3, -4)), Has(Rng(S0, -2147483648, 2147483644)), Has(Rng(S1, -2147483645, 2147483647)), Has(Rng(S2, -2147483648, 2147483642)), Has(Rng(S3, -2147483643, 2147483647)),
    New, Know(Less(S2, S0, -1)), Know(Upper(S1, S5, PathOff::Nothing, 2)), If(0, Rel::Le, 1, Holds::Ints), Facts(9), Has(Less(S0, S1, 1)), Has(Less(S2, S0, -1)), Has(Less(S2, S1, -1)), Has(Rng(S0, -2147483648, 2147483644)), Has(Rng(S1, -2147483646, 2147483647)), Has(Rng(S2, -2147483648, 2147483642)), Has(Upper(S0, S5, PathOff::Nothing, 2)), Has(Upper(S1, S5, PathOff::Nothing, 2)), Has(Upper(S2, S5, PathOff::Nothing, 4)),
    New, Know(Sum(S0, S2, S3)), Know(Upper(S1, S5, PathOff::Nothing, 2)), If(0, Rel::Lt, 1, Holds::Ints), Facts(7), Has(Less(S0, S1, 0)), Has(Rng(S0, -2147483648, 2147483643)), Has(Rng(S1, -2147483647, 2147483647)), Has(Sum(S0, S2, S3)), Has(Upper(S0, S5, PathOff::Nothing, 3)), Has(Upper(S1, S5, PathOff::Nothing, 2)), Has(Upper(S2, S5, PathOff::Plus(S3), 3)),
    New, Know(Sum(S0, S2, S3)), Know(IsLen(S1, S5)), Know(Low(S3, 0)), If(0, Rel::Lt, 1, Holds::Ints), Facts(9), Has(IsLen(S1, S5)), Has(Less(S0, S1, 0)), Has(Low(S3, 0)), Has(Rng(S0, -2147483648, 2147483646)), Has(Rng(S1, -2147483647, 2147483647)), Has(Same(S5, S5)), Has(Sum(S0, S2, S3)), Has(Upper(S0, S5, PathOff::Nothing, 0)), Has(Upper(S2, S5, PathOff::Plus(S3), 0)),
    New, Know(Upper(S1, S5, PathOff::Minus(S2), 1)), If(0, Rel::Lt, 1, Holds::Ints), Facts(5), Has(Less(S0, S1, 0)), Has(Rng(S0, -2147483648, 2147483646)), Has(Rng(S1, -2147483647, 2147483647)), Has(Upper(S0, S5, PathOff::Minus(S2), 2)), Has(Upper(S1, S5, PathOff::Minus(S2), 1)),
    New, Know(Upper(S1, S5, PathOff::Plus(S2), 1)), If(0, Rel::Lt, 1, Holds::Ints), Ask(Question::Upper(S0, S5, PathOff::Nothing, Some(-2147483646))), Facts(5), Has(Less(S0, S1, 0)), Has(Rng(S0, -2147483648, 2147483646)), Has(Rng(S1, -2147483647, 2147483647)), Has(Upper(S0, S5, PathOff::Plus(S2), 2)), Has(Upper(S1, S5, PathOff::Plus(S2), 1)),
    New, Know(IsLen(S0, S5)), Do(Does::Int(1, 3)), If(0, Rel::Gt, 1, Holds::Ints), Facts(9), Has(IsLen(S0, S5)), Has(LenRng(S5, 4, 2147483647)), Has(Less(S1, S0, 0)), Has(Low(S0, 1)), Has(Low(S1, 1)), Has(Rng(S0, 4, 2147483647)), Has(Rng(S1, 3, 3)), Has(Same(S5, S5)), Has(Upper(S1, S5, PathOff::Nothing, 0)),
    New, Know(IsLen(S0, S5)), Do(Does::Int(1, 3)), If(0, Rel::Le, 1, Holds::Ints), Facts(7), Has(IsLen(S0, S5)), Has(LenRng(S5, 0, 3)), Has(Less(S0, S1, 1)), Has(Low(S1, 1)), Has(Rng(S0, -2147483648, 3)), Has(Rng(S1, 3, 3)), Has(Same(S5, S5)),
    New, Know(Rng(S0, 0, 9)), Know(Rng(S1, 5, 20)), If(0, Rel::Ge, 1, Holds::Ints), Ask(Question::Hi(S1, 9)), Ask(Question::Lo(S0, 5)), Facts(5), Has(Less(S1, S0, 1)), Has(Low(S0, 1)), Has(Low(S1, 1)), Has(Rng(S0, 5, 9)), Has(Rng(S1, 5, 9)),
    New, Know(Less(S0, S1, -2147483648)), If(1, Rel::Lt, 2, Holds::Ints), Facts(7), Has(Less(S0, S1, -2147483648)), Has(Less(S0, S2, -2147483648)), Has(Less(S1, S2, 0)), Has(Low(S2, 1)), Has(Rng(S0, -2147483648, -3)), Has(Rng(S1, -2147483648, 2147483646)), Has(Rng(S2, 2, 2147483647)),
    New, Know(Upper(S0, S5, PathOff::Nothing, -2147483648)), Know(Less(S1, S0, 7)), If(1, Rel::Lt, 0, Holds::Ints), Facts(5), Has(Less(S1, S0, 0)), Has(Rng(S0, -2147483647, 2147483647)), Has(Rng(S1, -2147483648, 2147483646)), Has(Upper(S0, S5, PathOff::Nothing, -2147483648)), Has(Upper(S1, S5, PathOff::Nothing, -2147483647)),
    New, Know(Upper(S1, S5, PathOff::Nothing, 2147483647)), If(0, Rel::Lt, 1, Holds::Ints), Ask(Question::Upper(S0, S5, PathOff::Nothing, Some(2147483648))), Facts(5), Has(Less(S0, S1, 0)), Has(Rng(S0, -2147483648, -2)), Has(Rng(S1, -2147483647, 2147483647)), Has(Upper(S0, S5, PathOff::Nothing, 2147483647)), Has(Upper(S1, S5, PathOff::Nothing, 2147483647)),
    New, Know(Sum(S0, S2, S3)), Know(Upper(S1, S5, PathOff::Nothing, 2)), If(0, Rel::Le, 1, Holds::Ints), Facts(6), Has(Less(S0, S1, 1)), Has(Rng(S0, -2147483648, 2147483644)), Has(Sum(S0, S2, S3)), Has(Upper(S0, S5, PathOff::Nothing, 2)), Has(Upper(S1, S5, PathOff::Nothing, 2)), Has(Upper(S2, S5, PathOff::Plus(S3), 2)),
    New, Know(Sum(S0, S2, S3)), Know(IsLen(S1, S5)), If(0, Rel::Le, 1, Holds::Ints), Facts(6), Has(IsLen(S1, S5)), Has(Less(S0, S1, 1)), Has(Same(S5, S5)), Has(Sum(S0, S2, S3)), Has(Upper(S0, S5, PathOff::Nothing, -1)), Has(Upper(S2, S5, PathOff::Plus(S3), -1)),
];

/// Rows of both profiles.
#[rattlefmt::skip]
const EQUAL: &[Step] = &[
    New, Do(Does::Int(1, 3)), If(0, Rel::Eq, 1, Holds::Ints), Facts(6), Has(Less(S0, S1, 1)), Has(Less(S1, S0, 1)), Has(Low(S0, 1)), Has(Low(S1, 1)), Has(Rng(S0, 3, 3)), Has(Rng(S1, 3, 3)),
    New, Assume(S0, PathClaim::Range(3, 9)), Do(Does::Int(1, 3)), If(0, Rel::Ne, 1, Holds::Ints), Facts(5), Has(Less(S1, S0, 0)), Has(Low(S0, 1)), Has(Low(S1, 1)), Has(Rng(S0, 4, 9)), Has(Rng(S1, 3, 3)),
    New, Assume(S0, PathClaim::Range(3, 9)), Do(Does::Int(1, 9)), Unless(0, Rel::Eq, 1, Holds::Ints), Facts(5), Has(Less(S0, S1, 0)), Has(Low(S0, 1)), Has(Low(S1, 1)), Has(Rng(S0, 3, 8)), Has(Rng(S1, 9, 9)),
    New, Do(Does::Int(1, 3)), Do(Does::Int(0, 3)), If(0, Rel::Ne, 1, Holds::Ints), Nowhere,
    New, Do(Does::Int(1, 3)), Do(Does::Int(0, 4)), If(0, Rel::Eq, 1, Holds::Ints), Nowhere,
    New, If(5, Rel::Eq, 6, Holds::Arrays), Facts(3), Has(Same(S5, S5)), Has(Same(S5, S6)), Has(Same(S6, S6)),
    New, Unless(5, Rel::Ne, 6, Holds::Arrays), Do(Does::Length(0, 5)), Facts(7), Has(IsLen(S0, S5)), Has(IsLen(S0, S6)), Has(Low(S0, 0)), Has(Rng(S0, 0, 2147483647)), Has(Same(S5, S5)), Has(Same(S5, S6)), Has(Same(S6, S6)),
    New, Assume(S5, PathClaim::Length(3)), If(5, Rel::Eq, 6, Holds::Arrays), If(5, Rel::Ne, 6, Holds::Arrays), Facts(5), Has(LenRng(S5, 3, 2147483647)), Has(LenRng(S6, 3, 2147483647)), Has(Same(S5, S5)), Has(Same(S5, S6)), Has(Same(S6, S6)),
    New, Assume(S0, PathClaim::Search(S5)), If(0, Rel::Eq, 1, Holds::Ints), Facts(8), Has(Less(S0, S1, 1)), Has(Less(S1, S0, 1)), Has(Rng(S0, -2147483648, 2147483646)), Has(Rng(S1, -2147483648, 2147483646)), Has(Search(S0, S5)), Has(Search(S1, S5)), Has(Upper(S0, S5, PathOff::Nothing, 0)), Has(Upper(S1, S5, PathOff::Nothing, 0)),
    New, If(0, Rel::Eq, 1, Holds::Bools), Ask(Question::Count(0, 0, 0)), Facts(0),
    New, Know(IsLen(S0, S5)), If(0, Rel::Eq, 1, Holds::Ints), Facts(11), Has(IsLen(S0, S5)), Has(IsLen(S1, S5)), Has(Less(S0, S1, 1)), Has(Less(S1, S0, 1)), Has(Low(S0, 0)), Has(Low(S1, 0)), Has(Rng(S0, 0, 2147483647)), Has(Rng(S1, 0, 2147483647)), Has(Same(S5, S5)), Has(Upper(S0, S5, PathOff::Nothing, -1)), Has(Upper(S1, S5, PathOff::Nothing, -1)),
    New, Know(Neg(S0, S5)), If(0, Rel::Eq, 1, Holds::Ints), Facts(6), Has(Less(S0, S1, 1)), Has(Less(S1, S0, 1)), Has(Neg(S0, S5)), Has(Neg(S1, S5)), Has(Search(S0, S5)), Has(Search(S1, S5)),
    New, Know(Less(S0, S1, 1)), If(0, Rel::Ne, 1, Holds::Ints), Facts(3), Has(Less(S0, S1, 0)), Has(Rng(S0, -2147483648, 2147483646)), Has(Rng(S1, -2147483647, 2147483647)),
    New, Know(Less(S1, S0, 1)), If(0, Rel::Ne, 1, Holds::Ints), Facts(3), Has(Less(S1, S0, 0)), Has(Rng(S0, -2147483647, 2147483647)), Has(Rng(S1, -2147483648, 2147483646)),
    New, Know(Less(S0, S1, 2)), If(0, Rel::Ne, 1, Holds::Ints), Facts(1), Has(Less(S0, S1, 2)),
    New, Know(IsLen(S1, S5)), If(0, Rel::Eq, 1, Holds::Ints), Facts(11), Has(IsLen(S0, S5)), Has(IsLen(S1, S5)), Has(Less(S0, S1, 1)), Has(Less(S1, S0, 1)), Has(Low(S0, 0)), Has(Low(S1, 0)), Has(Rng(S0, 0, 2147483647)), Has(Rng(S1, 0, 2147483647)), Has(Same(S5, S5)), Has(Upper(S0, S5, PathOff::Nothing, -1)), Has(Upper(S1, S5, PathOff::Nothing, -1)),
    New, Know(Search(S1, S5)), If(1, Rel::Eq, 0, Holds::Ints), Facts(4), Has(Less(S0, S1, 1)), Has(Less(S1, S0, 1)), Has(Search(S0, S5)), Has(Search(S1, S5)),
    New, Know(Less(S1, S0, 2)), If(0, Rel::Ne, 1, Holds::Ints), Facts(1), Has(Less(S1, S0, 2)),
];

#[test]
fn comparisons_in_order_agree(rt: HostRuntime) {
    in_both(&rt, IN_ORDER);
}

#[test]
fn comparisons_for_equality_agree(rt: HostRuntime) {
    in_both(&rt, EQUAL);
}
