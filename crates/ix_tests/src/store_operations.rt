//! What operations give, one after the other.

use crate::stores::Step::{Ask, Assume, Do, Facts, Has, Know, New};
use crate::stores::{Question, Step, ideal, in_both, int32};
use ix_core::Fact::{IsLen, LenRng, Less, Low, Neg, Rng, Same, Search, Sum, Upper};
use ix_core::{Claim, PathClaim, PathOff, UnaryNum};
use ix_fact_rows::paths::{S0, S1, S2, S3, S4, S5, S6};
use ix_fact_rows::{Does, Holds};
use ix_num::Arith;

/// Rows of both profiles.
#[rattlefmt::skip]
const OF_INTS: &[Step] = &[
    New, Do(Does::Int(0, 7)), Facts(2), Has(Low(S0, 1)), Has(Rng(S0, 7, 7)),
    New, Do(Does::Int(0, -1)), Do(Does::Int(1, 0)), Facts(5), Has(Less(S0, S1, 0)), Has(Low(S0, -1)), Has(Low(S1, 0)), Has(Rng(S0, -1, -1)), Has(Rng(S1, 0, 0)),
    New, Do(Does::Int(0, 7)), Do(Does::Int(0, 8)), Facts(2), Has(Low(S0, 1)), Has(Rng(S0, 8, 8)),
    New, Do(Does::True(0)), Ask(Question::Count(0, 0, 0)), Facts(0),
    New, Assume(S0, PathClaim::Range(0, 3)), Assume(S1, PathClaim::Range(1, 2)), Do(Does::Num(2, Arith::Add, 0, 1)), Facts(11), Has(Less(S0, S2, 0)), Has(Less(S1, S2, 1)), Has(Less(S2, S0, 3)), Has(Less(S2, S1, 4)), Has(Low(S0, 0)), Has(Low(S1, 1)), Has(Low(S2, 1)), Has(Rng(S0, 0, 3)), Has(Rng(S1, 1, 2)), Has(Rng(S2, 1, 5)), Has(Sum(S2, S0, S1)),
    New, Assume(S0, PathClaim::Range(0, 3)), Do(Does::Num(1, Arith::Add, 0, 0)), Do(Does::Copy(0, 1, Holds::Ints)), Facts(6), Has(Less(S0, S1, 1)), Has(Less(S1, S0, 1)), Has(Low(S0, 0)), Has(Low(S1, 0)), Has(Rng(S0, 0, 6)), Has(Rng(S1, 0, 6)),
    New, Assume(S0, PathClaim::Low(1)), Do(Does::Num(1, Arith::Sub, 0, 0)), Facts(5), Has(Less(S1, S0, 0)), Has(Low(S0, 1)), Has(Rng(S0, 1, 2147483647)), Has(Rng(S1, -2147483646, 2147483646)), Has(Sum(S0, S0, S1)),
    New, Assume(S0, PathClaim::Range(5, 6)), Assume(S1, PathClaim::Range(1, 2)), Do(Does::Num(2, Arith::Sub, 0, 1)), Facts(10), Has(Less(S0, S2, 3)), Has(Less(S1, S2, 0)), Has(Less(S2, S0, 0)), Has(Low(S0, 1)), Has(Low(S1, 1)), Has(Low(S2, 1)), Has(Rng(S0, 5, 6)), Has(Rng(S1, 1, 2)), Has(Rng(S2, 3, 5)), Has(Sum(S0, S1, S2)),
    New, Assume(S0, PathClaim::Range(2, 3)), Assume(S1, PathClaim::Range(4, 5)), Do(Does::Num(2, Arith::Mul, 0, 1)), Facts(8), Has(Less(S0, S2, -4)), Has(Less(S1, S2, -2)), Has(Low(S0, 1)), Has(Low(S1, 1)), Has(Low(S2, 1)), Has(Rng(S0, 2, 3)), Has(Rng(S1, 4, 5)), Has(Rng(S2, 8, 15)),
    New, Assume(S0, PathClaim::Low(0)), Do(Does::Int(1, 2)), Do(Does::Num(2, Arith::Div, 0, 1)), Facts(7), Has(Less(S2, S0, 1)), Has(Low(S0, 0)), Has(Low(S1, 1)), Has(Low(S2, 0)), Has(Rng(S0, 0, 2147483647)), Has(Rng(S1, 2, 2)), Has(Rng(S2, 0, 1073741823)),
    New, Assume(S0, PathClaim::Range(0, 9)), Do(Does::Int(1, 3)), Do(Does::Num(2, Arith::Div, 0, 1)), Facts(8), Has(Less(S2, S0, 1)), Has(Less(S2, S1, 1)), Has(Low(S0, 0)), Has(Low(S1, 1)), Has(Low(S2, 0)), Has(Rng(S0, 0, 9)), Has(Rng(S1, 3, 3)), Has(Rng(S2, 0, 3)),
    New, Assume(S0, PathClaim::Low(0)), Assume(S1, PathClaim::Low(1)), Do(Does::Num(2, Arith::Rem, 0, 1)), Facts(8), Has(Less(S2, S0, 1)), Has(Less(S2, S1, 0)), Has(Low(S0, 0)), Has(Low(S1, 1)), Has(Low(S2, 0)), Has(Rng(S0, 0, 2147483647)), Has(Rng(S1, 1, 2147483647)), Has(Rng(S2, 0, 2147483646)),
    New, Assume(S0, PathClaim::Range(0, 9)), Do(Does::Int(1, 4)), Do(Does::Num(2, Arith::Rem, 0, 1)), Facts(8), Has(Less(S2, S0, 1)), Has(Less(S2, S1, 0)), Has(Low(S0, 0)), Has(Low(S1, 1)), Has(Low(S2, 0)), Has(Rng(S0, 0, 9)), Has(Rng(S1, 4, 4)), Has(Rng(S2, 0, 3)),
    New, Assume(S1, PathClaim::Low(0)), Do(Does::Num(2, Arith::And, 0, 1)), Facts(5), Has(Less(S2, S1, 1)), Has(Low(S1, 0)), Has(Low(S2, 0)), Has(Rng(S1, 0, 2147483647)), Has(Rng(S2, 0, 2147483647)),
    New, Assume(S0, PathClaim::Range(0, 6)), Assume(S1, PathClaim::Range(0, 9)), Do(Does::Num(2, Arith::Or, 0, 1)), Facts(6), Has(Low(S0, 0)), Has(Low(S1, 0)), Has(Low(S2, 0)), Has(Rng(S0, 0, 6)), Has(Rng(S1, 0, 9)), Has(Rng(S2, 0, 2147483647)),
    New, Assume(S0, PathClaim::Range(1, 6)), Assume(S1, PathClaim::Range(2, 3)), Do(Does::Num(2, Arith::Xor, 0, 1)), Facts(6), Has(Low(S0, 1)), Has(Low(S1, 1)), Has(Low(S2, 0)), Has(Rng(S0, 1, 6)), Has(Rng(S1, 2, 3)), Has(Rng(S2, 0, 2147483647)),
    New, Assume(S0, PathClaim::Range(1, 2)), Do(Does::Int(1, 3)), Do(Does::Num(2, Arith::Shl, 0, 1)), Facts(5), Has(Less(S0, S1, 0)), Has(Low(S0, 1)), Has(Low(S1, 1)), Has(Rng(S0, 1, 2)), Has(Rng(S1, 3, 3)),
    New, Assume(S0, PathClaim::Low(0)), Do(Does::Int(1, 1)), Do(Does::Num(2, Arith::Shr, 0, 1)), Facts(7), Has(Less(S2, S0, 1)), Has(Low(S0, 0)), Has(Low(S1, 1)), Has(Low(S2, 0)), Has(Rng(S0, 0, 2147483647)), Has(Rng(S1, 1, 1)), Has(Rng(S2, 0, 1073741823)),
    New, Assume(S0, PathClaim::Range(0, 9)), Do(Does::Int(1, 1)), Do(Does::Num(2, Arith::Ushr, 0, 1)), Facts(7), Has(Less(S2, S0, 1)), Has(Low(S0, 0)), Has(Low(S1, 1)), Has(Low(S2, 0)), Has(Rng(S0, 0, 9)), Has(Rng(S1, 1, 1)), Has(Rng(S2, 0, 4)),
    New, Do(Does::Int(0, 5)), Do(Does::Unary(1, UnaryNum::Neg, 0)), Do(Does::Unary(2, UnaryNum::Flip, 0)), Facts(7), Has(Less(S1, S0, -9)), Has(Less(S2, S0, -10)), Has(Less(S2, S1, 0)), Has(Low(S0, 1)), Has(Rng(S0, 5, 5)), Has(Rng(S1, -5, -5)), Has(Rng(S2, -6, -6)),
    New, Assume(S0, PathClaim::Range(-3, 4)), Do(Does::Unary(1, UnaryNum::Flip, 0)), Facts(2), Has(Rng(S0, -3, 4)), Has(Rng(S1, -5, 2)),
    New, Assume(S0, PathClaim::Search(S5)), Do(Does::Unary(1, UnaryNum::Flip, 0)), Facts(4), Has(Rng(S1, -2147483647, 2147483647)), Has(Search(S0, S5)), Has(Upper(S0, S5, PathOff::Nothing, 0)), Has(Upper(S1, S5, PathOff::Nothing, -1)),
    New, Assume(S0, PathClaim::Low(0)), Assume(S0, PathClaim::Upper(S5, PathOff::Nothing, -1)), Do(Does::Unary(1, UnaryNum::Flip, 0)), Facts(8), Has(Less(S1, S0, 0)), Has(Low(S0, 0)), Has(Neg(S1, S5)), Has(Rng(S0, 0, 2147483647)), Has(Rng(S1, -2147483648, -1)), Has(Search(S1, S5)), Has(Upper(S0, S5, PathOff::Nothing, -1)), Has(Upper(S1, S5, PathOff::Nothing, 0)),
    New, Do(Does::Int(0, -2147483648)), Do(Does::Int(1, 2147483647)), Facts(4), Has(Less(S0, S1, -2147483648)), Has(Low(S1, 1)), Has(Rng(S0, -2147483648, -2147483648)), Has(Rng(S1, 2147483647, 2147483647)),
    New, Know(Upper(S0, S5, PathOff::Minus(S1), 2)), Do(Does::Int(1, 3)), Facts(2), Has(Low(S1, 1)), Has(Rng(S1, 3, 3)),
    New, Know(Rng(S0, 1, 2)), Know(Rng(S2, 5, 6)), Do(Does::Int(1, 3)), Facts(8), Has(Less(S0, S1, 0)), Has(Less(S1, S2, -1)), Has(Low(S0, 1)), Has(Low(S1, 1)), Has(Low(S2, 1)), Has(Rng(S0, 1, 2)), Has(Rng(S1, 3, 3)), Has(Rng(S2, 5, 6)),
    New, Know(LenRng(S5, 7, 9)), Do(Does::Int(1, 3)), Facts(4), Has(LenRng(S5, 7, 9)), Has(Low(S1, 1)), Has(Rng(S1, 3, 3)), Has(Upper(S1, S5, PathOff::Nothing, 3)),
    New, Know(Low(S0, 1)), Do(Does::Int(1, 0)), Facts(4), Has(Less(S1, S0, 0)), Has(Low(S0, 1)), Has(Low(S1, 0)), Has(Rng(S1, 0, 0)),
    New, Know(Low(S0, 1)), Do(Does::Null(5)), Facts(3), Has(LenRng(S5, 0, 0)), Has(Low(S0, 1)), Has(Same(S5, S5)),
];

/// Rows of both profiles.
#[rattlefmt::skip]
const OF_ARRAYS: &[Step] = &[
    New, Do(Does::Null(5)), Do(Does::Length(0, 5)), Facts(6), Has(IsLen(S0, S5)), Has(LenRng(S5, 0, 0)), Has(Low(S0, 0)), Has(Rng(S0, 0, 0)), Has(Same(S5, S5)), Has(Upper(S0, S5, PathOff::Nothing, -1)),
    New, Do(Does::Fill(5, 3)), Do(Does::Length(0, 5)), Facts(6), Has(IsLen(S0, S5)), Has(LenRng(S5, 3, 3)), Has(Low(S0, 1)), Has(Rng(S0, 3, 3)), Has(Same(S5, S5)), Has(Upper(S0, S5, PathOff::Nothing, -1)),
    New, Do(Does::Int(0, 4)), Do(Does::NewArray(5, 0)), Facts(6), Has(IsLen(S0, S5)), Has(LenRng(S5, 4, 4)), Has(Low(S0, 1)), Has(Rng(S0, 4, 4)), Has(Same(S5, S5)), Has(Upper(S0, S5, PathOff::Nothing, -1)),
    New, Assume(S0, PathClaim::Low(0)), Do(Does::NewArray(5, 0)), Facts(4), Has(IsLen(S0, S5)), Has(Low(S0, 0)), Has(Rng(S0, 0, 2147483647)), Has(Same(S5, S5)),
    New, Assume(S0, PathClaim::Range(2, 9)), Do(Does::NewArray(5, 0)), Do(Does::Length(1, 5)), Facts(11), Has(IsLen(S0, S5)), Has(IsLen(S1, S5)), Has(LenRng(S5, 2, 9)), Has(Less(S0, S1, 1)), Has(Less(S1, S0, 1)), Has(Low(S0, 1)), Has(Low(S1, 1)), Has(Rng(S0, 2, 9)), Has(Rng(S1, 2, 9)), Has(Same(S5, S5)), Has(Upper(S1, S5, PathOff::Nothing, -1)),
    New, Do(Does::Cell(0, 5, 1, &[])), Facts(0),
    New, Do(Does::Cell(0, 5, 1, &[Claim::Low(0)])), Facts(2), Has(Low(S0, 0)), Has(Rng(S0, 0, 2147483647)),
    New, Do(Does::Cell(0, 5, 1, &[Claim::Range(-1, 1)])), Facts(2), Has(Low(S0, -1)), Has(Rng(S0, -1, 1)),
    New, Do(Does::Row(6, 5, 1)), Facts(1), Has(Same(S6, S6)),
    New, Assume(S0, PathClaim::Low(0)), Do(Does::Write(5, 0, 0)), Do(Does::Print(0)), Facts(2), Has(Low(S0, 0)), Has(Rng(S0, 0, 2147483647)),
    New, Assume(S0, PathClaim::Upper(S5, PathOff::Nothing, 0)), Do(Does::Copy(1, 0, Holds::Ints)), Do(Does::Length(2, 5)), Facts(10), Has(IsLen(S2, S5)), Has(Less(S0, S1, 1)), Has(Less(S0, S2, 0)), Has(Less(S1, S0, 1)), Has(Less(S1, S2, 0)), Has(Low(S2, 0)), Has(Rng(S2, 0, 2147483647)), Has(Same(S5, S5)), Has(Upper(S0, S5, PathOff::Nothing, 0)), Has(Upper(S1, S5, PathOff::Nothing, 0)),
    New, Do(Does::Length(0, 5)), Do(Does::Int(1, 1)), Do(Does::Num(2, Arith::Sub, 0, 1)), Facts(13), Has(IsLen(S0, S5)), Has(Less(S0, S2, 2)), Has(Less(S2, S0, 0)), Has(Low(S0, 0)), Has(Low(S1, 1)), Has(Low(S2, -1)), Has(Rng(S0, 0, 2147483647)), Has(Rng(S1, 1, 1)), Has(Rng(S2, -1, 2147483646)), Has(Same(S5, S5)), Has(Sum(S0, S1, S2)), Has(Upper(S1, S5, PathOff::Plus(S2), -1)), Has(Upper(S2, S5, PathOff::Nothing, 0)),
    New, Do(Does::Length(0, 5)), Do(Does::Int(1, 2)), Do(Does::Num(2, Arith::Div, 0, 1)), Facts(10), Has(IsLen(S0, S5)), Has(Less(S2, S0, 1)), Has(Low(S0, 0)), Has(Low(S1, 1)), Has(Low(S2, 0)), Has(Rng(S0, 0, 2147483647)), Has(Rng(S1, 2, 2)), Has(Rng(S2, 0, 1073741823)), Has(Same(S5, S5)), Has(Upper(S2, S5, PathOff::Nothing, -1)),
    New, Do(Does::Cell(0, 5, 1, &[Claim::Low(-5)])), Facts(1), Has(Rng(S0, -5, 2147483647)),
    New, Do(Does::Cell(0, 5, 1, &[Claim::Range(3, 3)])), Facts(2), Has(Low(S0, 1)), Has(Rng(S0, 3, 3)),
    New, Know(Rng(S0, 0, 3)), Do(Does::Fill(5, 5)), Facts(5), Has(LenRng(S5, 5, 5)), Has(Low(S0, 0)), Has(Rng(S0, 0, 3)), Has(Same(S5, S5)), Has(Upper(S0, S5, PathOff::Nothing, 1)),
    New, Know(Rng(S0, 0, 3)), Do(Does::Fill(5, 1)), Facts(4), Has(LenRng(S5, 1, 1)), Has(Low(S0, 0)), Has(Rng(S0, 0, 3)), Has(Same(S5, S5)),
    New, Do(Does::Length(0, 5)), Do(Does::Length(1, 5)), Do(Does::Length(2, 6)), Facts(14), Has(IsLen(S0, S5)), Has(IsLen(S1, S5)), Has(IsLen(S2, S6)), Has(Less(S0, S1, 1)), Has(Less(S1, S0, 1)), Has(Low(S0, 0)), Has(Low(S1, 0)), Has(Low(S2, 0)), Has(Rng(S0, 0, 2147483647)), Has(Rng(S1, 0, 2147483647)), Has(Rng(S2, 0, 2147483647)), Has(Same(S5, S5)), Has(Same(S6, S6)), Has(Upper(S1, S5, PathOff::Nothing, -1)),
    New, Know(Upper(S0, S5, PathOff::Nothing, 2)), Know(Upper(S3, S5, PathOff::Plus(S4), 1)), Do(Does::Length(1, 5)), Facts(7), Has(IsLen(S1, S5)), Has(Less(S0, S1, -2)), Has(Low(S1, 0)), Has(Rng(S1, 0, 2147483647)), Has(Same(S5, S5)), Has(Upper(S0, S5, PathOff::Nothing, 2)), Has(Upper(S3, S5, PathOff::Plus(S4), 1)),
];

/// Rows with ideal sums.
#[rattlefmt::skip]
const IDEAL: &[Step] = &[
    New, Assume(S0, PathClaim::Low(0)), Do(Does::Num(1, Arith::Add, 0, 0)), Facts(5), Has(Less(S0, S1, 1)), Has(Low(S0, 0)), Has(Low(S1, 0)), Has(Rng(S0, 0, 2147483647)), Has(Sum(S1, S0, S0)),
    New, Assume(S0, PathClaim::Low(0)), Assume(S1, PathClaim::Low(1)), Do(Does::Num(2, Arith::Mul, 0, 1)), Facts(6), Has(Less(S0, S2, 1)), Has(Low(S0, 0)), Has(Low(S1, 1)), Has(Low(S2, 0)), Has(Rng(S0, 0, 2147483647)), Has(Rng(S1, 1, 2147483647)),
    New, Assume(S0, PathClaim::Range(2147483647, 2147483647)), Do(Does::Int(1, 1)), Do(Does::Num(2, Arith::Add, 0, 1)), Facts(10), Has(Less(S0, S2, 0)), Has(Less(S1, S0, -2147483645)), Has(Less(S1, S2, -2147483646)), Has(Less(S2, S0, 1)), Has(Low(S0, 1)), Has(Low(S1, 1)), Has(Low(S2, 1)), Has(Rng(S0, 2147483647, 2147483647)), Has(Rng(S1, 1, 1)), Has(Sum(S2, S0, S1)),
    New, Assume(S0, PathClaim::Low(0)), Do(Does::Int(1, 1)), Do(Does::Num(2, Arith::Add, 0, 1)), Facts(9), Has(Less(S0, S2, 0)), Has(Less(S1, S2, 1)), Has(Less(S2, S0, 2)), Has(Low(S0, 0)), Has(Low(S1, 1)), Has(Low(S2, 1)), Has(Rng(S0, 0, 2147483647)), Has(Rng(S1, 1, 1)), Has(Sum(S2, S0, S1)),
];

/// The same rows with sums of 32 bits.
#[rattlefmt::skip]
const INT32: &[Step] = &[
    New, Assume(S0, PathClaim::Low(0)), Do(Does::Num(1, Arith::Add, 0, 0)), Facts(2), Has(Low(S0, 0)), Has(Rng(S0, 0, 2147483647)),
    New, Assume(S0, PathClaim::Low(0)), Assume(S1, PathClaim::Low(1)), Do(Does::Num(2, Arith::Mul, 0, 1)), Facts(4), Has(Low(S0, 0)), Has(Low(S1, 1)), Has(Rng(S0, 0, 2147483647)), Has(Rng(S1, 1, 2147483647)),
    New, Assume(S0, PathClaim::Range(2147483647, 2147483647)), Do(Does::Int(1, 1)), Do(Does::Num(2, Arith::Add, 0, 1)), Facts(6), Has(Less(S1, S0, -2147483645)), Has(Less(S2, S0, 1)), Has(Low(S0, 1)), Has(Low(S1, 1)), Has(Rng(S0, 2147483647, 2147483647)), Has(Rng(S1, 1, 1)),
    New, Assume(S0, PathClaim::Low(0)), Do(Does::Int(1, 1)), Do(Does::Num(2, Arith::Add, 0, 1)), Facts(4), Has(Low(S0, 0)), Has(Low(S1, 1)), Has(Rng(S0, 0, 2147483647)), Has(Rng(S1, 1, 1)),
];

#[test]
fn operations_of_ints_agree(rt: HostRuntime) {
    in_both(&rt, OF_INTS);
}

#[test]
fn operations_of_arrays_agree(rt: HostRuntime) {
    in_both(&rt, OF_ARRAYS);
}

#[test]
fn operations_agree_with_ideal_sums(rt: HostRuntime) {
    ideal(&rt, IDEAL);
}

#[test]
fn operations_agree_with_sums_of_32_bits(rt: HostRuntime) {
    int32(&rt, INT32);
}
