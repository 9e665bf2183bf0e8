//! Sums, differences, products and halves, with what is known of their operands.

use crate::stores::Step::{Ask, Assume, Do, Facts, Has, Know, New, Nowhere};
use crate::stores::{Question, Step, ideal, in_both, int32};
use ix_core::Fact::{IsLen, LenRng, Less, Low, Neg, Rng, Same, Search, Sum, Upper};
use ix_core::{PathClaim, PathOff, UnaryNum};
use ix_fact_rows::Does;
use ix_fact_rows::paths::{S0, S1, S2, S3, S4, S5};
use ix_num::Arith;

/// Rows of both profiles.
#[rattlefmt::skip]
const ADDED_AND_SUBTRACTED: &[Step] = &[
    New, Know(Upper(S0, S5, PathOff::Plus(S1), 3)), Know(LenRng(S5, 0, 20)), Assume(S0, PathClaim::Low(0)), Assume(S1, PathClaim::Low(0)), Do(Does::Num(2, Arith::Add, 0, 1)), Facts(14), Has(LenRng(S5, 0, 20)), Has(Less(S0, S2, 1)), Has(Less(S1, S2, 1)), Has(Low(S0, 0)), Has(Low(S1, 0)), Has(Low(S2, 0)), Has(Rng(S0, 0, 2147483647)), Has(Rng(S1, 0, 2147483647)), Has(Rng(S2, 0, 16)), Has(Sum(S2, S0, S1)), Has(Upper(S0, S5, PathOff::Plus(S1), 3)), Has(Upper(S2, S5, PathOff::Minus(S0), 3)), Has(Upper(S2, S5, PathOff::Minus(S1), 3)), Has(Upper(S2, S5, PathOff::Nothing, 3)),
    New, Know(Less(S1, S0, -4)), Assume(S1, PathClaim::Low(0)), Assume(S0, PathClaim::Range(0, 90)), Do(Does::Num(2, Arith::Sub, 0, 1)), Facts(11), Has(Less(S0, S2, 86)), Has(Less(S1, S0, -4)), Has(Less(S1, S2, 81)), Has(Less(S2, S0, 1)), Has(Low(S0, 0)), Has(Low(S1, 0)), Has(Low(S2, 1)), Has(Rng(S0, 0, 90)), Has(Rng(S1, 0, 2147483647)), Has(Rng(S2, 5, 90)), Has(Sum(S0, S1, S2)),
    New, Know(Upper(S0, S5, PathOff::Minus(S1), 3)), Know(LenRng(S5, 0, 20)), Assume(S0, PathClaim::Range(-5, 900)), Assume(S1, PathClaim::Range(0, 4)), Do(Does::Num(2, Arith::Sub, 0, 1)), Facts(12), Has(LenRng(S5, 0, 20)), Has(Less(S0, S2, 5)), Has(Less(S2, S0, 1)), Has(Low(S1, 0)), Has(Rng(S0, -5, 900)), Has(Rng(S1, 0, 4)), Has(Rng(S2, -9, 16)), Has(Sum(S0, S1, S2)), Has(Upper(S0, S5, PathOff::Minus(S1), 3)), Has(Upper(S1, S5, PathOff::Plus(S2), -1)), Has(Upper(S2, S5, PathOff::Minus(S1), 3)), Has(Upper(S2, S5, PathOff::Nothing, 3)),
    New, Know(Upper(S0, S5, PathOff::Nothing, 3)), Assume(S0, PathClaim::Range(0, 9)), Assume(S1, PathClaim::Range(-3, 4)), Do(Does::Num(2, Arith::Sub, 0, 1)), Facts(10), Has(Less(S0, S2, 5)), Has(Less(S2, S0, 4)), Has(Low(S0, 0)), Has(Rng(S0, 0, 9)), Has(Rng(S1, -3, 4)), Has(Rng(S2, -4, 12)), Has(Sum(S0, S1, S2)), Has(Upper(S0, S5, PathOff::Nothing, 3)), Has(Upper(S1, S5, PathOff::Plus(S2), 3)), Has(Upper(S2, S5, PathOff::Nothing, 0)),
    New, Know(Sum(S3, S0, S1)), Know(Less(S2, S1, 0)), Assume(S0, PathClaim::Range(0, 5)), Assume(S2, PathClaim::Range(0, 5)), Do(Does::Num(4, Arith::Add, 0, 2)), Facts(15), Has(Less(S0, S4, 1)), Has(Less(S2, S1, 0)), Has(Less(S2, S4, 1)), Has(Less(S4, S0, 6)), Has(Less(S4, S1, 5)), Has(Less(S4, S2, 6)), Has(Less(S4, S3, 0)), Has(Low(S0, 0)), Has(Low(S2, 0)), Has(Low(S4, 0)), Has(Rng(S0, 0, 5)), Has(Rng(S2, 0, 5)), Has(Rng(S4, 0, 10)), Has(Sum(S3, S0, S1)), Has(Sum(S4, S0, S2)),
    New, Know(Sum(S3, S0, S1)), Know(Less(S1, S2, 1)), Assume(S0, PathClaim::Range(0, 5)), Assume(S2, PathClaim::Range(0, 5)), Do(Does::Num(4, Arith::Add, 0, 2)), Facts(15), Has(Less(S0, S4, 1)), Has(Less(S1, S2, 1)), Has(Less(S1, S4, 1)), Has(Less(S2, S4, 1)), Has(Less(S3, S4, 1)), Has(Less(S4, S0, 6)), Has(Less(S4, S2, 6)), Has(Low(S0, 0)), Has(Low(S2, 0)), Has(Low(S4, 0)), Has(Rng(S0, 0, 5)), Has(Rng(S2, 0, 5)), Has(Rng(S4, 0, 10)), Has(Sum(S3, S0, S1)), Has(Sum(S4, S0, S2)),
    New, Know(Sum(S3, S0, S1)), Know(Less(S1, S0, 1)), Assume(S0, PathClaim::Range(0, 5)), Do(Does::Num(4, Arith::Add, 0, 0)), Facts(11), Has(Less(S0, S4, 1)), Has(Less(S1, S0, 1)), Has(Less(S1, S4, 1)), Has(Less(S3, S4, 1)), Has(Less(S4, S0, 6)), Has(Low(S0, 0)), Has(Low(S4, 0)), Has(Rng(S0, 0, 5)), Has(Rng(S4, 0, 10)), Has(Sum(S3, S0, S1)), Has(Sum(S4, S0, S0)),
    New, Assume(S0, PathClaim::Range(0, 5)), Know(Less(S0, S1, 1)), Assume(S1, PathClaim::Range(0, 9)), Do(Does::Num(2, Arith::Add, 0, 1)), Do(Does::Int(3, 2)), Do(Does::Num(4, Arith::Div, 2, 3)), Facts(21), Has(Less(S0, S1, 1)), Has(Less(S0, S2, 1)), Has(Less(S0, S4, 1)), Has(Less(S1, S2, 1)), Has(Less(S2, S0, 10)), Has(Less(S2, S1, 6)), Has(Less(S2, S4, 10)), Has(Less(S4, S0, 10)), Has(Less(S4, S1, 1)), Has(Less(S4, S2, 1)), Has(Low(S0, 0)), Has(Low(S1, 0)), Has(Low(S2, 0)), Has(Low(S3, 1)), Has(Low(S4, 0)), Has(Rng(S0, 0, 5)), Has(Rng(S1, 0, 9)), Has(Rng(S2, 0, 14)), Has(Rng(S3, 2, 2)), Has(Rng(S4, 0, 7)), Has(Sum(S2, S0, S1)),
    New, Know(Less(S0, S1, -4)), Assume(S0, PathClaim::Range(0, 90)), Assume(S1, PathClaim::Range(0, 90)), Do(Does::Num(2, Arith::Sub, 0, 1)), Facts(10), Has(Less(S0, S1, -4)), Has(Less(S0, S2, 91)), Has(Less(S2, S0, -4)), Has(Less(S2, S1, -9)), Has(Low(S0, 0)), Has(Low(S1, 0)), Has(Rng(S0, 0, 90)), Has(Rng(S1, 0, 90)), Has(Rng(S2, -90, -5)), Has(Sum(S0, S1, S2)),
    New, Know(Less(S0, S1, 2)), Assume(S0, PathClaim::Range(0, 90)), Assume(S1, PathClaim::Range(0, 90)), Do(Does::Num(2, Arith::Sub, 0, 1)), Facts(10), Has(Less(S0, S1, 2)), Has(Less(S0, S2, 91)), Has(Less(S2, S0, 1)), Has(Less(S2, S1, 2)), Has(Low(S0, 0)), Has(Low(S1, 0)), Has(Rng(S0, 0, 90)), Has(Rng(S1, 0, 90)), Has(Rng(S2, -90, 1)), Has(Sum(S0, S1, S2)),
    New, Know(Sum(S3, S1, S0)), Know(Less(S2, S1, 0)), Assume(S0, PathClaim::Range(0, 5)), Assume(S2, PathClaim::Range(0, 5)), Do(Does::Num(4, Arith::Add, 0, 2)), Facts(15), Has(Less(S0, S4, 1)), Has(Less(S2, S1, 0)), Has(Less(S2, S4, 1)), Has(Less(S4, S0, 6)), Has(Less(S4, S1, 5)), Has(Less(S4, S2, 6)), Has(Less(S4, S3, 0)), Has(Low(S0, 0)), Has(Low(S2, 0)), Has(Low(S4, 0)), Has(Rng(S0, 0, 5)), Has(Rng(S2, 0, 5)), Has(Rng(S4, 0, 10)), Has(Sum(S3, S0, S1)), Has(Sum(S4, S0, S2)),
    New, Assume(S0, PathClaim::Range(3, 9)), Assume(S1, PathClaim::Low(0)), Do(Does::Num(2, Arith::Sub, 0, 1)), Do(Does::Int(3, 4)), Facts(9), Has(Less(S2, S0, 1)), Has(Low(S0, 1)), Has(Low(S1, 0)), Has(Low(S3, 1)), Has(Rng(S0, 3, 9)), Has(Rng(S1, 0, 2147483647)), Has(Rng(S2, -2147483644, 9)), Has(Rng(S3, 4, 4)), Has(Sum(S0, S1, S2)),
];

/// Rows of both profiles.
#[rattlefmt::skip]
const OTHERS: &[Step] = &[
    New, Know(Sum(S2, S0, S1)), Know(Less(S1, S0, 1)), Assume(S2, PathClaim::Low(0)), Do(Does::Int(3, 1)), Do(Does::Num(4, Arith::Shr, 2, 3)), Facts(11), Has(Less(S1, S0, 1)), Has(Less(S1, S4, 1)), Has(Less(S4, S0, 1)), Has(Less(S4, S2, 1)), Has(Low(S2, 0)), Has(Low(S3, 1)), Has(Low(S4, 0)), Has(Rng(S2, 0, 2147483647)), Has(Rng(S3, 1, 1)), Has(Rng(S4, 0, 1073741823)), Has(Sum(S2, S0, S1)),
    New, Know(Sum(S2, S0, S1)), Know(Less(S0, S1, 2)), Assume(S2, PathClaim::Low(0)), Do(Does::Int(3, 1)), Do(Does::Num(4, Arith::Shr, 2, 3)), Facts(9), Has(Less(S0, S1, 2)), Has(Less(S4, S2, 1)), Has(Low(S2, 0)), Has(Low(S3, 1)), Has(Low(S4, 0)), Has(Rng(S2, 0, 2147483647)), Has(Rng(S3, 1, 1)), Has(Rng(S4, 0, 1073741823)), Has(Sum(S2, S0, S1)),
    New, Know(Sum(S2, S0, S1)), Know(Less(S0, S1, 0)), Assume(S2, PathClaim::Range(-1, 9)), Do(Does::Int(3, 1)), Do(Does::Num(4, Arith::Shr, 2, 3)), Facts(8), Has(Less(S0, S1, 0)), Has(Low(S2, -1)), Has(Low(S3, 1)), Has(Low(S4, -1)), Has(Rng(S2, -1, 9)), Has(Rng(S3, 1, 1)), Has(Rng(S4, -1, 4)), Has(Sum(S2, S0, S1)),
    New, Know(Sum(S2, S0, S1)), Know(Less(S0, S1, 0)), Assume(S2, PathClaim::Low(0)), Do(Does::Int(3, 3)), Do(Does::Num(4, Arith::Div, 2, 3)), Facts(9), Has(Less(S0, S1, 0)), Has(Less(S4, S2, 1)), Has(Low(S2, 0)), Has(Low(S3, 1)), Has(Low(S4, 0)), Has(Rng(S2, 0, 2147483647)), Has(Rng(S3, 3, 3)), Has(Rng(S4, 0, 715827882)), Has(Sum(S2, S0, S1)),
    New, Assume(S0, PathClaim::Range(1, 9)), Do(Does::Int(1, 2)), Do(Does::Num(2, Arith::Div, 0, 1)), Facts(7), Has(Less(S2, S0, 0)), Has(Low(S0, 1)), Has(Low(S1, 1)), Has(Low(S2, 0)), Has(Rng(S0, 1, 9)), Has(Rng(S1, 2, 2)), Has(Rng(S2, 0, 4)),
    New, Assume(S0, PathClaim::Range(0, 9)), Do(Does::Int(1, 2)), Do(Does::Num(2, Arith::Div, 0, 1)), Facts(7), Has(Less(S2, S0, 1)), Has(Low(S0, 0)), Has(Low(S1, 1)), Has(Low(S2, 0)), Has(Rng(S0, 0, 9)), Has(Rng(S1, 2, 2)), Has(Rng(S2, 0, 4)),
    New, Assume(S0, PathClaim::Low(1)), Do(Does::Int(1, 1)), Do(Does::Num(2, Arith::Div, 0, 1)), Facts(9), Has(Less(S1, S0, 1)), Has(Less(S1, S2, 1)), Has(Less(S2, S0, 1)), Has(Low(S0, 1)), Has(Low(S1, 1)), Has(Low(S2, 1)), Has(Rng(S0, 1, 2147483647)), Has(Rng(S1, 1, 1)), Has(Rng(S2, 1, 2147483647)),
    New, Assume(S0, PathClaim::Low(0)), Assume(S1, PathClaim::Low(0)), Do(Does::Num(2, Arith::Div, 0, 1)), Facts(7), Has(Less(S2, S0, 1)), Has(Low(S0, 0)), Has(Low(S1, 0)), Has(Low(S2, 0)), Has(Rng(S0, 0, 2147483647)), Has(Rng(S1, 0, 2147483647)), Has(Rng(S2, 0, 2147483647)),
    New, Assume(S0, PathClaim::Low(0)), Assume(S1, PathClaim::Range(-1, 3)), Do(Does::Num(2, Arith::Rem, 0, 1)), Facts(7), Has(Less(S2, S0, 1)), Has(Low(S0, 0)), Has(Low(S1, -1)), Has(Low(S2, 0)), Has(Rng(S0, 0, 2147483647)), Has(Rng(S1, -1, 3)), Has(Rng(S2, 0, 2)),
    New, Assume(S0, PathClaim::Range(-1, 3)), Assume(S1, PathClaim::Low(0)), Do(Does::Num(2, Arith::Rem, 0, 1)), Facts(7), Has(Less(S2, S1, 0)), Has(Low(S0, -1)), Has(Low(S1, 0)), Has(Low(S2, -1)), Has(Rng(S0, -1, 3)), Has(Rng(S1, 0, 2147483647)), Has(Rng(S2, -1, 3)),
    New, Assume(S0, PathClaim::Low(-1)), Assume(S1, PathClaim::Low(0)), Do(Does::Num(2, Arith::And, 0, 1)), Facts(7), Has(Less(S2, S1, 1)), Has(Low(S0, -1)), Has(Low(S1, 0)), Has(Low(S2, 0)), Has(Rng(S0, -1, 2147483647)), Has(Rng(S1, 0, 2147483647)), Has(Rng(S2, 0, 2147483647)),
    New, Assume(S0, PathClaim::Low(0)), Assume(S1, PathClaim::Low(-1)), Do(Does::Num(2, Arith::And, 0, 1)), Facts(7), Has(Less(S2, S0, 1)), Has(Low(S0, 0)), Has(Low(S1, -1)), Has(Low(S2, 0)), Has(Rng(S0, 0, 2147483647)), Has(Rng(S1, -1, 2147483647)), Has(Rng(S2, 0, 2147483647)),
    New, Assume(S0, PathClaim::Low(0)), Assume(S1, PathClaim::Range(0, 3)), Do(Does::Num(2, Arith::Shr, 0, 1)), Facts(7), Has(Less(S2, S0, 1)), Has(Low(S0, 0)), Has(Low(S1, 0)), Has(Low(S2, 0)), Has(Rng(S0, 0, 2147483647)), Has(Rng(S1, 0, 3)), Has(Rng(S2, 0, 2147483647)),
    New, Assume(S0, PathClaim::Low(-1)), Assume(S1, PathClaim::Range(0, 3)), Do(Does::Num(2, Arith::Shr, 0, 1)), Facts(6), Has(Low(S0, -1)), Has(Low(S1, 0)), Has(Low(S2, -1)), Has(Rng(S0, -1, 2147483647)), Has(Rng(S1, 0, 3)), Has(Rng(S2, -1, 2147483647)),
    New, Assume(S0, PathClaim::Low(0)), Assume(S0, PathClaim::Upper(S5, PathOff::Nothing, -1)), Do(Does::Unary(1, UnaryNum::Flip, 0)), Facts(8), Has(Less(S1, S0, 0)), Has(Low(S0, 0)), Has(Neg(S1, S5)), Has(Rng(S0, 0, 2147483647)), Has(Rng(S1, -2147483648, -1)), Has(Search(S1, S5)), Has(Upper(S0, S5, PathOff::Nothing, -1)), Has(Upper(S1, S5, PathOff::Nothing, 0)),
    New, Assume(S0, PathClaim::Low(0)), Assume(S0, PathClaim::Upper(S5, PathOff::Nothing, -2)), Do(Does::Unary(1, UnaryNum::Flip, 0)), Facts(6), Has(Less(S1, S0, 0)), Has(Low(S0, 0)), Has(Rng(S0, 0, 2147483647)), Has(Rng(S1, -2147483648, -1)), Has(Upper(S0, S5, PathOff::Nothing, -2)), Has(Upper(S1, S5, PathOff::Nothing, 0)),
    New, Assume(S0, PathClaim::Low(-1)), Assume(S0, PathClaim::Upper(S5, PathOff::Nothing, -1)), Do(Does::Unary(1, UnaryNum::Flip, 0)), Facts(5), Has(Low(S0, -1)), Has(Rng(S0, -1, 2147483647)), Has(Rng(S1, -2147483648, 0)), Has(Upper(S0, S5, PathOff::Nothing, -1)), Has(Upper(S1, S5, PathOff::Nothing, -1)),
    New, Assume(S0, PathClaim::Low(1)), Do(Does::Unary(1, UnaryNum::Neg, 0)), Facts(4), Has(Less(S1, S0, -1)), Has(Low(S0, 1)), Has(Rng(S0, 1, 2147483647)), Has(Rng(S1, -2147483647, -1)),
    New, Know(Less(S0, S1, -2)), Do(Does::NewArray(5, 1)), Facts(4), Has(IsLen(S1, S5)), Has(Less(S0, S1, -2)), Has(Same(S5, S5)), Has(Upper(S0, S5, PathOff::Nothing, 2)),
    New, Know(Sum(S1, S0, S2)), Do(Does::NewArray(5, 1)), Facts(4), Has(IsLen(S1, S5)), Has(Same(S5, S5)), Has(Sum(S1, S0, S2)), Has(Upper(S0, S5, PathOff::Plus(S2), -1)),
    New, Know(Sum(S1, S0, S2)), Assume(S1, PathClaim::Low(0)), Do(Does::NewArray(5, 1)), Do(Does::Length(3, 5)), Facts(12), Has(IsLen(S1, S5)), Has(IsLen(S3, S5)), Has(Less(S1, S3, 1)), Has(Less(S3, S1, 1)), Has(Low(S1, 0)), Has(Low(S3, 0)), Has(Rng(S1, 0, 2147483647)), Has(Rng(S3, 0, 2147483647)), Has(Same(S5, S5)), Has(Sum(S1, S0, S2)), Has(Upper(S0, S5, PathOff::Plus(S2), -1)), Has(Upper(S3, S5, PathOff::Nothing, -1)),
    New, Assume(S0, PathClaim::Range(-4, 3)), Do(Does::NewArray(5, 0)), Facts(4), Has(IsLen(S0, S5)), Has(LenRng(S5, 0, 3)), Has(Rng(S0, -4, 3)), Has(Same(S5, S5)),
    New, Assume(S0, PathClaim::Range(-4, -3)), Do(Does::NewArray(5, 0)), Nowhere,
    New, Know(Rng(S0, 0, 4)), Do(Does::Fill(5, 4)), Facts(5), Has(LenRng(S5, 4, 4)), Has(Low(S0, 0)), Has(Rng(S0, 0, 4)), Has(Same(S5, S5)), Has(Upper(S0, S5, PathOff::Nothing, -1)),
    New, Know(Rng(S0, 0, 5)), Do(Does::Fill(5, 4)), Facts(4), Has(LenRng(S5, 4, 4)), Has(Low(S0, 0)), Has(Rng(S0, 0, 5)), Has(Same(S5, S5)),
];

/// Rows with ideal sums.
#[rattlefmt::skip]
const IDEAL: &[Step] = &[
    New, Know(Upper(S0, S5, PathOff::Plus(S1), 3)), Know(LenRng(S5, 0, 20)), Do(Does::Num(2, Arith::Add, 0, 1)), Facts(6), Has(LenRng(S5, 0, 20)), Has(Sum(S2, S0, S1)), Has(Upper(S0, S5, PathOff::Plus(S1), 3)), Has(Upper(S2, S5, PathOff::Minus(S0), -2147483645)), Has(Upper(S2, S5, PathOff::Minus(S1), -2147483645)), Has(Upper(S2, S5, PathOff::Nothing, 3)),
    New, Know(Less(S1, S0, -4)), Do(Does::Num(2, Arith::Sub, 0, 1)), Facts(5), Has(Less(S0, S2, 2147483643)), Has(Less(S1, S0, -4)), Has(Less(S1, S2, 2147483638)), Has(Low(S2, 1)), Has(Sum(S0, S1, S2)),
    New, Know(Less(S0, S1, -4)), Do(Does::Num(2, Arith::Sub, 0, 1)), Facts(4), Has(Less(S0, S1, -4)), Has(Less(S2, S0, 2147483644)), Has(Less(S2, S1, 2147483639)), Has(Sum(S0, S1, S2)),
    New, Know(Upper(S0, S5, PathOff::Minus(S1), 3)), Know(LenRng(S5, 0, 20)), Do(Does::Num(2, Arith::Sub, 0, 1)), Facts(5), Has(LenRng(S5, 0, 20)), Has(Sum(S0, S1, S2)), Has(Upper(S0, S5, PathOff::Minus(S1), 3)), Has(Upper(S1, S5, PathOff::Plus(S2), -2147483644)), Has(Upper(S2, S5, PathOff::Nothing, 3)),
    New, Assume(S0, PathClaim::Low(0)), Assume(S1, PathClaim::Low(0)), Know(Less(S0, S1, 0)), Do(Does::Num(2, Arith::Add, 0, 1)), Do(Does::Int(3, 1)), Do(Does::Num(4, Arith::Ushr, 2, 3)), Facts(19), Has(Less(S0, S1, 0)), Has(Less(S0, S2, 0)), Has(Less(S0, S4, 1)), Has(Less(S1, S2, 1)), Has(Less(S2, S1, 2147483647)), Has(Less(S3, S1, 1)), Has(Less(S3, S2, 1)), Has(Less(S4, S1, 0)), Has(Less(S4, S2, 0)), Has(Low(S0, 0)), Has(Low(S1, 0)), Has(Low(S2, 1)), Has(Low(S3, 1)), Has(Low(S4, 0)), Has(Rng(S0, 0, 2147483647)), Has(Rng(S1, 0, 2147483647)), Has(Rng(S3, 1, 1)), Has(Rng(S4, 0, 1073741823)), Has(Sum(S2, S0, S1)),
    New, Assume(S0, PathClaim::Range(1, 9)), Assume(S1, PathClaim::Low(0)), Do(Does::Num(2, Arith::Mul, 0, 1)), Facts(6), Has(Less(S1, S2, 1)), Has(Low(S0, 1)), Has(Low(S1, 0)), Has(Low(S2, 0)), Has(Rng(S0, 1, 9)), Has(Rng(S1, 0, 2147483647)),
    New, Assume(S0, PathClaim::Low(1)), Assume(S1, PathClaim::Range(0, 9)), Do(Does::Num(2, Arith::Mul, 0, 1)), Ask(Question::Less(S1, S2, Some(1))), Facts(6), Has(Less(S1, S2, 1)), Has(Low(S0, 1)), Has(Low(S1, 0)), Has(Low(S2, 0)), Has(Rng(S0, 1, 2147483647)), Has(Rng(S1, 0, 9)),
    New, Assume(S0, PathClaim::Low(1)), Assume(S1, PathClaim::Low(1)), Do(Does::Num(2, Arith::Add, 0, 1)), Facts(8), Has(Less(S0, S2, 0)), Has(Less(S1, S2, 0)), Has(Low(S0, 1)), Has(Low(S1, 1)), Has(Low(S2, 1)), Has(Rng(S0, 1, 2147483647)), Has(Rng(S1, 1, 2147483647)), Has(Sum(S2, S0, S1)),
    New, Assume(S0, PathClaim::Low(1)), Assume(S1, PathClaim::Low(-1)), Do(Does::Num(2, Arith::Add, 0, 1)), Facts(8), Has(Less(S0, S2, 2)), Has(Less(S1, S2, 0)), Has(Low(S0, 1)), Has(Low(S1, -1)), Has(Low(S2, 0)), Has(Rng(S0, 1, 2147483647)), Has(Rng(S1, -1, 2147483647)), Has(Sum(S2, S0, S1)),
    New, Assume(S0, PathClaim::Range(2147483646, 2147483647)), Assume(S1, PathClaim::Range(1, 2)), Do(Does::Num(2, Arith::Add, 0, 1)), Facts(9), Has(Less(S0, S2, 0)), Has(Less(S1, S2, -2147483645)), Has(Less(S2, S0, 3)), Has(Low(S0, 1)), Has(Low(S1, 1)), Has(Low(S2, 1)), Has(Rng(S0, 2147483646, 2147483647)), Has(Rng(S1, 1, 2)), Has(Sum(S2, S0, S1)),
    New, Do(Does::Int(0, -2147483648)), Do(Does::Unary(1, UnaryNum::Neg, 0)), Facts(3), Has(Less(S0, S1, -2147483648)), Has(Low(S1, 1)), Has(Rng(S0, -2147483648, -2147483648)),
    New, Do(Does::Length(0, 5)), Assume(S1, PathClaim::Range(0, 3)), Do(Does::Num(2, Arith::Add, 0, 1)), Do(Does::Num(3, Arith::Sub, 0, 1)), Facts(23), Has(IsLen(S0, S5)), Has(Less(S0, S2, 1)), Has(Less(S0, S3, 4)), Has(Less(S1, S2, 1)), Has(Less(S2, S0, 4)), Has(Less(S2, S3, 7)), Has(Less(S3, S0, 1)), Has(Less(S3, S2, 1)), Has(Low(S0, 0)), Has(Low(S1, 0)), Has(Low(S2, 0)), Has(Rng(S0, 0, 2147483647)), Has(Rng(S1, 0, 3)), Has(Rng(S3, -3, 2147483647)), Has(Same(S5, S5)), Has(Sum(S0, S1, S3)), Has(Sum(S2, S0, S1)), Has(Upper(S1, S5, PathOff::Plus(S3), -1)), Has(Upper(S2, S5, PathOff::Minus(S0), -4)), Has(Upper(S2, S5, PathOff::Minus(S1), -1)), Has(Upper(S2, S5, PathOff::Minus(S3), -7)), Has(Upper(S2, S5, PathOff::Nothing, -4)), Has(Upper(S3, S5, PathOff::Nothing, -1)),
    New, Know(Rng(S3, -5, 0)), Assume(S0, PathClaim::Low(1)), Assume(S1, PathClaim::Low(1)), Do(Does::Num(2, Arith::Add, 0, 1)), Facts(10), Has(Less(S0, S2, 0)), Has(Less(S1, S2, 0)), Has(Less(S3, S2, 0)), Has(Low(S0, 1)), Has(Low(S1, 1)), Has(Low(S2, 1)), Has(Rng(S0, 1, 2147483647)), Has(Rng(S1, 1, 2147483647)), Has(Rng(S3, -5, 0)), Has(Sum(S2, S0, S1)),
];

/// The same rows with sums of 32 bits.
#[rattlefmt::skip]
const INT32: &[Step] = &[
    New, Know(Upper(S0, S5, PathOff::Plus(S1), 3)), Know(LenRng(S5, 0, 20)), Do(Does::Num(2, Arith::Add, 0, 1)), Facts(2), Has(LenRng(S5, 0, 20)), Has(Upper(S0, S5, PathOff::Plus(S1), 3)),
    New, Know(Less(S1, S0, -4)), Do(Does::Num(2, Arith::Sub, 0, 1)), Facts(1), Has(Less(S1, S0, -4)),
    New, Know(Less(S0, S1, -4)), Do(Does::Num(2, Arith::Sub, 0, 1)), Facts(1), Has(Less(S0, S1, -4)),
    New, Know(Upper(S0, S5, PathOff::Minus(S1), 3)), Know(LenRng(S5, 0, 20)), Do(Does::Num(2, Arith::Sub, 0, 1)), Facts(2), Has(LenRng(S5, 0, 20)), Has(Upper(S0, S5, PathOff::Minus(S1), 3)),
    New, Assume(S0, PathClaim::Low(0)), Assume(S1, PathClaim::Low(0)), Know(Less(S0, S1, 0)), Do(Does::Num(2, Arith::Add, 0, 1)), Do(Does::Int(3, 1)), Do(Does::Num(4, Arith::Ushr, 2, 3)), Facts(10), Has(Less(S0, S1, 0)), Has(Less(S3, S1, 1)), Has(Low(S0, 0)), Has(Low(S1, 0)), Has(Low(S3, 1)), Has(Low(S4, 0)), Has(Rng(S0, 0, 2147483647)), Has(Rng(S1, 0, 2147483647)), Has(Rng(S3, 1, 1)), Has(Rng(S4, 0, 2147483647)),
    New, Assume(S0, PathClaim::Range(1, 9)), Assume(S1, PathClaim::Low(0)), Do(Does::Num(2, Arith::Mul, 0, 1)), Facts(4), Has(Low(S0, 1)), Has(Low(S1, 0)), Has(Rng(S0, 1, 9)), Has(Rng(S1, 0, 2147483647)),
    New, Assume(S0, PathClaim::Low(1)), Assume(S1, PathClaim::Range(0, 9)), Do(Does::Num(2, Arith::Mul, 0, 1)), Ask(Question::Less(S1, S2, Some(2147483658))), Facts(4), Has(Low(S0, 1)), Has(Low(S1, 0)), Has(Rng(S0, 1, 2147483647)), Has(Rng(S1, 0, 9)),
    New, Assume(S0, PathClaim::Low(1)), Assume(S1, PathClaim::Low(1)), Do(Does::Num(2, Arith::Add, 0, 1)), Facts(4), Has(Low(S0, 1)), Has(Low(S1, 1)), Has(Rng(S0, 1, 2147483647)), Has(Rng(S1, 1, 2147483647)),
    New, Assume(S0, PathClaim::Low(1)), Assume(S1, PathClaim::Low(-1)), Do(Does::Num(2, Arith::Add, 0, 1)), Facts(4), Has(Low(S0, 1)), Has(Low(S1, -1)), Has(Rng(S0, 1, 2147483647)), Has(Rng(S1, -1, 2147483647)),
    New, Assume(S0, PathClaim::Range(2147483646, 2147483647)), Assume(S1, PathClaim::Range(1, 2)), Do(Does::Num(2, Arith::Add, 0, 1)), Facts(4), Has(Low(S0, 1)), Has(Low(S1, 1)), Has(Rng(S0, 2147483646, 2147483647)), Has(Rng(S1, 1, 2)),
    New, Do(Does::Int(0, -2147483648)), Do(Does::Unary(1, UnaryNum::Neg, 0)), Facts(2), Has(Less(S0, S1, 1)), Has(Rng(S0, -2147483648, -2147483648)),
    New, Do(Does::Length(0, 5)), Assume(S1, PathClaim::Range(0, 3)), Do(Does::Num(2, Arith::Add, 0, 1)), Do(Does::Num(3, Arith::Sub, 0, 1)), Facts(12), Has(IsLen(S0, S5)), Has(Less(S0, S3, 4)), Has(Less(S3, S0, 1)), Has(Low(S0, 0)), Has(Low(S1, 0)), Has(Rng(S0, 0, 2147483647)), Has(Rng(S1, 0, 3)), Has(Rng(S3, -3, 2147483647)), Has(Same(S5, S5)), Has(Sum(S0, S1, S3)), Has(Upper(S1, S5, PathOff::Plus(S3), -1)), Has(Upper(S3, S5, PathOff::Nothing, -1)),
    New, Know(Rng(S3, -5, 0)), Assume(S0, PathClaim::Low(1)), Assume(S1, PathClaim::Low(1)), Do(Does::Num(2, Arith::Add, 0, 1)), Facts(5), Has(Low(S0, 1)), Has(Low(S1, 1)), Has(Rng(S0, 1, 2147483647)), Has(Rng(S1, 1, 2147483647)), Has(Rng(S3, -5, 0)),
];

#[test]
fn sums_and_differences_agree(rt: HostRuntime) {
    in_both(&rt, ADDED_AND_SUBTRACTED);
}

#[test]
fn other_operators_agree(rt: HostRuntime) {
    in_both(&rt, OTHERS);
}

#[test]
fn sums_agree_with_ideal_sums(rt: HostRuntime) {
    ideal(&rt, IDEAL);
}

#[test]
fn sums_agree_with_sums_of_32_bits(rt: HostRuntime) {
    int32(&rt, INT32);
}
