//! What the other operations give.

use crate::tables::Step::{After, Facts, Has, Known, New};
use crate::tables::{Step, agree};
use ix_core::Fact::{IsLen, LenRng, Less, Low, Neg, Rng, Same, Search, Sum, Upper};
use ix_core::{Claim, PathOff, Profile, UnaryNum};
use ix_fact_rows::Does;
use ix_fact_rows::paths::{S0, S1, S2, S3, S3F0, S5, S6, S7, S9F0, S9F1};

/// What is known, and an operation; what the six tables say after it.
#[rattlefmt::skip]
const UNARY: &[Step] = &[
    New, Known(Low(S1, 1)), Known(Upper(S1, S9F1, PathOff::Nothing, 0)), After(Profile::Int32, Does::Unary(3, UnaryNum::Flip, 1)), Facts(6), Has(Rng(S3, -2147483647, -2)), Has(Low(S1, 1)), Has(Less(S3, S1, -2)), Has(Neg(S3, S9F1)), Has(Upper(S1, S9F1, PathOff::Nothing, 0)), Has(Upper(S3, S9F1, PathOff::Nothing, 1)),
    New, Known(Less(S0, S2, -2147483648)), Known(Upper(S2, S5, PathOff::Nothing, 12)), After(Profile::Int32, Does::Unary(3, UnaryNum::Neg, 2)), Facts(5), Has(Rng(S3, -2147483634, -1)), Has(Less(S0, S2, -2147483648)), Has(Less(S3, S2, -1)), Has(Upper(S2, S5, PathOff::Nothing, 12)), Has(Upper(S3, S5, PathOff::Nothing, 0)),
    New, Known(IsLen(S0, S5)), Known(Upper(S1, S6, PathOff::Nothing, -5)), Known(Same(S5, S5)), After(Profile::Int32, Does::Unary(3, UnaryNum::Flip, 0)), Facts(8), Has(Rng(S3, -2147483648, -1)), Has(IsLen(S0, S5)), Has(Same(S5, S5)), Has(Less(S3, S0, 0)), Has(Neg(S3, S5)), Has(Upper(S1, S6, PathOff::Nothing, -5)), Has(Upper(S3, S5, PathOff::Nothing, 0)), Has(Upper(S3, S6, PathOff::Nothing, 0)),
    New, Known(Upper(S1, S9F1, PathOff::Nothing, 2147483647)), After(Profile::Int32, Does::Unary(3, UnaryNum::Neg, 1)), Facts(1), Has(Upper(S1, S9F1, PathOff::Nothing, 2147483647)),
    New, Known(Search(S2, S6)), After(Profile::Ideal, Does::Unary(3, UnaryNum::Flip, 2)), Facts(2), Has(Search(S2, S6)), Has(Upper(S3, S6, PathOff::Nothing, -1)),
    New, Known(Upper(S2, S6, PathOff::Nothing, 2147483646)), After(Profile::Int32, Does::Unary(3, UnaryNum::Flip, 2)), Facts(3), Has(Rng(S3, -1, 2147483647)), Has(Low(S3, -1)), Has(Upper(S2, S6, PathOff::Nothing, 2147483646)),
    New, Known(Upper(S0, S5, PathOff::Plus(S1), 0)), After(Profile::Int32, Does::Unary(3, UnaryNum::Flip, 0)), Facts(1), Has(Upper(S0, S5, PathOff::Plus(S1), 0)),
    New, Known(Low(S3, 1)), Known(Less(S3, S1, -2147483648)), After(Profile::Ideal, Does::Unary(3, UnaryNum::Neg, 1)), Facts(0),
    New, Known(Low(S0, 0)), Known(Less(S0, S1, -3)), Known(Upper(S0, S5, PathOff::Nothing, -1)), Known(Search(S2, S6)), Known(Neg(S2, S6)), Known(Search(S9F0, S6)), After(Profile::Ideal, Does::Unary(3, UnaryNum::Flip, 0)), Facts(12), Has(Rng(S3, -2147483644, -1)), Has(Low(S0, 0)), Has(Less(S0, S1, -3)), Has(Less(S3, S0, 0)), Has(Less(S3, S1, -4)), Has(Search(S2, S6)), Has(Neg(S2, S6)), Has(Neg(S3, S5)), Has(Search(S9F0, S6)), Has(Upper(S0, S5, PathOff::Nothing, -1)), Has(Upper(S3, S5, PathOff::Nothing, 0)), Has(Upper(S3, S6, PathOff::Nothing, 0)),
    New, Known(Rng(S1, -2147483648, 3)), Known(Low(S1, 1)), Known(Less(S1, S9F0, -3)), Known(Upper(S1, S6, PathOff::Nothing, -2)), Known(Upper(S9F0, S6, PathOff::Nothing, -2)), After(Profile::Ideal, Does::Unary(3, UnaryNum::Flip, 1)), Facts(10), Has(Rng(S1, -2147483648, 3)), Has(Rng(S3, -4, -2)), Has(Low(S1, 1)), Has(Less(S1, S9F0, -3)), Has(Less(S3, S1, -2)), Has(Less(S3, S9F0, -6)), Has(Neg(S3, S6)), Has(Upper(S1, S6, PathOff::Nothing, -2)), Has(Upper(S3, S6, PathOff::Nothing, 1)), Has(Upper(S9F0, S6, PathOff::Nothing, -2)),
    New, Known(IsLen(S2, S5)), Known(Upper(S2, S5, PathOff::Nothing, -2)), Known(Same(S5, S5)), After(Profile::Int32, Does::Unary(3, UnaryNum::Flip, 2)), Facts(7), Has(Rng(S3, -2147483648, -1)), Has(IsLen(S2, S5)), Has(Same(S5, S5)), Has(Less(S3, S2, 0)), Has(Neg(S3, S5)), Has(Upper(S2, S5, PathOff::Nothing, -2)), Has(Upper(S3, S5, PathOff::Nothing, 0)),
    New, Known(IsLen(S1, S5)), Known(Low(S2, 0)), Known(Upper(S2, S5, PathOff::Nothing, -2)), Known(Same(S5, S5)), After(Profile::Int32, Does::Unary(3, UnaryNum::Flip, 2)), Facts(8), Has(Rng(S3, -2147483648, -1)), Has(Low(S2, 0)), Has(IsLen(S1, S5)), Has(Same(S5, S5)), Has(Less(S3, S1, 0)), Has(Less(S3, S2, 0)), Has(Upper(S2, S5, PathOff::Nothing, -2)), Has(Upper(S3, S5, PathOff::Nothing, 0)),
    New, Known(Rng(S0, 3, 2147483647)), Known(Low(S0, 1)), Known(Upper(S0, S9F1, PathOff::Plus(S2), -2)), Known(Low(S2, 1)), After(Profile::Ideal, Does::Unary(3, UnaryNum::Flip, 2)), Facts(9), Has(Rng(S0, 3, 2147483647)), Has(Rng(S3, -2147483648, -2)), Has(Low(S0, 1)), Has(Low(S2, 1)), Has(Less(S3, S0, -4)), Has(Less(S3, S2, -2)), Has(Neg(S3, S9F1)), Has(Upper(S0, S9F1, PathOff::Plus(S2), -2)), Has(Upper(S3, S9F1, PathOff::Nothing, 1)),
    New, Known(Rng(S1, -3, 0)), Known(Upper(S1, S5, PathOff::Plus(S1), 3)), After(Profile::Ideal, Does::Unary(3, UnaryNum::Flip, 1)), Facts(4), Has(Rng(S1, -3, 0)), Has(Rng(S3, -1, 2)), Has(Low(S3, -1)), Has(Upper(S1, S5, PathOff::Plus(S1), 3)),
    New, Known(Low(S1, -1)), Known(Upper(S1, S9F1, PathOff::Nothing, -1)), After(Profile::Int32, Does::Unary(3, UnaryNum::Flip, 1)), Facts(4), Has(Rng(S3, -2147483648, 0)), Has(Low(S1, -1)), Has(Upper(S1, S9F1, PathOff::Nothing, -1)), Has(Upper(S3, S9F1, PathOff::Nothing, -1)),
    New, Known(Less(S1, S9F0, -2147483647)), Known(Upper(S2, S5, PathOff::Minus(S1), -2)), After(Profile::Int32, Does::Unary(3, UnaryNum::Flip, 1)), Facts(5), Has(Rng(S3, 0, 2147483647)), Has(Low(S3, 0)), Has(Less(S1, S3, 0)), Has(Less(S1, S9F0, -2147483647)), Has(Upper(S2, S5, PathOff::Minus(S1), -2)),
    New, Known(Low(S0, -1)), Known(Upper(S0, S9F1, PathOff::Nothing, 0)), Known(Less(S2, S0, -2147483647)), After(Profile::Int32, Does::Unary(3, UnaryNum::Flip, 0)), Facts(7), Has(Rng(S3, -2147483647, -1)), Has(Low(S0, -1)), Has(Less(S2, S0, -2147483647)), Has(Less(S3, S0, 0)), Has(Neg(S3, S9F1)), Has(Upper(S0, S9F1, PathOff::Nothing, 0)), Has(Upper(S3, S9F1, PathOff::Nothing, 0)),
    New, Known(Rng(S1, -3, 2)), Known(Low(S1, 1)), Known(Upper(S1, S6, PathOff::Nothing, -1)), Known(LenRng(S9F1, 3, 2147483647)), After(Profile::Int32, Does::Unary(3, UnaryNum::Flip, 1)), Facts(10), Has(Rng(S1, -3, 2)), Has(Rng(S3, -3, -2)), Has(LenRng(S9F1, 3, 2147483647)), Has(Low(S1, 1)), Has(Less(S3, S1, -2)), Has(Neg(S3, S6)), Has(Neg(S3, S9F1)), Has(Upper(S1, S6, PathOff::Nothing, -1)), Has(Upper(S3, S6, PathOff::Nothing, 1)), Has(Upper(S3, S9F1, PathOff::Nothing, 4)),
    New, Known(Low(S2, 1)), Known(Upper(S2, S9F1, PathOff::Nothing, -1)), Known(Same(S5, S5)), Known(Same(S5, S9F1)), Known(Same(S9F1, S9F1)), After(Profile::Ideal, Does::Unary(3, UnaryNum::Flip, 2)), Facts(11), Has(Rng(S3, -2147483648, -2)), Has(Low(S2, 1)), Has(Same(S5, S5)), Has(Same(S5, S9F1)), Has(Same(S9F1, S9F1)), Has(Less(S3, S2, -2)), Has(Neg(S3, S5)), Has(Neg(S3, S9F1)), Has(Upper(S2, S9F1, PathOff::Nothing, -1)), Has(Upper(S3, S5, PathOff::Nothing, 1)), Has(Upper(S3, S9F1, PathOff::Nothing, 1)),
];

/// What is known, and an operation; what the six tables say after it.
#[rattlefmt::skip]
const OTHERS: &[Step] = &[
    New, Known(Upper(S2, S6, PathOff::Nothing, 2147483646)), After(Profile::Ideal, Does::Null(7)), Facts(4), Has(LenRng(S7, 0, 0)), Has(Same(S7, S7)), Has(Upper(S2, S6, PathOff::Nothing, 2147483646)), Has(Upper(S2, S7, PathOff::Nothing, -1)),
    New, Known(Sum(S9F0, S0, S2)), After(Profile::Ideal, Does::Int(3, 2147483647)), Facts(5), Has(Rng(S3, 2147483647, 2147483647)), Has(Less(S0, S3, 1)), Has(Less(S2, S3, 1)), Has(Less(S9F0, S3, 1)), Has(Sum(S9F0, S0, S2)),
    New, Known(Less(S2, S1, -2147483647)), After(Profile::Int32, Does::True(3)), Facts(1), Has(Less(S2, S1, -2147483647)),
    New, Known(Search(S2, S6)), After(Profile::Ideal, Does::Int(3, -3)), Facts(3), Has(Rng(S3, -3, -3)), Has(Search(S2, S6)), Has(Upper(S3, S6, PathOff::Nothing, 2)),
    New, Known(IsLen(S3F0, S9F1)), Known(Same(S9F1, S9F1)), After(Profile::Ideal, Does::Int(3, -2)), Facts(3), Has(Rng(S3, -2, -2)), Has(Same(S9F1, S9F1)), Has(Upper(S3, S9F1, PathOff::Nothing, 1)),
    New, Known(LenRng(S9F1, 5, 2147483647)), After(Profile::Ideal, Does::True(3)), Facts(1), Has(LenRng(S9F1, 5, 2147483647)),
    New, Known(Search(S2, S5)), Known(Neg(S2, S5)), Known(Upper(S3, S6, PathOff::Minus(S0), -2147483648)), Known(Less(S9F0, S3F0, -4)), After(Profile::Int32, Does::True(3)), Facts(2), Has(Search(S2, S5)), Has(Neg(S2, S5)),
    New, Known(Search(S0, S5)), Known(Rng(S9F0, -3, 7)), Known(Upper(S9F0, S5, PathOff::Nothing, 3)), After(Profile::Int32, Does::Null(7)), Facts(5), Has(LenRng(S7, 0, 0)), Has(Rng(S9F0, -3, 7)), Has(Same(S7, S7)), Has(Search(S0, S5)), Has(Upper(S9F0, S5, PathOff::Nothing, 3)),
    New, Known(Upper(S1, S6, PathOff::Minus(S9F0), 2147483646)), Known(Upper(S9F0, S6, PathOff::Nothing, -3)), After(Profile::Int32, Does::Length(3, 6)), Facts(6), Has(Rng(S3, 0, 2147483647)), Has(IsLen(S3, S6)), Has(Less(S9F0, S3, 3)), Has(Upper(S1, S6, PathOff::Minus(S3), 2147483644)), Has(Upper(S1, S6, PathOff::Minus(S9F0), 2147483646)), Has(Upper(S9F0, S6, PathOff::Nothing, -3)),
    New, Known(Search(S3F0, S9F1)), After(Profile::Ideal, Does::Length(3, 5)), Facts(2), Has(Rng(S3, 0, 2147483647)), Has(IsLen(S3, S5)),
    New, Known(IsLen(S1, S5)), Known(Same(S5, S5)), After(Profile::Ideal, Does::Length(3, 5)), Facts(7), Has(Rng(S3, 0, 2147483647)), Has(IsLen(S1, S5)), Has(IsLen(S3, S5)), Has(Same(S5, S5)), Has(Less(S1, S3, 1)), Has(Less(S3, S1, 1)), Has(Upper(S3, S5, PathOff::Nothing, -1)),
    New, Known(Upper(S0, S6, PathOff::Minus(S0), 2147483647)), Known(Less(S2, S0, -2147483647)), After(Profile::Int32, Does::Length(3, 5)), Facts(5), Has(Rng(S3, 0, 2147483647)), Has(IsLen(S3, S5)), Has(Less(S2, S0, -2147483647)), Has(Less(S2, S3, 0)), Has(Upper(S0, S6, PathOff::Minus(S0), 2147483647)),
    New, Known(LenRng(S5, 10, 2147483647)), After(Profile::Int32, Does::Length(3, 5)), Facts(3), Has(Rng(S3, 10, 2147483647)), Has(LenRng(S5, 10, 2147483647)), Has(IsLen(S3, S5)),
    New, Known(Sum(S0, S2, S9F0)), Known(Search(S0, S9F1)), Known(Neg(S0, S9F1)), After(Profile::Ideal, Does::NewArray(7, 0)), Facts(6), Has(IsLen(S0, S7)), Has(Same(S7, S7)), Has(Sum(S0, S2, S9F0)), Has(Search(S0, S9F1)), Has(Neg(S0, S9F1)), Has(Upper(S2, S7, PathOff::Plus(S9F0), -1)),
    New, Known(Rng(S1, 3, 3)), Known(Low(S1, 1)), After(Profile::Ideal, Does::NewArray(7, 1)), Facts(6), Has(Rng(S1, 3, 3)), Has(LenRng(S7, 3, 3)), Has(Low(S1, 1)), Has(IsLen(S1, S7)), Has(Same(S7, S7)), Has(Upper(S1, S7, PathOff::Nothing, -1)),
    New, Known(Less(S9F0, S0, -2)), After(Profile::Int32, Does::NewArray(7, 0)), Facts(4), Has(IsLen(S0, S7)), Has(Same(S7, S7)), Has(Less(S9F0, S0, -2)), Has(Upper(S9F0, S7, PathOff::Nothing, 2)),
    New, Known(Upper(S2, S9F1, PathOff::Nothing, 2147483646)), Known(Rng(S9F0, -3, 2147483647)), After(Profile::Ideal, Does::NewArray(7, 2)), Facts(6), Has(LenRng(S7, 0, 0)), Has(Rng(S9F0, -3, 2147483647)), Has(IsLen(S2, S7)), Has(Same(S7, S7)), Has(Upper(S2, S7, PathOff::Nothing, -1)), Has(Upper(S2, S9F1, PathOff::Nothing, 2147483646)),
    New, Known(Rng(S9F0, -2147483648, -3)), After(Profile::Int32, Does::Fill(7, 3)), Facts(4), Has(LenRng(S7, 3, 3)), Has(Rng(S9F0, -2147483648, -3)), Has(Same(S7, S7)), Has(Upper(S9F0, S7, PathOff::Nothing, 5)),
    New, Known(Rng(S0, -2147483648, 3)), After(Profile::Int32, Does::Fill(7, 2)), Facts(3), Has(Rng(S0, -2147483648, 3)), Has(LenRng(S7, 2, 2)), Has(Same(S7, S7)),
    New, After(Profile::Ideal, Does::Cell(3, 5, 0, &[Claim::Range(-1, 9), Claim::Low(-1)])), Facts(2), Has(Rng(S3, -1, 9)), Has(Low(S3, -1)),
    New, Known(Search(S0, S5)), Known(Less(S1, S0, -2)), Known(Rng(S2, -3, -3)), After(Profile::Int32, Does::Cell(3, 5, 0, &[Claim::Low(-1)])), Facts(6), Has(Rng(S2, -3, -3)), Has(Rng(S3, -1, 2147483647)), Has(Low(S3, -1)), Has(Less(S1, S0, -2)), Has(Less(S2, S3, -1)), Has(Search(S0, S5)),
    New, Known(Upper(S0, S5, PathOff::Plus(S2), 2147483646)), Known(Rng(S1, -2147483648, -2147483648)), After(Profile::Int32, Does::Row(7, 5, 0)), Facts(4), Has(Rng(S1, -2147483648, -2147483648)), Has(Same(S7, S7)), Has(Upper(S0, S5, PathOff::Plus(S2), 2147483646)), Has(Upper(S1, S7, PathOff::Nothing, 2147483647)),
    New, Known(Rng(S1, 0, 1)), Known(Low(S1, 0)), Known(LenRng(S6, 7, 7)), After(Profile::Ideal, Does::Cell(3, 5, 0, &[Claim::Range(2, 6), Claim::Low(0)])), Facts(7), Has(Rng(S1, 0, 1)), Has(Rng(S3, 2, 6)), Has(LenRng(S6, 7, 7)), Has(Low(S1, 0)), Has(Low(S3, 0)), Has(Less(S1, S3, 0)), Has(Upper(S3, S6, PathOff::Nothing, 0)),
    New, After(Profile::Int32, Does::Cell(3, 5, 0, &[Claim::Low(1), Claim::Range(-3, 9)])), Facts(2), Has(Rng(S3, 1, 9)), Has(Low(S3, 1)),
    New, Known(IsLen(S3, S9F1)), Known(Same(S9F1, S9F1)), After(Profile::Int32, Does::Cell(3, 5, 0, &[Claim::Low(5), Claim::Range(-2, 8)])), Facts(2), Has(Rng(S3, 5, 8)), Has(Same(S9F1, S9F1)),
    New, Known(Less(S0, S3, 1)), Known(Upper(S9F0, S9F1, PathOff::Minus(S0), 2)), After(Profile::Ideal, Does::Cell(3, 5, 0, &[Claim::Range(-5, -3)])), Facts(3), Has(Rng(S3, -5, -3)), Has(Upper(S3, S9F1, PathOff::Nothing, 2)), Has(Upper(S9F0, S9F1, PathOff::Minus(S0), 2)),
    New, Known(Low(S1, 0)), After(Profile::Int32, Does::Cell(3, 5, 0, &[Claim::Range(0, 2)])), Facts(2), Has(Rng(S3, 0, 2)), Has(Low(S1, 0)),
    New, Known(Rng(S0, -2147483648, -2147483648)), After(Profile::Ideal, Does::Row(7, 5, 0)), Facts(3), Has(Rng(S0, -2147483648, -2147483648)), Has(Same(S7, S7)), Has(Upper(S0, S7, PathOff::Nothing, 2147483647)),
    New, Known(Less(S0, S2, -3)), Known(Less(S1, S2, -2)), Known(Rng(S2, -2, -2)), Known(Less(S9F0, S0, -2147483648)), After(Profile::Ideal, Does::Cell(3, 5, 0, &[])), Facts(4), Has(Rng(S2, -2, -2)), Has(Less(S0, S2, -3)), Has(Less(S1, S2, -2)), Has(Less(S9F0, S0, -2147483648)),
    New, Known(Upper(S2, S5, PathOff::Nothing, 1)), Known(LenRng(S5, 1, 1)), Known(Upper(S9F0, S9F1, PathOff::Minus(S9F0), 2147483646)), After(Profile::Int32, Does::Write(5, 0, 1)), Facts(3), Has(LenRng(S5, 1, 1)), Has(Upper(S2, S5, PathOff::Nothing, 1)), Has(Upper(S9F0, S9F1, PathOff::Minus(S9F0), 2147483646)),
    New, Known(Less(S9F0, S0, -3)), Known(Search(S9F0, S5)), Known(Neg(S9F0, S5)), After(Profile::Int32, Does::Print(0)), Facts(3), Has(Less(S9F0, S0, -3)), Has(Search(S9F0, S5)), Has(Neg(S9F0, S5)),
];

#[test]
fn operators_on_one_int_give_their_facts(rt: HostRuntime) {
    agree(&rt, UNARY);
}

#[test]
fn other_operations_give_their_facts(rt: HostRuntime) {
    agree(&rt, OTHERS);
}
