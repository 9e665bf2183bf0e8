//! What the other operations give.

use crate::after::Step::{After, End, Has, Known, New};
use crate::after::{Step, agree};
use ix_core::Fact::{IsLen, LenRng, Less, Low, Neg, Rng, Same, Search, Sum, Upper};
use ix_core::{Claim, PathOff, Profile, UnaryNum};
use ix_fact_rows::paths::{S0, S1, S2, S3, S5, S6, S7, S9F0, S9F1};
use ix_fact_rows::{Does, Holds};

/// What is known, the profile, the target, the operation and what is newly known after it.
#[rattlefmt::skip]
const OTHERS_ROWS: &[Step] = &[
    New, Known(Upper(S9F0, S6, PathOff::Plus(S0), 5)), After(Profile::Ideal, Does::Int(3, 0)), Has(Rng(S3, 0, 0)), Has(Upper(S3, S6, PathOff::Nothing, -1)), End,
    New, After(Profile::Int32, Does::Null(7)), Has(LenRng(S7, 0, 0)), Has(Same(S7, S7)), End,
    New, After(Profile::Int32, Does::Cell(3, 5, 0, &[Claim::Low(1)])), Has(Rng(S3, 1, 2147483647)), Has(Low(S3, 1)), End,
    New, Known(Upper(S9F0, S5, PathOff::Nothing, 12)), After(Profile::Int32, Does::Copy(7, 5, Holds::Arrays)), Has(Same(S5, S7)), Has(Upper(S9F0, S7, PathOff::Nothing, 12)), End,
    New, After(Profile::Ideal, Does::Row(7, 5, 0)), Has(Same(S7, S7)), End,
    New, Known(Upper(S2, S5, PathOff::Nothing, -2147483641)), After(Profile::Int32, Does::Length(1, 5)), Has(IsLen(S1, S5)), Has(Rng(S1, 0, 2147483647)), Has(Less(S2, S1, 2147483641)), End,
    New, After(Profile::Ideal, Does::Cell(3, 5, 0, &[Claim::Range(2, 7)])), Has(Rng(S3, 2, 7)), End,
    New, Known(Neg(S2, S5)), Known(Search(S2, S5)), After(Profile::Int32, Does::Copy(3, 2, Holds::Ints)), Has(Less(S3, S2, 1)), Has(Less(S2, S3, 1)), Has(Neg(S3, S5)), Has(Search(S3, S5)), End,
    New, Known(Neg(S0, S5)), Known(Search(S0, S5)), After(Profile::Int32, Does::Unary(1, UnaryNum::Flip, 0)), Has(Upper(S1, S5, PathOff::Nothing, -1)), End,
    New, Known(Less(S0, S1, -4)), After(Profile::Int32, Does::NewArray(7, 1)), Has(Same(S7, S7)), Has(IsLen(S1, S7)), Has(Upper(S0, S7, PathOff::Nothing, 4)), End,
    New, Known(LenRng(S5, 0, 8)), Known(IsLen(S2, S5)), Known(Same(S5, S5)), After(Profile::Int32, Does::NewArray(7, 2)), Has(Same(S7, S7)), Has(IsLen(S2, S7)), Has(LenRng(S7, 0, 8)), End,
    New, Known(Rng(S0, -2147483648, -2147483648)), After(Profile::Int32, Does::Unary(3, UnaryNum::Flip, 0)), Has(Rng(S3, 2147483647, 2147483647)), Has(Low(S3, 1)), Has(Less(S0, S3, -2147483648)), End,
    New, Known(Upper(S0, S9F1, PathOff::Minus(S0), 6)), After(Profile::Int32, Does::Copy(1, 0, Holds::Ints)), Has(Less(S1, S0, 1)), Has(Less(S0, S1, 1)), Has(Upper(S1, S9F1, PathOff::Minus(S0), 6)), Has(Upper(S0, S9F1, PathOff::Minus(S1), 6)), End,
    New, Known(Rng(S1, -2147483648, -2147483646)), After(Profile::Ideal, Does::Fill(7, 3)), Has(Same(S7, S7)), Has(LenRng(S7, 3, 3)), Has(Upper(S1, S7, PathOff::Nothing, 2147483647)), End,
    New, Known(Upper(S9F0, S9F1, PathOff::Nothing, 4)), Known(Rng(S1, 0, 0)), Known(Low(S1, 0)), After(Profile::Int32, Does::Unary(3, UnaryNum::Flip, 1)), Has(Rng(S3, -1, -1)), Has(Low(S3, -1)), Has(Neg(S3, S9F1)), Has(Less(S3, S1, 0)), Has(Upper(S3, S9F1, PathOff::Nothing, 0)), End,
    New, Known(IsLen(S0, S6)), Known(Same(S6, S6)), After(Profile::Int32, Does::Length(3, 6)), Has(IsLen(S3, S6)), Has(Rng(S3, 0, 2147483647)), Has(Less(S0, S3, 1)), Has(Less(S3, S0, 1)), Has(Upper(S3, S6, PathOff::Nothing, -1)), End,
    New, Known(Sum(S1, S0, S2)), After(Profile::Int32, Does::NewArray(7, 1)), Has(Same(S7, S7)), Has(IsLen(S1, S7)), Has(Upper(S0, S7, PathOff::Plus(S2), -1)), End,
    New, Known(Low(S0, 0)), Known(Less(S0, S2, -2147483646)), After(Profile::Int32, Does::Length(3, 5)), Has(IsLen(S3, S5)), Has(Rng(S3, 0, 2147483647)), Has(Less(S0, S3, 1)), Has(Less(S3, S2, 1)), End,
    New, Known(Upper(S9F0, S5, PathOff::Nothing, -1)), Known(LenRng(S5, 0, 0)), After(Profile::Ideal, Does::Copy(7, 6, Holds::Arrays)), Has(Same(S6, S7)), Has(Upper(S9F0, S7, PathOff::Nothing, -1)), End,
    New, Known(Less(S9F0, S2, -2147483645)), After(Profile::Ideal, Does::NewArray(7, 0)), Has(Same(S7, S7)), Has(IsLen(S0, S7)), End,
    New, Known(Rng(S0, -1, -1)), Known(Search(S0, S5)), Known(Low(S0, -1)), Known(Neg(S0, S5)), After(Profile::Int32, Does::Unary(1, UnaryNum::Flip, 0)), Has(Rng(S1, 0, 0)), Has(Low(S1, 0)), Has(Upper(S1, S5, PathOff::Nothing, -1)), Has(Less(S0, S1, 0)), End,
    New, Known(Rng(S2, 7, 7)), Known(LenRng(S6, 6, 6)), Known(Low(S2, 1)), After(Profile::Int32, Does::Unary(3, UnaryNum::Flip, 2)), Has(Rng(S3, -8, -8)), Has(Less(S3, S2, -14)), Has(Upper(S3, S6, PathOff::Nothing, 13)), End,
];

#[test]
fn other_operations_give_new_facts(rt: HostRuntime) {
    agree(&rt, OTHERS_ROWS);
}
