//! What operators give.

use crate::after::Step::{After, End, Has, Known, New};
use crate::after::{Step, agree};
use ix_core::Fact::{IsLen, Less, Low, Rng, Same, Sum, Upper};
use ix_core::{PathOff, Profile};
use ix_fact_rows::Does;
use ix_fact_rows::paths::{S0, S1, S2, S3, S5, S6, S9F0, S9F1};
use ix_num::Arith;

/// What is known, the profile, the target, the operation and what is newly known after it.
#[rattlefmt::skip]
const OPERATORS_ROWS: &[Step] = &[
    New, After(Profile::Int32, Does::Num(3, Arith::Add, 0, 0)), End,
    New, Known(Rng(S1, -1, -1)), Known(Low(S1, -1)), After(Profile::Ideal, Does::Num(3, Arith::Sub, 2, 1)), Has(Sum(S2, S1, S3)), Has(Less(S3, S2, 2)), Has(Less(S2, S3, 0)), End,
    New, Known(Rng(S2, 1, 1)), Known(Sum(S0, S9F0, S1)), Known(Low(S0, 0)), Known(Less(S1, S9F0, 1)), Known(Low(S2, 1)), After(Profile::Ideal, Does::Num(3, Arith::Ushr, 0, 2)), Has(Rng(S3, 0, 1073741823)), Has(Low(S3, 0)), Has(Less(S3, S0, 1)), Has(Less(S1, S3, 1)), Has(Less(S3, S9F0, 1)), End,
    New, Known(Upper(S2, S5, PathOff::Nothing, -5)), After(Profile::Ideal, Does::Num(3, Arith::Sub, 2, 0)), Has(Sum(S2, S0, S3)), Has(Upper(S0, S5, PathOff::Plus(S3), -5)), End,
    New, Known(Rng(S2, 2, 2)), Known(Sum(S0, S9F0, S1)), Known(Low(S0, 0)), Known(Less(S1, S9F0, 0)), Known(Less(S9F0, S1, 3)), Known(Low(S2, 1)), After(Profile::Ideal, Does::Num(3, Arith::Div, 0, 2)), Has(Rng(S3, 0, 1073741823)), Has(Low(S3, 0)), Has(Less(S3, S0, 1)), Has(Less(S1, S3, 1)), Has(Less(S3, S9F0, 0)), Has(Less(S9F0, S3, 3)), Has(Less(S3, S1, 2)), End,
    New, Known(Upper(S0, S9F1, PathOff::Nothing, 1073741821)), After(Profile::Ideal, Does::Num(3, Arith::Sub, 0, 1)), Has(Sum(S0, S1, S3)), Has(Upper(S1, S9F1, PathOff::Plus(S3), 1073741821)), Has(Upper(S3, S9F1, PathOff::Nothing, -1073741827)), End,
    New, Known(IsLen(S2, S9F1)), Known(Same(S9F1, S9F1)), After(Profile::Int32, Does::Num(3, Arith::Rem, 2, 0)), Has(Rng(S3, 0, 2147483647)), Has(Low(S3, 0)), Has(Less(S3, S2, 1)), Has(Upper(S3, S9F1, PathOff::Nothing, -1)), End,
    New, Known(IsLen(S2, S9F1)), Known(Same(S9F1, S9F1)), After(Profile::Int32, Does::Num(3, Arith::Rem, 0, 2)), Has(Rng(S3, -2147483646, 2147483646)), Has(Less(S3, S2, 0)), Has(Upper(S3, S9F1, PathOff::Nothing, 0)), End,
    New, Known(Rng(S0, -1, 1)), Known(Low(S0, -1)), After(Profile::Int32, Does::Num(3, Arith::And, 0, 0)), Has(Low(S3, -1)), End,
    New, Known(Upper(S2, S6, PathOff::Nothing, 8)), After(Profile::Ideal, Does::Num(3, Arith::Add, 0, 2)), Has(Sum(S3, S0, S2)), Has(Less(S3, S0, 2147483639)), Has(Upper(S3, S6, PathOff::Nothing, -2147483639)), Has(Upper(S3, S6, PathOff::Minus(S2), -2147483648)), Has(Upper(S3, S6, PathOff::Minus(S0), 8)), End,
    New, Known(Rng(S1, 1, 1)), Known(IsLen(S0, S5)), Known(Same(S5, S5)), Known(Low(S1, 1)), After(Profile::Ideal, Does::Num(3, Arith::Mul, 0, 1)), Has(Rng(S3, 0, 2147483647)), Has(Low(S3, 0)), Has(Less(S0, S3, 1)), End,
    New, Known(IsLen(S0, S9F1)), Known(Same(S9F1, S9F1)), After(Profile::Ideal, Does::Num(3, Arith::And, 2, 0)), Has(Rng(S3, 0, 2147483647)), Has(Low(S3, 0)), Has(Less(S3, S0, 1)), Has(Upper(S3, S9F1, PathOff::Nothing, -1)), End,
    New, Known(Less(S0, S1, 5)), Known(Upper(S1, S6, PathOff::Minus(S0), 8)), After(Profile::Ideal, Does::Num(3, Arith::Sub, 1, 0)), Has(Rng(S3, -4, 2147483638)), Has(Sum(S1, S0, S3)), Has(Upper(S0, S6, PathOff::Plus(S3), -2147483639)), Has(Upper(S3, S6, PathOff::Nothing, 8)), End,
    New, Known(Less(S1, S2, 13)), Known(Low(S1, 0)), After(Profile::Ideal, Does::Num(3, Arith::Sub, 1, 2)), Has(Rng(S3, -2147483647, 12)), Has(Sum(S1, S2, S3)), Has(Less(S3, S1, 13)), Has(Less(S3, S2, 25)), End,
    New, Known(Upper(S2, S6, PathOff::Minus(S1), -4)), Known(Less(S1, S0, 9)), After(Profile::Ideal, Does::Num(3, Arith::Sub, 2, 0)), Has(Sum(S2, S0, S3)), Has(Upper(S0, S6, PathOff::Plus(S3), -2147483648)), Has(Upper(S3, S6, PathOff::Nothing, -12)), End,
    New, Known(Sum(S0, S0, S1)), Known(Less(S1, S2, -2)), After(Profile::Ideal, Does::Num(3, Arith::Add, 0, 2)), Has(Sum(S3, S0, S2)), Has(Less(S0, S3, -2)), End,
    New, Known(Upper(S0, S9F1, PathOff::Plus(S2), -7)), Known(Rng(S2, 6, 8)), Known(Low(S2, 1)), After(Profile::Int32, Does::Num(3, Arith::Div, 2, 2)), Has(Rng(S3, 0, 1)), Has(Low(S3, 0)), Has(Less(S3, S2, -4)), Has(Upper(S0, S9F1, PathOff::Plus(S3), -6)), End,
    New, Known(Sum(S0, S0, S1)), Known(Upper(S0, S9F1, PathOff::Nothing, -8)), After(Profile::Ideal, Does::Num(3, Arith::Sub, 0, 1)), Has(Sum(S0, S1, S3)), Has(Upper(S1, S9F1, PathOff::Plus(S3), -8)), Has(Upper(S3, S9F1, PathOff::Nothing, -8)), End,
    New, Known(IsLen(S0, S6)), Known(Less(S2, S1, -2147483645)), Known(Upper(S0, S6, PathOff::Plus(S1), -1)), Known(Same(S6, S6)), After(Profile::Int32, Does::Num(3, Arith::Add, 2, 0)), Has(Rng(S3, -2147483648, 1)), Has(Sum(S3, S0, S2)), Has(Less(S2, S3, 1)), Has(Less(S3, S0, 2)), Has(Upper(S3, S6, PathOff::Nothing, 2147483645)), Has(Upper(S3, S6, PathOff::Minus(S0), -2)), Has(Upper(S3, S6, PathOff::Minus(S2), -1)), Has(Upper(S1, S6, PathOff::Plus(S3), -2)), End,
    New, Known(Low(S0, 0)), Known(Less(S0, S1, 2)), Known(Rng(S1, 1, 2)), Known(Low(S1, 1)), After(Profile::Int32, Does::Num(3, Arith::Mul, 1, 0)), Has(Rng(S3, 0, 6)), Has(Low(S3, 0)), Has(Less(S0, S3, 1)), End,
    New, Known(Upper(S1, S9F1, PathOff::Nothing, -1073741825)), Known(Sum(S1, S0, S1)), After(Profile::Ideal, Does::Num(3, Arith::Add, 1, 0)), Has(Sum(S3, S0, S1)), Has(Upper(S3, S9F1, PathOff::Nothing, -1073741825)), Has(Upper(S3, S9F1, PathOff::Minus(S0), -1073741825)), Has(Upper(S3, S9F1, PathOff::Minus(S1), -2147483648)), End,
    New, Known(Sum(S0, S0, S2)), Known(Less(S1, S2, -4)), After(Profile::Ideal, Does::Num(3, Arith::Add, 1, 0)), Has(Sum(S3, S0, S1)), Has(Less(S3, S0, -4)), End,
    New, Known(Upper(S1, S9F1, PathOff::Plus(S2), 1073741822)), Known(Less(S0, S1, 0)), After(Profile::Ideal, Does::Num(3, Arith::Add, 2, 0)), Has(Sum(S3, S0, S2)), Has(Less(S3, S2, 2147483647)), Has(Upper(S3, S9F1, PathOff::Nothing, 1073741823)), Has(Upper(S3, S9F1, PathOff::Minus(S0), -1073741825)), Has(Upper(S3, S9F1, PathOff::Minus(S2), -2147483647)), Has(Upper(S1, S9F1, PathOff::Plus(S3), -1073741824)), End,
    New, Known(Rng(S2, 1, 1)), Known(Sum(S0, S9F0, S1)), Known(Low(S0, 0)), Known(Less(S1, S9F0, 1)), Known(Low(S2, 1)), After(Profile::Int32, Does::Num(3, Arith::Shr, 0, 2)), Has(Rng(S3, 0, 1073741823)), Has(Low(S3, 0)), Has(Less(S3, S0, 1)), Has(Less(S1, S3, 1)), Has(Less(S3, S9F0, 1)), End,
    New, Known(Rng(S2, 1, 1)), Known(Sum(S0, S9F0, S1)), Known(Low(S0, 0)), Known(Less(S9F0, S1, 2)), Known(Low(S2, 1)), After(Profile::Ideal, Does::Num(3, Arith::Ushr, 0, 2)), Has(Rng(S3, 0, 1073741823)), Has(Low(S3, 0)), Has(Less(S3, S0, 1)), End,
    New, Known(IsLen(S1, S9F1)), Known(Same(S9F1, S9F1)), After(Profile::Int32, Does::Num(3, Arith::And, 1, 0)), Has(Rng(S3, 0, 2147483647)), Has(Low(S3, 0)), Has(Less(S3, S1, 1)), Has(Upper(S3, S9F1, PathOff::Nothing, -1)), End,
    New, Known(Low(S0, 0)), Known(IsLen(S2, S5)), Known(Same(S5, S5)), After(Profile::Ideal, Does::Num(3, Arith::Div, 2, 0)), Has(Rng(S3, 0, 2147483647)), Has(Low(S3, 0)), Has(Less(S3, S2, 1)), Has(Upper(S3, S5, PathOff::Nothing, -1)), End,
    New, Known(Low(S0, -1)), After(Profile::Ideal, Does::Num(3, Arith::Rem, 1, 0)), Has(Rng(S3, -2147483646, 2147483646)), End,
    New, Known(Low(S1, -1)), After(Profile::Ideal, Does::Num(3, Arith::Rem, 1, 2)), Has(Rng(S3, -1, 2147483647)), Has(Low(S3, -1)), End,
    New, Known(Low(S0, -1)), After(Profile::Ideal, Does::Num(1, Arith::Shr, 0, 2)), Has(Rng(S1, -1, 2147483647)), Has(Low(S1, -1)), End,
    New, Known(Less(S1, S2, -2147483647)), Known(Rng(S1, -1, -1)), Known(Low(S1, -1)), After(Profile::Ideal, Does::Num(3, Arith::Div, 1, 2)), Has(Rng(S3, 0, 0)), Has(Low(S3, 0)), Has(Less(S1, S3, 0)), Has(Less(S3, S2, -2147483646)), End,
    New, Known(IsLen(S0, S9F1)), Known(Upper(S0, S9F1, PathOff::Nothing, -2)), Known(Same(S9F1, S9F1)), After(Profile::Ideal, Does::Num(3, Arith::Add, 0, 1)), Has(Sum(S3, S0, S1)), Has(Less(S1, S3, 1)), Has(Upper(S3, S9F1, PathOff::Nothing, -2147483648)), Has(Upper(S3, S9F1, PathOff::Minus(S1), -1)), Has(Upper(S3, S9F1, PathOff::Minus(S0), -2147483648)), End,
    New, Known(Low(S2, 1)), After(Profile::Int32, Does::Num(3, Arith::Div, 2, 2)), Has(Rng(S3, 0, 2147483647)), Has(Low(S3, 0)), Has(Less(S3, S2, 1)), End,
    New, Known(Low(S0, -1)), Known(IsLen(S2, S9F1)), Known(Same(S9F1, S9F1)), After(Profile::Ideal, Does::Num(3, Arith::Div, 2, 0)), Has(Rng(S3, -2147483647, 2147483647)), End,
    New, Known(Rng(S0, 1, 5)), Known(Rng(S1, 2, 3)), Known(Low(S0, 1)), Known(Low(S1, 1)), After(Profile::Ideal, Does::Num(3, Arith::Div, 0, 1)), Has(Rng(S3, 0, 2)), Has(Low(S3, 0)), Has(Less(S3, S0, 0)), Has(Less(S3, S1, 1)), End,
    New, Known(Rng(S0, -1, 5)), Known(Rng(S1, 1, 3)), Known(Low(S0, -1)), Known(Low(S1, 1)), After(Profile::Ideal, Does::Num(3, Arith::Mul, 0, 1)), Has(Rng(S3, -3, 15)), End,
    New, Known(Rng(S0, -1, 5)), Known(Rng(S1, 1, 3)), Known(Low(S0, -1)), Known(Low(S1, 1)), After(Profile::Int32, Does::Num(3, Arith::Mul, 1, 0)), Has(Rng(S3, -3, 15)), End,
    New, Known(Rng(S2, 2, 2)), Known(Sum(S0, S9F0, S1)), Known(Rng(S0, -1, 9)), Known(Less(S1, S9F0, 0)), Known(Low(S2, 1)), Known(Low(S0, -1)), After(Profile::Ideal, Does::Num(3, Arith::Div, 0, 2)), Has(Rng(S3, 0, 4)), Has(Low(S3, 0)), End,
];

#[test]
fn operators_give_new_facts(rt: HostRuntime) {
    agree(&rt, OPERATORS_ROWS);
}
