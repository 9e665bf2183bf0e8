//! What copies give, between slots and fields.

use crate::stores::Step::{Ask, Assume, Copied, Do, Facts, Has, Know, New};
use crate::stores::{Question, Step, in_both};
use ix_core::Fact::{IsLen, LenRng, Less, Low, Neg, Rng, Same, Search, Sum, Upper};
use ix_core::{PathClaim, PathOff};
use ix_fact_rows::paths::{S0, S1, S2, S3, S5, S6, S7, S9F0, S9F1};
use ix_fact_rows::{Does, Holds};

/// Rows of both profiles.
#[rattlefmt::skip]
const ROWS: &[Step] = &[
    New, Assume(S0, PathClaim::Range(1, 4)), Do(Does::Copy(1, 0, Holds::Ints)), Facts(6), Has(Less(S0, S1, 1)), Has(Less(S1, S0, 1)), Has(Low(S0, 1)), Has(Low(S1, 1)), Has(Rng(S0, 1, 4)), Has(Rng(S1, 1, 4)),
    New, Assume(S0, PathClaim::Upper(S5, PathOff::Nothing, 0)), Do(Does::Copy(1, 0, Holds::Ints)), Do(Does::Int(0, 3)), Facts(3), Has(Low(S0, 1)), Has(Rng(S0, 3, 3)), Has(Upper(S1, S5, PathOff::Nothing, 0)),
    New, Assume(S5, PathClaim::Length(2)), Do(Does::Copy(6, 5, Holds::Arrays)), Facts(5), Has(LenRng(S5, 2, 2147483647)), Has(LenRng(S6, 2, 2147483647)), Has(Same(S5, S5)), Has(Same(S5, S6)), Has(Same(S6, S6)),
    New, Do(Does::Length(0, 5)), Do(Does::Copy(6, 5, Holds::Arrays)), Facts(7), Has(IsLen(S0, S5)), Has(IsLen(S0, S6)), Has(Low(S0, 0)), Has(Rng(S0, 0, 2147483647)), Has(Same(S5, S5)), Has(Same(S5, S6)), Has(Same(S6, S6)),
    New, Assume(S0, PathClaim::Search(S5)), Do(Does::Copy(6, 5, Holds::Arrays)), Do(Does::Copy(1, 0, Holds::Ints)), Facts(13), Has(Less(S0, S1, 1)), Has(Less(S1, S0, 1)), Has(Same(S5, S5)), Has(Same(S5, S6)), Has(Same(S6, S6)), Has(Search(S0, S5)), Has(Search(S0, S6)), Has(Search(S1, S5)), Has(Search(S1, S6)), Has(Upper(S0, S5, PathOff::Nothing, 0)), Has(Upper(S0, S6, PathOff::Nothing, 0)), Has(Upper(S1, S5, PathOff::Nothing, 0)), Has(Upper(S1, S6, PathOff::Nothing, 0)),
    New, Know(Sum(S2, S0, S1)), Do(Does::Copy(3, 2, Holds::Ints)), Facts(4), Has(Less(S2, S3, 1)), Has(Less(S3, S2, 1)), Has(Sum(S2, S0, S1)), Has(Sum(S3, S0, S1)),
    New, Know(Sum(S2, S0, S0)), Do(Does::Copy(1, 0, Holds::Ints)), Facts(5), Has(Less(S0, S1, 1)), Has(Less(S1, S0, 1)), Has(Sum(S2, S0, S0)), Has(Sum(S2, S0, S1)), Has(Sum(S2, S1, S1)),
    New, Know(Upper(S0, S5, PathOff::Plus(S1), 2)), Do(Does::Copy(2, 1, Holds::Ints)), Facts(4), Has(Less(S1, S2, 1)), Has(Less(S2, S1, 1)), Has(Upper(S0, S5, PathOff::Plus(S1), 2)), Has(Upper(S0, S5, PathOff::Plus(S2), 2)),
    New, Know(Low(S0, 1)), Do(Does::Copy(1, 0, Holds::Bools)), Facts(1), Has(Low(S0, 1)),
    New, Assume(S0, PathClaim::Range(0, 5)), Copied(S9F0, S0, Holds::Ints), Do(Does::Int(0, 7)), Facts(5), Has(Less(S9F0, S0, -1)), Has(Low(S0, 1)), Has(Low(S9F0, 0)), Has(Rng(S0, 7, 7)), Has(Rng(S9F0, 0, 5)),
    New, Know(Rng(S9F0, 2, 3)), Copied(S0, S9F0, Holds::Ints), Facts(6), Has(Less(S0, S9F0, 1)), Has(Less(S9F0, S0, 1)), Has(Low(S0, 1)), Has(Low(S9F0, 1)), Has(Rng(S0, 2, 3)), Has(Rng(S9F0, 2, 3)),
    New, Know(LenRng(S9F1, 1, 4)), Copied(S5, S9F1, Holds::Arrays), Facts(5), Has(LenRng(S5, 1, 4)), Has(LenRng(S9F1, 1, 4)), Has(Same(S5, S5)), Has(Same(S5, S9F1)), Has(Same(S9F1, S9F1)),
    New, Know(IsLen(S0, S9F1)), Do(Does::Copy(1, 0, Holds::Ints)), Copied(S5, S9F1, Holds::Arrays), Facts(11), Has(IsLen(S0, S5)), Has(IsLen(S0, S9F1)), Has(IsLen(S1, S5)), Has(IsLen(S1, S9F1)), Has(Less(S0, S1, 1)), Has(Less(S1, S0, 1)), Has(Same(S5, S5)), Has(Same(S5, S9F1)), Has(Same(S9F1, S9F1)), Has(Upper(S1, S5, PathOff::Nothing, -1)), Has(Upper(S1, S9F1, PathOff::Nothing, -1)),
    New, Know(Rng(S9F0, 2, 3)), Do(Does::Copy(8, 9, Holds::Bools)), Do(Does::Copy(9, 7, Holds::Bools)), Facts(0),
    New, Know(Low(S0, 0)), Do(Does::Copy(0, 1, Holds::Ints)), Do(Does::Copy(1, 0, Holds::Ints)), Facts(2), Has(Less(S0, S1, 1)), Has(Less(S1, S0, 1)),
    New, Know(Upper(S0, S5, PathOff::Minus(S1), 3)), Know(Less(S2, S1, -1)), Do(Does::Copy(3, 1, Holds::Ints)), Facts(6), Has(Less(S1, S3, 1)), Has(Less(S2, S1, -1)), Has(Less(S2, S3, -1)), Has(Less(S3, S1, 1)), Has(Upper(S0, S5, PathOff::Minus(S1), 3)), Has(Upper(S0, S5, PathOff::Minus(S3), 3)),
    New, Know(Upper(S0, S5, PathOff::Minus(S1), 3)), Do(Does::Copy(2, 1, Holds::Ints)), Ask(Question::Upper(S0, S5, PathOff::Minus(S2), Some(3))), Facts(4), Has(Less(S1, S2, 1)), Has(Less(S2, S1, 1)), Has(Upper(S0, S5, PathOff::Minus(S1), 3)), Has(Upper(S0, S5, PathOff::Minus(S2), 3)),
    New, Know(Same(S5, S6)), Do(Does::Copy(7, 5, Holds::Arrays)), Ask(Question::Same(S7, S6, true)), Facts(6), Has(Same(S5, S5)), Has(Same(S5, S6)), Has(Same(S5, S7)), Has(Same(S6, S6)), Has(Same(S6, S7)), Has(Same(S7, S7)),
    New, Know(Neg(S0, S5)), Know(IsLen(S1, S5)), Do(Does::Copy(6, 5, Holds::Arrays)), Facts(9), Has(IsLen(S1, S5)), Has(IsLen(S1, S6)), Has(Neg(S0, S5)), Has(Neg(S0, S6)), Has(Same(S5, S5)), Has(Same(S5, S6)), Has(Same(S6, S6)), Has(Search(S0, S5)), Has(Search(S0, S6)),
    New, Know(Less(S0, S1, -1)), Know(Less(S1, S2, -1)), Do(Does::Copy(3, 1, Holds::Ints)), Facts(6), Has(Less(S0, S1, -1)), Has(Less(S0, S3, -1)), Has(Less(S1, S2, -1)), Has(Less(S1, S3, 1)), Has(Less(S3, S1, 1)), Has(Less(S3, S2, -1)),
    New, Know(Rng(S0, 0, 3)), Know(Upper(S1, S5, PathOff::Nothing, 0)), Do(Does::Copy(2, 0, Holds::Ints)), Facts(7), Has(Less(S0, S2, 1)), Has(Less(S2, S0, 1)), Has(Low(S0, 0)), Has(Low(S2, 0)), Has(Rng(S0, 0, 3)), Has(Rng(S2, 0, 3)), Has(Upper(S1, S5, PathOff::Nothing, 0)),
];

#[test]
fn copies_agree(rt: HostRuntime) {
    in_both(&rt, ROWS);
}
