//! Rounding: constants move to landmarks, and slots above the scope are dropped.

use crate::stores::Step::{Ask, Assume, Do, Facts, Has, Know, New, Round};
use crate::stores::{Question, Step, in_both};
use ix_core::Fact::{IsLen, LenRng, Less, Low, Neg, Rng, Same, Search, Sum, Upper};
use ix_core::{PathClaim, PathOff};
use ix_fact_rows::paths::{S0, S1, S1F9, S2, S3, S3F0, S5, S6, S7};
use ix_fact_rows::{Does, Holds};

/// Rows of both profiles.
#[rattlefmt::skip]
const ROWS: &[Step] = &[
    New, Do(Does::Int(0, 7)), Round(2, &[-2147483648, -1, 0, 1, 2147483647]), Facts(2), Has(Low(S0, 1)), Has(Rng(S0, 1, 2147483647)),
    New, Do(Does::Int(0, 7)), Do(Does::Int(1, 8)), Do(Does::Int(2, 9)), Round(2, &[-2147483648, -1, 0, 1, 7, 8, 9, 2147483647]), Facts(5), Has(Less(S0, S1, 0)), Has(Low(S0, 1)), Has(Low(S1, 1)), Has(Rng(S0, 7, 7)), Has(Rng(S1, 8, 8)),
    New, Do(Does::Int(0, 7)), Do(Does::Int(1, 8)), Do(Does::Int(2, 9)), Round(0, &[-2147483648, -1, 0, 1, 7, 8, 9, 2147483647]), Ask(Question::Count(0, 0, 0)), Facts(0),
    New, Assume(S0, PathClaim::Range(2, 5)), Round(1, &[-2147483648, -1, 0, 1, 4, 6, 2147483647]), Facts(2), Has(Low(S0, 1)), Has(Rng(S0, 1, 6)),
    New, Assume(S0, PathClaim::Range(2, 5)), Round(1, &[0, 4]), Facts(1), Has(Low(S0, 1)),
    New, Assume(S0, PathClaim::Range(2, 5)), Round(1, &[3, 9]), Facts(1), Has(Low(S0, 1)),
    New, Assume(S0, PathClaim::Range(-3, -2)), Round(1, &[-2147483648, -1, 0, 1, 2147483647]), Facts(1), Has(Rng(S0, -2147483648, -1)),
    New, Assume(S5, PathClaim::Length(5)), Round(6, &[-2147483648, -1, 0, 1, 3, 2147483647]), Facts(1), Has(LenRng(S5, 3, 2147483647)),
    New, Assume(S0, PathClaim::Less(S1, 2)), Round(2, &[-2147483648, -1, 0, 1, 5, 2147483647]), Facts(1), Has(Less(S0, S1, 5)),
    New, Assume(S0, PathClaim::Less(S1, 2)), Round(2, &[0, 1]), Facts(0),
    New, Assume(S0, PathClaim::Upper(S5, PathOff::Nothing, 2)), Round(6, &[-2147483648, -1, 0, 1, 5, 2147483647]), Facts(1), Has(Upper(S0, S5, PathOff::Nothing, 1)),
    New, Assume(S0, PathClaim::Upper(S5, PathOff::Nothing, 2)), Round(6, &[3, 4]), Facts(0),
    New, Assume(S0, PathClaim::Upper(S5, PathOff::Plus(S7), 2)), Assume(S0, PathClaim::Upper(S5, PathOff::Nothing, 0)), Round(6, &[-2147483648, -1, 0, 1, 2147483647]), Facts(1), Has(Upper(S0, S5, PathOff::Nothing, 0)),
    New, Know(Sum(S0, S1, S2)), Know(Sum(S0, S1, S3)), Round(3, &[0]), Facts(1), Has(Sum(S0, S1, S2)),
    New, Know(Rng(S3F0, 1, 2)), Know(Rng(S1F9, 1, 2)), Round(2, &[0, 1, 2, 3]), Facts(2), Has(Low(S1F9, 1)), Has(Rng(S1F9, 1, 2)),
    New, Assume(S0, PathClaim::Search(S5)), Round(6, &[0]), Facts(2), Has(Search(S0, S5)), Has(Upper(S0, S5, PathOff::Nothing, 0)),
    New, Assume(S0, PathClaim::Negative(S5)), Assume(S1, PathClaim::Search(S6)), Round(6, &[-2147483648, -1, 0, 1, 2147483647]), Facts(3), Has(Neg(S0, S5)), Has(Rng(S0, -2147483648, -1)), Has(Search(S0, S5)),
    New, Do(Does::Length(0, 5)), Do(Does::Copy(6, 5, Holds::Arrays)), Round(6, &[-2147483648, -1, 0, 1, 2147483647]), Facts(4), Has(IsLen(S0, S5)), Has(Low(S0, 0)), Has(Rng(S0, 0, 2147483647)), Has(Same(S5, S5)),
    New, Do(Does::Length(0, 6)), Do(Does::Copy(5, 6, Holds::Arrays)), Round(6, &[-2147483648, -1, 0, 1, 2147483647]), Facts(4), Has(IsLen(S0, S5)), Has(Low(S0, 0)), Has(Rng(S0, 0, 2147483647)), Has(Same(S5, S5)),
    New, Know(Low(S0, 1)), Know(Low(S1, 0)), Round(1, &[-2147483648, 2147483647]), Facts(1), Has(Low(S0, 1)),
    New, Do(Does::Int(0, 7)), Round(1, &[]), Facts(1), Has(Low(S0, 1)),
];

#[test]
fn rounded_stores_agree(rt: HostRuntime) {
    in_both(&rt, ROWS);
}
