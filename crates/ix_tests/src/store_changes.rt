//! What field writes and calls leave known, and calls of the parent's constructor.

use crate::stores::Step::{
    Ask, Call, Called, Copied, Facts, Field, Forget, Has, Know, New, Parent,
};
use crate::stores::{Question, Step, in_both};
use ix_core::Fact::{IsLen, LenRng, Less, Low, Rng, Same, Sum, Upper};
use ix_core::PathOff;
use ix_fact_rows::Holds;
use ix_fact_rows::paths::{
    S0, S0F0, S0F1, S0F2, S0F7, S1, S1F0, S2, S3, S3F0, S3F1, S4, S4F0, S4F1, S5,
};

/// Rows of both profiles.
#[rattlefmt::skip]
const ROWS: &[Step] = &[
    New, Know(Rng(S0F0, 1, 2)), Copied(S1, S0F0, Holds::Ints), Field(0, None), Facts(2), Has(Low(S1, 1)), Has(Rng(S1, 1, 2)),
    New, Know(Rng(S0F0, 1, 2)), Know(Rng(S1F0, 3, 4)), Field(0, None), Facts(0),
    New, Know(Rng(S0F0, 1, 2)), Know(Rng(S1F0, 3, 4)), Field(0, Some(0)), Facts(2), Has(Low(S0F0, 1)), Has(Rng(S0F0, 1, 2)),
    New, Know(Rng(S0F0, 1, 2)), Know(Rng(S1F0, 3, 4)), Field(0, None), Copied(S1F0, S2, Holds::Ints), Facts(2), Has(Less(S1F0, S2, 1)), Has(Less(S2, S1F0, 1)),
    New, Know(Rng(S0F0, 1, 2)), Copied(S3, S0F0, Holds::Ints), Field(0, None), Copied(S1F0, S2, Holds::Ints), Copied(S4, S0F0, Holds::Ints), Facts(6), Has(Less(S0F0, S4, 1)), Has(Less(S1F0, S2, 1)), Has(Less(S2, S1F0, 1)), Has(Less(S4, S0F0, 1)), Has(Low(S3, 1)), Has(Rng(S3, 1, 2)),
    New, Know(Rng(S0F0, 1, 2)), Know(Rng(S0F2, 3, 4)), Field(2, None), Facts(2), Has(Low(S0F0, 1)), Has(Rng(S0F0, 1, 2)),
    New, Know(Upper(S3, S0F2, PathOff::Nothing, -1)), Know(Less(S0F0, S3, 0)), Field(2, None), Facts(1), Has(Less(S0F0, S3, 0)),
    New, Know(Upper(S3, S5, PathOff::Plus(S0F2), -1)), Know(Same(S0F2, S5)), Field(2, None), Facts(1), Has(Same(S5, S5)),
    New, Know(IsLen(S3, S0F2)), Know(LenRng(S0F2, 1, 4)), Copied(S5, S0F2, Holds::Arrays), Field(2, None), Facts(3), Has(IsLen(S3, S5)), Has(LenRng(S5, 1, 4)), Has(Same(S5, S5)),
    New, Know(Rng(S0F0, 1, 2)), Know(Rng(S0F1, 3, 4)), Call(None), Facts(2), Has(Low(S0F1, 1)), Has(Rng(S0F1, 3, 4)),
    New, Know(Rng(S0F0, 1, 2)), Know(Rng(S1F0, 5, 6)), Know(Rng(S0F1, 3, 4)), Call(Some(0)), Facts(4), Has(Low(S0F0, 1)), Has(Low(S0F1, 1)), Has(Rng(S0F0, 1, 2)), Has(Rng(S0F1, 3, 4)),
    New, Know(Rng(S0F7, 1, 2)), Call(None), Facts(0),
    New, Know(Rng(S0, 1, 2)), Know(LenRng(S5, 1, 2)), Call(None), Facts(3), Has(LenRng(S5, 1, 2)), Has(Low(S0, 1)), Has(Rng(S0, 1, 2)),
    New, Know(Rng(S3, 1, 2)), Know(Rng(S0F0, 1, 2)), Know(Rng(S0F1, 3, 4)), Called(3, false, None), Facts(2), Has(Low(S0F1, 1)), Has(Rng(S0F1, 3, 4)),
    New, Know(Rng(S3, 1, 2)), Know(Rng(S0F0, 1, 2)), Know(Rng(S0F1, 3, 4)), Called(3, true, None), Facts(4), Has(Low(S0F0, 1)), Has(Low(S0F1, 1)), Has(Rng(S0F0, 1, 2)), Has(Rng(S0F1, 3, 4)),
    New, Know(Rng(S3, 1, 2)), Know(Rng(S0F0, 1, 2)), Know(Rng(S4F0, 3, 4)), Called(3, false, Some(0)), Facts(2), Has(Low(S0F0, 1)), Has(Rng(S0F0, 1, 2)),
    New, Know(Rng(S3F0, 1, 2)), Know(Rng(S3F1, 1, 2)), Called(3, false, None), Facts(0),
    New, Know(Rng(S0F0, 1, 2)), Know(Rng(S0F1, 3, 4)), Know(Rng(S4F1, 5, 6)), Parent(3, false, None), Facts(2), Has(Low(S4F1, 1)), Has(Rng(S4F1, 5, 6)),
    New, Know(Rng(S0F0, 1, 2)), Know(Rng(S0F1, 3, 4)), Know(Rng(S4F0, 5, 6)), Parent(3, true, None), Facts(2), Has(Low(S4F0, 1)), Has(Rng(S4F0, 5, 6)),
    New, Know(Rng(S0F0, 1, 2)), Know(Rng(S4F0, 5, 6)), Know(Low(S3, 1)), Know(Low(S2, 1)), Parent(3, false, None), Facts(1), Has(Low(S2, 1)),
    New, Know(Less(S0F1, S2, 0)), Know(Less(S2, S4F1, 0)), Parent(3, false, None), Ask(Question::Difference(S2, S4F1, Some(0))), Facts(1), Has(Less(S2, S4F1, 0)),
    New, Know(Rng(S0, 0, 3)), Know(Less(S0, S1, 0)), Know(Sum(S2, S0, S1)), Forget(S0), Facts(0),
    New, Know(Rng(S0F0, 1, 2)), Know(Low(S0F1, 1)), Forget(S0), Ask(Question::Count(0, 0, 0)), Facts(0),
    New, Know(Rng(S0F0, 1, 2)), Know(Low(S0F1, 1)), Forget(S0F0), Facts(1), Has(Low(S0F1, 1)),
    New, Know(Upper(S0, S5, PathOff::Minus(S1), 0)), Know(Upper(S0, S5, PathOff::Nothing, 0)), Forget(S1), Facts(1), Has(Upper(S0, S5, PathOff::Nothing, 0)),
];

#[test]
fn changes_agree(rt: HostRuntime) {
    in_both(&rt, ROWS);
}
