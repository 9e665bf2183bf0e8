//! What is known where claims are assumed, and which claims are proved.

use crate::stores::Step::{Ask, Assume, Do, Facts, Has, New, Nowhere, Proves};
use crate::stores::{Question, Step, in_both};
use ix_core::Fact::{IsLen, LenRng, Less, Low, Neg, Rng, Same, Search, Upper};
use ix_core::{PathClaim, PathOff};
use ix_fact_rows::Does;
use ix_fact_rows::paths::{S0, S0F1, S1, S5, S6, S7};

/// Rows of both profiles.
#[rattlefmt::skip]
const ROWS: &[Step] = &[
    New, Assume(S0, PathClaim::Range(0, 9)), Proves(S0, PathClaim::Range(-1, 9), true), Proves(S0, PathClaim::Range(1, 9), false), Facts(2), Has(Low(S0, 0)), Has(Rng(S0, 0, 9)),
    New, Assume(S0, PathClaim::Low(1)), Proves(S0, PathClaim::Low(0), true), Proves(S0, PathClaim::Low(2), false), Facts(2), Has(Low(S0, 1)), Has(Rng(S0, 1, 2147483647)),
    New, Assume(S0, PathClaim::Low(5)), Proves(S0, PathClaim::Range(5, 2147483647), true), Proves(S0, PathClaim::Low(6), false), Facts(2), Has(Low(S0, 1)), Has(Rng(S0, 5, 2147483647)),
    New, Assume(S5, PathClaim::Length(3)), Proves(S5, PathClaim::Length(2), true), Proves(S5, PathClaim::Length(4), false), Facts(1), Has(LenRng(S5, 3, 2147483647)),
    New, Assume(S5, PathClaim::Same(S6)), Proves(S6, PathClaim::Same(S5), true), Proves(S5, PathClaim::Same(S5), true), Proves(S5, PathClaim::Same(S7), false), Facts(3), Has(Same(S5, S5)), Has(Same(S5, S6)), Has(Same(S6, S6)),
    New, Assume(S0, PathClaim::Less(S1, 0)), Proves(S0, PathClaim::Less(S1, 1), true), Proves(S0, PathClaim::Less(S1, -1), false), Facts(1), Has(Less(S0, S1, 0)),
    New, Assume(S0, PathClaim::Less(S1, -3)), Assume(S1, PathClaim::Range(0, 4)), Proves(S0, PathClaim::Range(-2147483648, 0), true), Proves(S0, PathClaim::Less(S1, -2), true), Facts(3), Has(Less(S0, S1, -3)), Has(Low(S1, 0)), Has(Rng(S1, 0, 4)),
    New, Assume(S0, PathClaim::Upper(S5, PathOff::Nothing, 0)), Proves(S0, PathClaim::Upper(S5, PathOff::Nothing, -1), true), Proves(S0, PathClaim::Upper(S5, PathOff::Nothing, 1), false), Facts(1), Has(Upper(S0, S5, PathOff::Nothing, 0)),
    New, Assume(S0, PathClaim::Upper(S5, PathOff::Plus(S1), 0)), Assume(S1, PathClaim::Low(1)), Proves(S0, PathClaim::Upper(S5, PathOff::Nothing, 1), true), Proves(S1, PathClaim::Upper(S5, PathOff::Plus(S0), 0), true), Facts(3), Has(Low(S1, 1)), Has(Rng(S1, 1, 2147483647)), Has(Upper(S0, S5, PathOff::Plus(S1), 0)),
    New, Assume(S0, PathClaim::Upper(S5, PathOff::Minus(S1), 2)), Assume(S1, PathClaim::Range(0, 3)), Proves(S0, PathClaim::Upper(S5, PathOff::Nothing, -1), true), Proves(S0, PathClaim::Upper(S5, PathOff::Nothing, 0), false), Facts(3), Has(Low(S1, 0)), Has(Rng(S1, 0, 3)), Has(Upper(S0, S5, PathOff::Minus(S1), 2)),
    New, Assume(S0, PathClaim::Search(S5)), Proves(S0, PathClaim::Search(S5), true), Proves(S0, PathClaim::Negative(S5), false), Proves(S0, PathClaim::Upper(S5, PathOff::Nothing, 0), true), Facts(2), Has(Search(S0, S5)), Has(Upper(S0, S5, PathOff::Nothing, 0)),
    New, Assume(S0, PathClaim::Negative(S5)), Proves(S0, PathClaim::Negative(S5), true), Proves(S0, PathClaim::Search(S5), true), Proves(S0, PathClaim::Range(-2147483648, -1), true), Facts(3), Has(Neg(S0, S5)), Has(Rng(S0, -2147483648, -1)), Has(Search(S0, S5)),
    New, Assume(S5, PathClaim::Length(4)), Do(Does::Int(0, -5)), Proves(S0, PathClaim::Search(S5), true), Proves(S0, PathClaim::Negative(S5), true), Proves(S0, PathClaim::Low(-4), false), Facts(3), Has(LenRng(S5, 4, 2147483647)), Has(Rng(S0, -5, -5)), Has(Upper(S0, S5, PathOff::Nothing, 8)),
    New, Assume(S0, PathClaim::Range(5, 9)), Assume(S0, PathClaim::Range(0, 6)), Facts(2), Has(Low(S0, 1)), Has(Rng(S0, 5, 6)),
    New, Assume(S0, PathClaim::Range(5, 9)), Assume(S0, PathClaim::Range(0, 4)), Proves(S1, PathClaim::Low(100), true), Nowhere,
    New, Assume(S0, PathClaim::Less(S0, 0)), Ask(Question::Count(0, 0, 0)), Facts(0),
    New, Assume(S5, PathClaim::Length(0)), Facts(0),
    New, Assume(S5, PathClaim::Length(2147483647)), Do(Does::Length(0, 5)), Facts(6), Has(IsLen(S0, S5)), Has(LenRng(S5, 2147483647, 2147483647)), Has(Low(S0, 1)), Has(Rng(S0, 2147483647, 2147483647)), Has(Same(S5, S5)), Has(Upper(S0, S5, PathOff::Nothing, -1)),
    New, Assume(S0F1, PathClaim::Low(0)), Proves(S0F1, PathClaim::Low(0), true), Proves(S0, PathClaim::Low(0), false), Facts(2), Has(Low(S0F1, 0)), Has(Rng(S0F1, 0, 2147483647)),
    New, Assume(S0, PathClaim::Upper(S5, PathOff::Nothing, -2147483648)), Assume(S1, PathClaim::Less(S0, 2147483647)), Facts(2), Has(Less(S1, S0, 2147483647)), Has(Upper(S0, S5, PathOff::Nothing, -2147483648)),
];

#[test]
fn claims_agree(rt: HostRuntime) {
    in_both(&rt, ROWS);
}
