//! Joins: what both stores say, in either order.

use crate::stores::Step::{Ask, Assume, Back, Below, Do, Empty, Facts, Has, Join, Keep, Know, New};
use crate::stores::{Question, Step, in_both};
use ix_core::Fact::{LenRng, Less, Low, Rng, Same, Search, Sum, Upper};
use ix_core::{PathClaim, PathOff};
use ix_fact_rows::Does;
use ix_fact_rows::paths::{S0, S1, S2, S5, S6, S7};

/// Rows of both profiles.
#[rattlefmt::skip]
const ROWS: &[Step] = &[
    New, Do(Does::Int(0, 1)), Keep, Do(Does::Int(0, 5)), Join(0), Facts(2), Has(Low(S0, 1)), Has(Rng(S0, 1, 5)),
    New, Do(Does::Int(0, 5)), Keep, Do(Does::Int(0, 1)), Join(0), Facts(2), Has(Low(S0, 1)), Has(Rng(S0, 1, 5)),
    New, Do(Does::Int(0, 1)), Keep, Do(Does::Int(0, 1)), Do(Does::Int(1, 2)), Join(0), Facts(2), Has(Low(S0, 1)), Has(Rng(S0, 1, 1)),
    New, Do(Does::Int(1, 2)), Do(Does::Int(0, 1)), Keep, Empty, Do(Does::Int(0, 1)), Join(0), Below(0, false), Facts(2), Has(Low(S0, 1)), Has(Rng(S0, 1, 1)),
    New, Assume(S0, PathClaim::Less(S1, 0)), Keep, Empty, Assume(S0, PathClaim::Less(S1, 4)), Join(0), Facts(1), Has(Less(S0, S1, 4)),
    New, Assume(S0, PathClaim::Less(S1, 4)), Keep, Empty, Assume(S0, PathClaim::Less(S1, 0)), Join(0), Facts(1), Has(Less(S0, S1, 4)),
    New, Assume(S0, PathClaim::Upper(S5, PathOff::Nothing, 0)), Keep, Empty, Assume(S0, PathClaim::Upper(S5, PathOff::Nothing, -3)), Join(0), Facts(1), Has(Upper(S0, S5, PathOff::Nothing, -3)),
    New, Assume(S0, PathClaim::Upper(S5, PathOff::Nothing, -3)), Keep, Empty, Assume(S0, PathClaim::Upper(S5, PathOff::Nothing, 0)), Join(0), Facts(1), Has(Upper(S0, S5, PathOff::Nothing, -3)),
    New, Assume(S0, PathClaim::Upper(S5, PathOff::Plus(S1), 0)), Keep, Empty, Assume(S1, PathClaim::Upper(S5, PathOff::Plus(S0), 2)), Join(0), Facts(1), Has(Upper(S0, S5, PathOff::Plus(S1), 0)),
    New, Know(Sum(S0, S1, S2)), Keep, Empty, Know(Sum(S0, S2, S1)), Join(0), Below(0, true), Facts(1), Has(Sum(S0, S1, S2)),
    New, Assume(S5, PathClaim::Same(S6)), Keep, Empty, Assume(S6, PathClaim::Same(S7)), Assume(S5, PathClaim::Same(S7)), Join(0), Facts(3), Has(Same(S5, S5)), Has(Same(S5, S6)), Has(Same(S6, S6)),
    New, Assume(S5, PathClaim::Same(S6)), Keep, Empty, Assume(S6, PathClaim::Same(S7)), Join(0), Facts(1), Has(Same(S6, S6)),
    New, Assume(S5, PathClaim::Length(3)), Keep, Empty, Assume(S5, PathClaim::Length(1)), Assume(S6, PathClaim::Length(2)), Join(0), Facts(1), Has(LenRng(S5, 1, 2147483647)),
    New, Assume(S0, PathClaim::Search(S5)), Keep, Empty, Assume(S0, PathClaim::Negative(S5)), Join(0), Below(0, false), Facts(1), Has(Search(S0, S5)),
    New, Assume(S0, PathClaim::Negative(S5)), Keep, Empty, Assume(S0, PathClaim::Search(S5)), Join(0), Below(0, false), Facts(1), Has(Search(S0, S5)),
    New, Do(Does::Int(0, 1)), Keep, Do(Does::Int(0, 2)), Keep, Do(Does::Int(0, 9)), Join(0), Join(1), Facts(2), Has(Low(S0, 1)), Has(Rng(S0, 1, 9)),
    New, Do(Does::Int(0, 1)), Keep, Do(Does::Int(0, 2)), Keep, Do(Does::Int(0, 9)), Join(1), Join(0), Facts(2), Has(Low(S0, 1)), Has(Rng(S0, 1, 9)),
    New, Do(Does::Int(0, 1)), Keep, Do(Does::Int(0, 9)), Keep, Do(Does::Int(0, 2)), Join(0), Keep, Back(1), Join(2), Facts(2), Has(Low(S0, 1)), Has(Rng(S0, 1, 9)),
    New, Do(Does::Int(0, 2147483647)), Keep, Do(Does::Int(0, -2147483648)), Join(0), Ask(Question::Count(0, 0, 0)), Facts(0),
    New, Know(Low(S0, 1)), Keep, Empty, Know(Low(S0, -1)), Join(0), Below(0, false), Facts(1), Has(Low(S0, -1)),
    New, Do(Does::Int(0, 4)), Keep, Join(0), Below(0, true), Facts(2), Has(Low(S0, 1)), Has(Rng(S0, 4, 4)),
    New, Know(Rng(S0, 0, 4)), Keep, Know(Rng(S1, 0, 4)), Keep, Below(0, true), Back(0), Below(1, false), Facts(2), Has(Low(S0, 0)), Has(Rng(S0, 0, 4)),
    New, Know(Less(S0, S1, 0)), Keep, Empty, Know(Less(S1, S0, 0)), Join(0), Ask(Question::Count(0, 0, 0)), Facts(0),
];

#[test]
fn joins_agree(rt: HostRuntime) {
    in_both(&rt, ROWS);
}
