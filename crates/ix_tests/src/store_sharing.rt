//! Stores that are shared: a change of one leaves the others as they were.

use crate::stores::Step::{
    Assume, Back, Below, Copied, Do, Facts, Field, Forget, Has, If, Join, Keep, Know, New, Nowhere,
    Round, Unreachable,
};
use crate::stores::{Step, in_both};
use ix_core::Fact::{LenRng, Less, Low, Rng};
use ix_core::PathClaim;
use ix_fact_rows::paths::{S0, S0F0, S1, S5};
use ix_fact_rows::{Does, Holds};
use ix_num::Rel;

/// Rows of both profiles.
#[rattlefmt::skip]
const ROWS: &[Step] = &[
    New, Know(Rng(S0, 0, 3)), Keep, Do(Does::Int(0, 7)), Back(0), Facts(2), Has(Low(S0, 0)), Has(Rng(S0, 0, 3)),
    New, Know(Rng(S0, 0, 3)), Keep, Do(Does::Int(0, 7)), Facts(2), Has(Low(S0, 1)), Has(Rng(S0, 7, 7)),
    New, Know(Rng(S0, 0, 3)), Keep, Forget(S0), Keep, Back(0), Below(1, true), Back(1), Below(0, false), Facts(0),
    New, Know(Rng(S0, 0, 3)), Keep, Assume(S0, PathClaim::Low(2)), Keep, Back(0), Below(1, false), Facts(2), Has(Low(S0, 0)), Has(Rng(S0, 0, 3)),
    New, Know(Rng(S0, 0, 3)), Keep, Do(Does::Int(1, 0)), If(0, Rel::Lt, 1, Holds::Ints), Keep, Back(0), Below(1, false), Back(1), Nowhere,
    New, Know(LenRng(S5, 1, 4)), Keep, Do(Does::Copy(6, 5, Holds::Arrays)), Keep, Back(0), Join(1), Facts(1), Has(LenRng(S5, 1, 4)),
    New, Know(LenRng(S5, 1, 4)), Keep, Do(Does::Copy(6, 5, Holds::Arrays)), Forget(S5), Keep, Back(0), Join(1), Facts(0),
    New, Know(Rng(S0F0, 1, 2)), Keep, Field(0, None), Keep, Back(0), Copied(S1, S0F0, Holds::Ints), Facts(6), Has(Less(S0F0, S1, 1)), Has(Less(S1, S0F0, 1)), Has(Low(S0F0, 1)), Has(Low(S1, 1)), Has(Rng(S0F0, 1, 2)), Has(Rng(S1, 1, 2)),
    New, Know(Rng(S0, 0, 9)), Keep, Keep, Do(Does::Int(0, 2)), Keep, Back(0), Do(Does::Int(0, 3)), Join(2), Below(1, true), Back(1), Facts(2), Has(Low(S0, 0)), Has(Rng(S0, 0, 9)),
    New, Know(Low(S0, 1)), Keep, Round(0, &[0, 1]), Back(0), Facts(1), Has(Low(S0, 1)),
    New, Know(Low(S0, 1)), Keep, Unreachable, Keep, Back(0), Join(1), Keep, Back(1), Join(0), Below(2, true), Facts(1), Has(Low(S0, 1)),
];

#[test]
fn shared_stores_agree(rt: HostRuntime) {
    in_both(&rt, ROWS);
}
