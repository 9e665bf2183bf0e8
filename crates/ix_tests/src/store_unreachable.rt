//! Stores at places where no state is.

use crate::stores::Step::{
    Ask, Assume, Back, Below, Call, Copied, Do, Empty, Facts, Field, Forget, Has, If, Join, Keep,
    Know, New, Nowhere, Parent, Proves, Round, Unreachable,
};
use crate::stores::{Question, Step, in_both};
use ix_core::Fact::{LenRng, Low, Rng};
use ix_core::{PathClaim, PathOff};
use ix_fact_rows::paths::{S0, S1, S2, S5, S6, S9F0};
use ix_fact_rows::{Does, Holds};
use ix_num::{Arith, Rel};

/// Rows of both profiles.
#[rattlefmt::skip]
const ROWS: &[Step] = &[
    New, Unreachable, Ask(Question::Count(0, 0, 0)), Ask(Question::Lo(S0, -2147483648)), Ask(Question::Hi(S0, 2147483647)), Nowhere,
    New, Unreachable, Ask(Question::Shortest(S5, 0)), Ask(Question::Longest(S5, 2147483647)), Ask(Question::Upper(S0, S5, PathOff::Nothing, Some(-2147483648))), Ask(Question::Upper(S0, S5, PathOff::Plus(S1), None)), Nowhere,
    New, Unreachable, Ask(Question::Less(S0, S1, Some(4294967296))), Ask(Question::Difference(S0, S1, None)), Ask(Question::Same(S5, S5, false)), Nowhere,
    New, Unreachable, Ask(Question::IsLength(S0, S5, false)), Ask(Question::Search(S0, S5, false)), Ask(Question::Negative(S0, S5, false)), Nowhere,
    New, Unreachable, Proves(S0, PathClaim::Range(5, 4), true), Proves(S0, PathClaim::Low(9), true), Proves(S5, PathClaim::Length(7), true), Proves(S5, PathClaim::Same(S6), true), Nowhere,
    New, Unreachable, Proves(S0, PathClaim::Less(S0, -5), true), Proves(S0, PathClaim::Upper(S5, PathOff::Minus(S1), 3), true), Proves(S0, PathClaim::Search(S5), true), Proves(S0, PathClaim::Negative(S5), true), Nowhere,
    New, Unreachable, Do(Does::Int(0, 7)), Do(Does::Num(1, Arith::Add, 0, 0)), Do(Does::Copy(2, 1, Holds::Ints)), Copied(S9F0, S2, Holds::Ints), Nowhere,
    New, Unreachable, If(0, Rel::Lt, 1, Holds::Ints), Assume(S0, PathClaim::Low(0)), Know(Low(S1, 1)), Forget(S0), Field(0, None), Call(None), Parent(3, false, None), Nowhere,
    New, Unreachable, Round(1, &[0]), Nowhere,
    New, Unreachable, Keep, Empty, Keep, Below(0, false), Back(0), Below(1, true), Below(0, true), Nowhere,
    New, Unreachable, Keep, Do(Does::Int(0, 5)), Join(0), Know(Rng(S0, 1, 2)), Empty, Do(Does::Int(0, 3)), Join(0), Facts(2), Has(Low(S0, 1)), Has(Rng(S0, 3, 3)),
    New, Do(Does::Int(0, 5)), Keep, Unreachable, Join(0), Facts(2), Has(Low(S0, 1)), Has(Rng(S0, 5, 5)),
    New, Do(Does::Int(0, 1)), If(0, Rel::Lt, 0, Holds::Ints), Proves(S0, PathClaim::Low(9), true), Ask(Question::Lo(S0, -2147483648)), Nowhere,
    New, Know(Rng(S0, 3, 2)), Ask(Question::Count(0, 0, 0)), Ask(Question::Hi(S0, 2147483647)), Nowhere,
    New, Know(LenRng(S5, 3, 2)), Proves(S5, PathClaim::Length(100), true), Nowhere,
    New, Know(Low(S0, 1)), Know(Rng(S0, -5, 0)), Ask(Question::Count(2, 1, 0)), Facts(2), Has(Low(S0, 1)), Has(Rng(S0, -5, 0)),
    New, Do(Does::Int(0, 0)), Do(Does::Num(1, Arith::Div, 0, 0)), Nowhere,
    New, Empty, Ask(Question::Count(0, 0, 0)), Ask(Question::Lo(S0, -2147483648)), Ask(Question::Less(S0, S1, Some(4294967296))), Ask(Question::Upper(S0, S5, PathOff::Nothing, Some(-2147483648))), Proves(S0, PathClaim::Low(0), false), Proves(S5, PathClaim::Length(0), true), Facts(0),
];

#[test]
fn unreachable_stores_agree(rt: HostRuntime) {
    in_both(&rt, ROWS);
}
