//! What claims add, and which are proved.

use crate::after::Step::{Claimed, End, Has, Known, New, Proves};
use crate::after::{Step, agree};
use ix_core::Fact::{IsLen, LenRng, Less, Low, Neg, Rng, Same, Search, Upper};
use ix_core::{PathClaim, PathOff};
use ix_fact_rows::paths::{S0, S1, S2, S5, S6, S9F0, S9F1};

/// A claim, its path, and the facts that it adds.
#[rattlefmt::skip]
const ADDED_ROWS: &[Step] = &[
    New, Claimed(S9F0, PathClaim::Negative(S5)), Has(Neg(S9F0, S5)), Has(Rng(S9F0, -2147483648, -1)), End,
    New, Claimed(S2, PathClaim::Search(S5)), Has(Search(S2, S5)), Has(Upper(S2, S5, PathOff::Nothing, 0)), End,
    New, Claimed(S5, PathClaim::Same(S9F1)), Has(Same(S9F1, S5)), End,
    New, Claimed(S6, PathClaim::Length(5)), Has(LenRng(S6, 5, 2147483647)), End,
    New, Claimed(S2, PathClaim::Less(S1, -1)), Has(Less(S2, S1, -1)), End,
    New, Claimed(S1, PathClaim::Upper(S6, PathOff::Nothing, 1)), Has(Upper(S1, S6, PathOff::Nothing, 1)), End,
    New, Claimed(S0, PathClaim::Less(S0, 2)), End,
];

/// What is known, a claim, its path, and whether the claim is proved.
#[rattlefmt::skip]
const PROVED_ROWS: &[Step] = &[
    New, Known(Search(S2, S6)), Known(Less(S2, S9F0, -2)), Known(Rng(S9F0, -2147483648, 0)), Proves(S2, PathClaim::Negative(S6), true),
    New, Proves(S9F1, PathClaim::Length(0), true),
    New, Known(Rng(S1, -2147483648, 3)), Proves(S1, PathClaim::Range(1, 3), false),
    New, Known(Rng(S0, -2147483648, -1)), Proves(S0, PathClaim::Upper(S6, PathOff::Nothing, -3), true),
    New, Known(Low(S1, 0)), Proves(S1, PathClaim::Low(0), true),
    New, Known(Rng(S0, -2, -2)), Known(LenRng(S6, 4, 2147483647)), Proves(S0, PathClaim::Search(S6), true),
    New, Known(Less(S2, S1, 8)), Known(Upper(S1, S5, PathOff::Nothing, 7)), Proves(S2, PathClaim::Search(S5), false),
    New, Known(Neg(S2, S9F1)), Known(Search(S2, S9F1)), Proves(S2, PathClaim::Negative(S9F1), true),
    New, Known(Less(S0, S1, -12)), Proves(S0, PathClaim::Less(S1, 3), true),
    New, Known(Neg(S0, S6)), Known(Search(S0, S6)), Proves(S0, PathClaim::Search(S6), true),
    New, Known(IsLen(S2, S9F1)), Known(Same(S9F1, S9F1)), Proves(S9F1, PathClaim::Same(S9F1), true),
    New, Known(IsLen(S2, S9F1)), Known(Same(S9F1, S9F1)), Proves(S2, PathClaim::Range(-2, 1), false),
    New, Known(LenRng(S5, 6, 6)), Known(Rng(S0, -4, -2)), Proves(S0, PathClaim::Negative(S5), true),
];

#[test]
fn claims_add_their_facts(rt: HostRuntime) {
    agree(&rt, ADDED_ROWS);
}

#[test]
fn claims_are_proved_by_what_is_known(rt: HostRuntime) {
    agree(&rt, PROVED_ROWS);
}
