//! What copies give: of slots, and of fields that are read or written.

use crate::tables::Step::{After, Copied, Facts, Has, Known, New};
use crate::tables::{Step, agree};
use ix_core::Fact::{IsLen, LenRng, Less, Low, Rng, Same, Search, Sum, Upper};
use ix_core::{PathOff, Profile};
use ix_fact_rows::paths::{S0, S1, S2, S3, S3F0, S4F0, S5, S6, S7, S9F0, S9F1};
use ix_fact_rows::{Does, Holds};

/// What is known, and an operation; what the six tables say after it.
#[rattlefmt::skip]
const SLOTS_ROWS: &[Step] = &[
    New, Known(Upper(S1, S9F1, PathOff::Plus(S2), 1073741824)), After(Profile::Ideal, Does::Copy(3, 1, Holds::Ints)), Facts(4), Has(Less(S1, S3, 1)), Has(Less(S3, S1, 1)), Has(Upper(S1, S9F1, PathOff::Plus(S2), 1073741824)), Has(Upper(S2, S9F1, PathOff::Plus(S3), 1073741824)),
    New, Known(Upper(S0, S6, PathOff::Minus(S3F0), -2)), After(Profile::Ideal, Does::Copy(7, 6, Holds::Arrays)), Facts(3), Has(Same(S6, S7)), Has(Upper(S0, S6, PathOff::Minus(S3F0), -2)), Has(Upper(S0, S7, PathOff::Minus(S3F0), -2)),
    New, Known(Rng(S1, 0, 0)), Known(Low(S1, 0)), Known(Less(S2, S9F0, -6)), Known(Same(S5, S5)), Known(IsLen(S9F0, S5)), After(Profile::Int32, Does::Copy(3, 1, Holds::Ints)), Facts(11), Has(Rng(S1, 0, 0)), Has(Rng(S3, 0, 0)), Has(Low(S1, 0)), Has(Low(S3, 0)), Has(Same(S5, S5)), Has(IsLen(S9F0, S5)), Has(Less(S1, S3, 1)), Has(Less(S2, S9F0, -6)), Has(Less(S3, S1, 1)), Has(Less(S3, S9F0, 1)), Has(Upper(S3, S5, PathOff::Nothing, -1)),
    New, Known(Less(S0, S2, -3)), Known(Search(S2, S9F1)), After(Profile::Ideal, Does::Copy(3, 2, Holds::Ints)), Facts(6), Has(Less(S0, S2, -3)), Has(Less(S0, S3, -3)), Has(Less(S2, S3, 1)), Has(Less(S3, S2, 1)), Has(Search(S2, S9F1)), Has(Search(S3, S9F1)),
    New, Known(IsLen(S2, S6)), Known(Same(S6, S6)), After(Profile::Ideal, Does::Copy(3, 2, Holds::Ints)), Facts(6), Has(IsLen(S2, S6)), Has(IsLen(S3, S6)), Has(Same(S6, S6)), Has(Less(S2, S3, 1)), Has(Less(S3, S2, 1)), Has(Upper(S3, S6, PathOff::Nothing, -1)),
    New, Known(Same(S6, S6)), Known(IsLen(S3F0, S6)), After(Profile::Int32, Does::Copy(3, 4, Holds::Bools)), Facts(1), Has(Same(S6, S6)),
    New, Known(Upper(S1, S5, PathOff::Plus(S1), -1)), Known(Search(S9F0, S6)), After(Profile::Int32, Does::Copy(7, 6, Holds::Arrays)), Facts(3), Has(Same(S6, S7)), Has(Search(S9F0, S6)), Has(Upper(S1, S5, PathOff::Plus(S1), -1)),
    New, Known(Search(S3, S5)), Known(Same(S6, S6)), Known(Same(S6, S9F1)), Known(Rng(S3F0, -8, -8)), Known(Same(S9F1, S9F1)), After(Profile::Ideal, Does::Copy(3, 4, Holds::Bools)), Facts(3), Has(Same(S6, S6)), Has(Same(S6, S9F1)), Has(Same(S9F1, S9F1)),
    New, Known(Upper(S0, S9F1, PathOff::Minus(S1), -2147483647)), Known(LenRng(S5, 2, 2)), Known(Low(S9F0, 0)), After(Profile::Ideal, Does::Copy(7, 5, Holds::Arrays)), Facts(4), Has(LenRng(S5, 2, 2)), Has(Low(S9F0, 0)), Has(Same(S5, S7)), Has(Upper(S0, S9F1, PathOff::Minus(S1), -2147483647)),
    New, Known(Upper(S3F0, S5, PathOff::Nothing, 2)), After(Profile::Int32, Does::Copy(3, 4, Holds::Bools)), Facts(0),
    New, Known(Rng(S0, -2147483648, -3)), After(Profile::Ideal, Does::Copy(3, 4, Holds::Bools)), Facts(1), Has(Rng(S0, -2147483648, -3)),
    New, Known(Upper(S9F0, S5, PathOff::Nothing, 0)), After(Profile::Ideal, Does::Copy(7, 6, Holds::Arrays)), Facts(2), Has(Same(S6, S7)), Has(Upper(S9F0, S5, PathOff::Nothing, 0)),
    New, Known(Rng(S9F0, -2147483648, -2147483648)), After(Profile::Ideal, Does::Copy(7, 6, Holds::Arrays)), Facts(3), Has(Rng(S9F0, -2147483648, -2147483648)), Has(Same(S6, S7)), Has(Upper(S9F0, S7, PathOff::Nothing, 2147483647)),
    New, Known(Upper(S1, S9F1, PathOff::Minus(S2), 6)), Known(Less(S3, S2, -2)), After(Profile::Ideal, Does::Copy(3, 4, Holds::Bools)), Facts(1), Has(Upper(S1, S9F1, PathOff::Minus(S2), 6)),
    New, Known(Less(S0, S1, 1)), Known(Upper(S0, S9F1, PathOff::Plus(S9F0), 2)), Known(IsLen(S3, S6)), Known(Same(S6, S6)), After(Profile::Int32, Does::Copy(3, 4, Holds::Bools)), Facts(3), Has(Same(S6, S6)), Has(Less(S0, S1, 1)), Has(Upper(S0, S9F1, PathOff::Plus(S9F0), 2)),
];

/// What is known, and the paths of a copy; what the six tables say after it.
#[rattlefmt::skip]
const PATHS_ROWS: &[Step] = &[
    New, Known(Sum(S2, S9F0, S9F0)), Copied(S3, S9F0, Holds::Ints), Facts(5), Has(Sum(S2, S3, S3)), Has(Sum(S2, S3, S9F0)), Has(Sum(S2, S9F0, S9F0)), Has(Less(S3, S9F0, 1)), Has(Less(S9F0, S3, 1)),
    New, Known(Less(S1, S9F0, 2)), Known(Less(S9F0, S0, 3)), Copied(S3, S0, Holds::Ints), Facts(5), Has(Less(S0, S3, 1)), Has(Less(S1, S9F0, 2)), Has(Less(S3, S0, 1)), Has(Less(S9F0, S0, 3)), Has(Less(S9F0, S3, 3)),
    New, Known(Rng(S1, 2147483647, 2147483647)), Known(Low(S1, 1)), Copied(S3, S1, Holds::Ints), Facts(6), Has(Rng(S1, 2147483647, 2147483647)), Has(Rng(S3, 2147483647, 2147483647)), Has(Low(S1, 1)), Has(Low(S3, 1)), Has(Less(S1, S3, 1)), Has(Less(S3, S1, 1)),
    New, Known(Upper(S2, S5, PathOff::Minus(S9F0), 2147483646)), Copied(S4F0, S9F0, Holds::Ints), Facts(4), Has(Less(S4F0, S9F0, 1)), Has(Less(S9F0, S4F0, 1)), Has(Upper(S2, S5, PathOff::Minus(S4F0), 2147483646)), Has(Upper(S2, S5, PathOff::Minus(S9F0), 2147483646)),
    New, Known(Search(S0, S5)), Copied(S4F0, S0, Holds::Ints), Facts(4), Has(Less(S0, S4F0, 1)), Has(Less(S4F0, S0, 1)), Has(Search(S0, S5)), Has(Search(S4F0, S5)),
    New, Known(Upper(S9F0, S6, PathOff::Minus(S1), -2147483647)), Copied(S4F0, S1, Holds::Ints), Facts(4), Has(Less(S1, S4F0, 1)), Has(Less(S4F0, S1, 1)), Has(Upper(S9F0, S6, PathOff::Minus(S1), -2147483647)), Has(Upper(S9F0, S6, PathOff::Minus(S4F0), -2147483647)),
    New, Known(Rng(S0, -2147483648, -2147483648)), Known(Less(S0, S3F0, 2147483647)), Known(Less(S1, S2, 8)), Copied(S3F0, S0, Holds::Bools), Facts(2), Has(Rng(S0, -2147483648, -2147483648)), Has(Less(S1, S2, 8)),
];

#[test]
fn copies_of_slots_give_their_facts(rt: HostRuntime) {
    agree(&rt, SLOTS_ROWS);
}

#[test]
fn copies_of_paths_give_their_facts(rt: HostRuntime) {
    agree(&rt, PATHS_ROWS);
}
