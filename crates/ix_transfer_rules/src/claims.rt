//! What a claim adds where it is assumed.

ghost use Rattle.std.specs.Prelude.{◌≡◌, ◌++◌, ◌&&◌, OnOk};
ghost use Rattle.ix_facts.specs.Assume.{claim_facts};
ghost use Rattle.ix_core.specs.declared.fact.PathOff.TheVariants.{Nothing};
ghost use Rattle.ix_core.specs.declared.fact.Fact.TheVariants.{Rng, LenRng, Low, Same, Less, Search, Neg, Upper};

use ix_core::{Fact, Path, PathClaim, PathOff};
use ix_facts::is_same_path;
use ix_intervals::{push_fact, push_if};
use std::alloc::AllocError;

/// The facts of a claim of the path.
pub fn push_claim(out: &mut Vec<Fact>, claim: &PathClaim, p: &Path) -> Result<(), AllocError>
    ensures { OnOk result (out.new.items ≡ out.old.items ++ claim_facts claim.now p.now) }
{
    match *claim {
        PathClaim::Range(low, high) => push_fact(out, Fact::Rng(*p, low as i64, high as i64)),
        PathClaim::Low(low) => push_fact(out, Fact::Rng(*p, low as i64, 2147483647)).and(push_if(
            out,
            -1 <= low && low <= 1,
            Fact::Low(*p, low),
        )),
        PathClaim::Length(least) => push_fact(out, Fact::LenRng(*p, least as i64, 2147483647)),
        PathClaim::Same(other) => push_fact(out, Fact::Same(*p, other)),
        PathClaim::Less(q, c) => push_if(out, !is_same_path(p, &q), Fact::Less(*p, q, c)),
        PathClaim::Upper(a, offset, c) => push_fact(out, Fact::Upper(*p, a, offset, c)),
        PathClaim::Search(a) => push_fact(out, Fact::Search(*p, a)).and(push_fact(
            out,
            Fact::Upper(*p, a, PathOff::Nothing, 0),
        )),
        PathClaim::Negative(a) => push_fact(out, Fact::Neg(*p, a)).and(push_fact(
            out,
            Fact::Rng(*p, -2147483648, -1),
        )),
    }
}
