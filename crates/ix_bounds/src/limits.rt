//! What an int is at least and at most.

ghost use Rattle.std.specs.Prelude.{◌≡◌, IfSome};
ghost use Rattle.ix_core.specs.declared.fact.Fact.TheVariants.{Upper};
ghost use Rattle.ix_facts.specs.Bounds as spec;
ghost use Rattle.ix_facts.specs.Small.{IsLimit};

use crate::ends::{length_high, length_low, range_high, range_low};
use crate::groups::Groups;
use crate::numbers::{at_least, at_most, past, short_of, within};
use ix_core::{Fact, Path, PathOff};
use ix_facts::is_same_path;

/// What a smaller int or an array's length gives of the int from below.
fn lower_by<G: Groups>(facts: &G, p: &Path, fact: &Fact) -> Option<i64>
    ensures { record {
      bound : result ≡ spec.lower_by (G.all facts.now) p.now fact.now;
      small : IfSome result IsLimit;
    } }
{
    match fact {
        Fact::Less(q, r, c) => {
            if is_same_path(r, p) {
                Some(past(range_low(facts, q), *c as i64))
            } else {
                None
            }
        }
        Fact::IsLen(r, a) if is_same_path(r, p) => Some(length_low(facts, a)),
        _ => None,
    }
}

fn lower_among<G: Groups>(facts: &G, p: &Path, on_p: &[Fact]) -> i64
    ensures { record {
      bound : result ≡ spec.at_least (spec.range_low (G.all facts.now) p.now) (spec.greatest (spec.lower_by (G.all facts.now) p.now) on_p.now);
      small : IsLimit result;
    } }
{
    let mut bound = range_low(facts, p);
    for fact in on_p {
        bound = at_least(bound, lower_by(facts, p, fact));
    }
    bound
}

/// The greatest number that the int is known to be at least.
pub fn lower_bound<G: Groups>(facts: &G, p: &Path) -> i64
    ensures bound { result ≡ spec.lower_bound (G.all facts.now) p.now }
    ensures small { IsLimit result }
{
    lower_among(facts, p, facts.links_on(p))
}

/// What a bound of r from the array's end gives of the int from above.
fn limit_by_upper<G: Groups>(
    facts: &G,
    p: &Path,
    r: &Path,
    a: &Path,
    offset: &PathOff,
    c: i32,
) -> Option<i64>
    ensures { record {
      bound : result ≡ spec.limit_by (G.all facts.now) p.now (Upper r.now a.now offset.now c);
      small : IfSome result IsLimit;
    } }
{
    match offset {
        PathOff::Nothing => {
            if is_same_path(r, p) {
                Some(within(length_high(facts, a), c as i64))
            } else {
                None
            }
        }
        _ => None,
    }
}

/// What a greater int or an array's length gives of the int from above.
fn limit_by<G: Groups>(facts: &G, p: &Path, fact: &Fact) -> Option<i64>
    ensures bound { result ≡ spec.limit_by (G.all facts.now) p.now fact.now }
    ensures small { IfSome result IsLimit }
{
    match fact {
        Fact::Less(r, q, c) => {
            if is_same_path(r, p) {
                Some(short_of(range_high(facts, q), *c as i64))
            } else {
                None
            }
        }
        Fact::Upper(r, a, offset, c) => limit_by_upper(facts, p, r, a, offset, *c),
        Fact::IsLen(r, a) if is_same_path(r, p) => Some(length_high(facts, a)),
        _ => None,
    }
}

fn limit_among<G: Groups>(facts: &G, p: &Path, on_p: &[Fact]) -> i64
    ensures { record {
      bound : result ≡ spec.at_most (spec.range_high (G.all facts.now) p.now) (spec.least (spec.limit_by (G.all facts.now) p.now) on_p.now);
      small : IsLimit result;
    } }
{
    let mut bound = range_high(facts, p);
    for fact in on_p {
        bound = at_most(bound, limit_by(facts, p, fact));
    }
    bound
}

/// The least number that the int is known to be at most.
pub fn upper_limit<G: Groups>(facts: &G, p: &Path) -> i64
    ensures bound { result ≡ spec.upper_limit (G.all facts.now) p.now }
    ensures small { IsLimit result }
{
    limit_among(facts, p, facts.on_path(p))
}
