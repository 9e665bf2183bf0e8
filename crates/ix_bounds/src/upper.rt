//! Bounds from an array's end and differences, in all ways.

ghost use Rattle.std.specs.Prelude.{◌≡◌, IfSome, ◌+ℤ◌, ◌-ℤ◌};
ghost use Rattle.std.specs.Option.{option_map};
ghost use Rattle.ix_core.specs.declared.fact.PathOff.TheVariants.{Nothing};
ghost use Rattle.ix_core.specs.declared.fact.Fact.TheVariants.{Upper};
ghost use Rattle.ix_facts.specs.Bounds as spec;
ghost use Rattle.ix_facts.specs.Small.{IsLimit, IsBound};

use crate::ends::length_low;
use crate::groups::Groups;
use crate::limits::{lower_bound, upper_limit};
use crate::numbers::{apart, at_most};
use crate::said::are_same;
use crate::shifted::shifted_upper;
use crate::stored::{stored_less, stored_upper};
use ix_core::{Fact, Path, PathOff};
use ix_facts::{greater, is_same_path};

/// A stored bound of r and b at an offset, as one of the int and the array without.
fn without_offset<G: Groups>(
    facts: &G,
    p: &Path,
    a: &Path,
    r: &Path,
    b: &Path,
    offset: &PathOff,
    c: i32,
) -> Option<i64>
    ensures { record {
      bound : result ≡ spec.upper_by (G.all facts.now) p.now a.now Nothing (Upper r.now b.now offset.now c);
      small : IfSome result IsBound;
    } }
{
    match offset {
        PathOff::Plus(q) if is_same_path(r, p) && are_same(facts, b, a) => {
            Some(c as i64 + lower_bound(facts, q))
        }
        PathOff::Minus(q) if is_same_path(r, p) && are_same(facts, b, a) => {
            Some(c as i64 - upper_limit(facts, q))
        }
        _ => None,
    }
}

/// A bound at an offset as one without, and the bound of a sum as one of its parts.
fn upper_by<G: Groups>(facts: &G, p: &Path, a: &Path, offset: &PathOff, fact: &Fact) -> Option<i64>
    ensures { record {
      bound : result ≡ spec.upper_by (G.all facts.now) p.now a.now offset.now fact.now;
      small : IfSome result IsBound;
    } }
{
    match (fact, offset) {
        (Fact::Upper(r, b, x, c), PathOff::Nothing) => without_offset(facts, p, a, r, b, x, *c),
        (Fact::Sum(t, y, z), PathOff::Plus(q)) => {
            if is_same_path(y, p) && is_same_path(z, q) {
                stored_upper(facts, t, a, &PathOff::Nothing)
            } else {
                None
            }
        }
        (Fact::Sum(t, y, z), PathOff::Minus(q)) => {
            if is_same_path(t, p) && is_same_path(z, q) {
                stored_upper(facts, y, a, &PathOff::Nothing)
            } else {
                None
            }
        }
        _ => None,
    }
}

/// A bound less an int's upper limit, which is asked only where there is a bound.
fn less_limit<G: Groups>(facts: &G, bound: Option<i64>, q: &Path) -> Option<i64>
    requires bound { IfSome bound IsLimit }
    ensures { record {
      value : result ≡ option_map (λ c. c -ℤ spec.upper_limit (G.all facts.now) q.now) bound;
      small : IfSome result IsBound;
    } }
{
    match bound {
        None => None,
        Some(c) => Some(c - upper_limit(facts, q)),
    }
}

/// A bound and an int's lower bound, which is asked only where there is a bound.
fn more_low<G: Groups>(facts: &G, bound: Option<i64>, q: &Path) -> Option<i64>
    requires bound { IfSome bound IsLimit }
    ensures { record {
      value : result ≡ option_map (λ c. c +ℤ spec.lower_bound (G.all facts.now) q.now) bound;
      small : IfSome result IsBound;
    } }
{
    match bound {
        None => None,
        Some(c) => Some(c + lower_bound(facts, q)),
    }
}

/// A bound by the ends of ranges: of the int and the length without an offset, of the offset else.
fn upper_from_ends<G: Groups>(facts: &G, p: &Path, a: &Path, offset: &PathOff) -> Option<i64>
    ensures bound { result ≡ spec.upper_from_ends (G.all facts.now) p.now a.now offset.now }
    ensures small { IfSome result IsBound }
{
    match *offset {
        PathOff::Nothing => Some(length_low(facts, a) - 1 - upper_limit(facts, p)),
        PathOff::Plus(q) => {
            let left = less_limit(facts, shifted_upper(facts, p, a, &PathOff::Nothing), &q);
            let right = less_limit(facts, shifted_upper(facts, &q, a, &PathOff::Nothing), p);
            greater(left, right)
        }
        PathOff::Minus(q) => more_low(facts, shifted_upper(facts, p, a, &PathOff::Nothing), &q),
    }
}

/// The greatest bound of what the facts give one by one.
fn greatest_upper_by<G: Groups>(
    facts: &G,
    p: &Path,
    a: &Path,
    offset: &PathOff,
    on_p: &[Fact],
) -> Option<i64>
    ensures { record {
      bound : result ≡ spec.greatest (spec.upper_by (G.all facts.now) p.now a.now offset.now) on_p.now;
      small : IfSome result IsBound;
    } }
{
    let mut bound = None;
    for fact in on_p {
        bound = greater(bound, upper_by(facts, p, a, offset, fact));
    }
    bound
}

/// The greatest c for which `p + offset + c < a.length` is known.
pub fn upper_bound<G: Groups>(facts: &G, p: &Path, a: &Path, offset: &PathOff) -> Option<i64>
    ensures bound { result ≡ spec.upper_bound (G.all facts.now) p.now a.now offset.now }
    ensures small { IfSome result IsBound }
{
    let ends = upper_from_ends(facts, p, a, offset);
    let others = greatest_upper_by(facts, p, a, offset, facts.on_path(p));
    greater(shifted_upper(facts, p, a, offset), greater(ends, others))
}

/// The least c for which `p < q + c` is known.
pub fn less_bound<G: Groups>(facts: &G, p: &Path, q: &Path) -> i64
    ensures bound { result ≡ spec.less_bound (G.all facts.now) p.now q.now }
    ensures small { IsBound result }
{
    at_most(
        apart(upper_limit(facts, p), lower_bound(facts, q)),
        stored_less(facts, p, q),
    )
}
