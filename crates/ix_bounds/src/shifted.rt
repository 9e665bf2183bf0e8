//! Bounds from an array's end through one difference.

ghost use Rattle.std.specs.Prelude.{◌≡◌, IfSome};
ghost use Rattle.std.specs.Int.{int_max};
ghost use Rattle.ix_num.specs.Ints.{IsInt};
ghost use Rattle.ix_facts.specs.Bounds as spec;
ghost use Rattle.ix_facts.specs.Bounds.{is_path, is_offset, best, when};
ghost use Rattle.ix_facts.specs.Exact.{each};
ghost use Rattle.ix_facts.specs.Small.{IsLimit};
ghost use Rattle.ix_bounds.specs.OnArrays.{alike_on};

use crate::groups::Groups;
use crate::numbers::through;
use crate::said::are_same;
use crate::stored::{stored_less, stored_upper};
use ix_core::{Fact, Path, PathOff};
use ix_facts::{greater, is_same_offset, is_same_path};

/// A bound at one offset as one at another that is smaller.
fn offset_moved<G: Groups>(facts: &G, c: i64, from: &PathOff, to: &PathOff) -> Option<i64>
    requires { IsInt c }
    ensures { record {
      bound : result ≡ spec.offset_moved (G.all facts.now) c from.now to.now;
      small : IfSome result IsLimit;
    } }
{
    match (from, to) {
        (PathOff::Plus(q), PathOff::Plus(r)) => through(c, stored_less(facts, r, q)),
        (PathOff::Minus(q), PathOff::Minus(r)) => through(c, stored_less(facts, q, r)),
        _ => None,
    }
}

/// A bound c of r at the offset x, as one of p.
fn shifted_of<G: Groups>(
    facts: &G,
    p: &Path,
    offset: &PathOff,
    r: &Path,
    x: &PathOff,
    c: i64,
) -> Option<i64>
    requires { IsInt c }
    ensures { record {
      bound : result ≡ best int_max (when (is_offset x.now offset.now) (spec.through (G.all facts.now) c (spec.stored_less (G.all facts.now) p.now r.now))) (when (is_path r.now p.now) (spec.offset_moved (G.all facts.now) c x.now offset.now));
      small : IfSome result IsLimit;
    } }
{
    let below = if is_same_offset(x, offset) {
        through(c, stored_less(facts, p, r))
    } else {
        None
    };
    let moved = if is_same_path(r, p) {
        offset_moved(facts, c, x, offset)
    } else {
        None
    };
    greater(below, moved)
}

fn shifted_by<G: Groups>(
    facts: &G,
    p: &Path,
    a: &Path,
    offset: &PathOff,
    fact: &Fact,
) -> Option<i64>
    ensures { record {
      bound : result ≡ spec.shifted_by (G.all facts.now) p.now a.now offset.now fact.now;
      small : IfSome result IsLimit;
    } }
{
    match (fact, offset) {
        (Fact::Upper(r, b, x, c), _) => {
            // Few facts fit, and whether the lengths are the same may be a walk over facts.
            let fits = is_same_offset(x, offset) || is_same_path(r, p);
            if fits && are_same(facts, b, a) {
                shifted_of(facts, p, offset, r, x, *c as i64)
            } else {
                None
            }
        }
        (Fact::IsLen(r, b), PathOff::Nothing) => {
            if is_same_path(b, a) {
                through(-1, stored_less(facts, p, r))
            } else {
                None
            }
        }
        _ => None,
    }
}

/// The better of a bound and of those through differences by the facts on one array.
fn shifted_on<G: Groups>(
    facts: &G,
    p: &Path,
    a: &Path,
    offset: &PathOff,
    on_array: &[Fact],
    first: Option<i64>,
) -> Option<i64>
    requires { IfSome first IsLimit }
    ensures { record {
      bound : result ≡ best int_max first (spec.greatest (spec.shifted_by (G.all facts.now) p.now a.now offset.now) on_array.now);
      small : IfSome result IsLimit;
    } }
{
    let mut bound = first;
    for fact in on_array {
        bound = greater(bound, shifted_by(facts, p, a, offset, fact));
    }
    bound
}

/// The same by the facts on another array of which a fact says that it has the length of a. The bound counts those on a already.
fn shifted_alike<G: Groups>(
    facts: &G,
    p: &Path,
    a: &Path,
    offset: &PathOff,
    fact: &Fact,
    first: Option<i64>,
) -> Option<i64>
    requires { record {
      small : IfSome first IsLimit;
      counted : best int_max first (spec.greatest (spec.shifted_by (G.all facts.now) p.now a.now offset.now) (G.group facts.now a.now)) ≡ first;
    } }
    ensures { record {
      bound : result ≡ best int_max first (spec.greatest (spec.shifted_by (G.all facts.now) p.now a.now offset.now) (alike_on (G.group facts.now) a.now fact.now));
      small : IfSome result IsLimit;
    } }
{
    match fact {
        Fact::Same(b, c) => {
            if is_same_path(c, a) && !is_same_path(b, a) {
                shifted_on(facts, p, a, offset, facts.on_path(b), first)
            } else {
                first
            }
        }
        _ => first,
    }
}

fn shifted_over<G: Groups>(
    facts: &G,
    p: &Path,
    a: &Path,
    offset: &PathOff,
    on_a: &[Fact],
    first: Option<i64>,
) -> Option<i64>
    requires small { IfSome first IsLimit }
    requires counted { best int_max first (spec.greatest (spec.shifted_by (G.all facts.now) p.now a.now offset.now) (G.group facts.now a.now)) ≡ first }
    ensures { record {
      bound : result ≡ best int_max first (spec.greatest (spec.shifted_by (G.all facts.now) p.now a.now offset.now) (each (alike_on (G.group facts.now) a.now) on_a.now));
      small : IfSome result IsLimit;
    } }
{
    let mut bound = first;
    for fact in on_a {
        bound = shifted_alike(facts, p, a, offset, fact, bound);
    }
    bound
}

/// The greatest bound that is stored, or that is stored of a greater int or at a greater offset: by the facts on the array, and on those of its length.
pub(crate) fn shifted_upper<G: Groups>(
    facts: &G,
    p: &Path,
    a: &Path,
    offset: &PathOff,
) -> Option<i64>
    ensures bound { result ≡ spec.shifted_upper (G.all facts.now) p.now a.now offset.now }
    ensures small { IfSome result IsLimit }
{
    let on_a = facts.on_path(a);
    let here = shifted_on(facts, p, a, offset, on_a, stored_upper(facts, p, a, offset));
    shifted_over(facts, p, a, offset, on_a, here)
}
