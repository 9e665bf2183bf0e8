//! Which claims what is known proves.

ghost use Rattle.std.specs.Prelude.{◌≡◌, ◌||◌, int_le, []};
ghost use Rattle.ix_facts.specs.Bounds as spec;
ghost use Rattle.ix_facts.specs.Facts.{in_orders};
ghost use Rattle.ix_facts.specs.AfterOperation as after;
ghost use Rattle.ix_facts.specs.Assume as claims;
ghost use Rattle.ix_facts.specs.Assume.{has};

use ix_core::{Path, PathClaim, PathOff};
use ix_facts::Know;

fn reaches(number: Option<i64>, n: i64) -> bool
    ensures { result ≡ after.reaches [] number n }
{
    match number {
        Some(c) => n <= c,
        None => false,
    }
}

/// Whether `p + offset + c < a.length` is known.
fn is_below<K: Know>(know: &K, p: &Path, a: &Path, offset: &PathOff, c: &i32) -> bool
    ensures { result ≡ after.reaches (in_orders (K.known know.now)) (spec.upper_bound (in_orders (K.known know.now)) p.now a.now offset.now) c.now }
{
    reaches(know.upper(p, a, offset), *c as i64)
}

/// Whether `p < q + c` is known.
fn is_less<K: Know>(know: &K, p: &Path, q: &Path, c: i64) -> bool
    ensures { result ≡ int_le (spec.less_bound (in_orders (K.known know.now)) p.now q.now) c }
{
    match know.less(p, q) {
        Some(n) => n <= c,
        None => false,
    }
}

fn is_from_minus_length<K: Know>(know: &K, p: &Path, a: &Path) -> bool
    ensures { result ≡ claims.from_minus_length (in_orders (K.known know.now)) p.now a.now }
{
    -1 - know.len_lo(a) <= know.lo(p)
}

fn has_search<K: Know>(know: &K, p: &Path, a: &Path) -> bool
    ensures { result ≡ has (claims.is_search p.now a.now) (in_orders (K.known know.now)) }
{
    know.search(p, a)
}

fn has_negative<K: Know>(know: &K, p: &Path, a: &Path) -> bool
    ensures { result ≡ has (claims.is_negative p.now a.now) (in_orders (K.known know.now)) }
{
    know.negative(p, a)
}

/// Whether what is known proves the claim of the path: by its bounds; that two arrays have the same length by a stored fact alone; an answer of a search
/// by a stored fact or by its ends, and a negative one likewise. It takes no memory.
pub fn is_proved<K: Know>(know: &K, claim: &PathClaim, p: &Path) -> bool
    ensures proved { result ≡ claims.proves (in_orders (K.known know.now)) claim.now p.now }
{
    match claim {
        PathClaim::Range(low, high) => *low as i64 <= know.lo(p) && know.hi(p) <= *high as i64,
        PathClaim::Low(low) => *low as i64 <= know.lo(p),
        PathClaim::Length(least) => *least as i64 <= know.len_lo(p),
        PathClaim::Same(other) => know.same(p, other),
        PathClaim::Less(q, c) => is_less(know, p, q, *c as i64),
        PathClaim::Upper(a, offset, c) => is_below(know, p, a, offset, c),
        PathClaim::Search(a) => {
            has_search(know, p, a)
                || is_below(know, p, a, &PathOff::Nothing, &0) && is_from_minus_length(know, p, a)
        }
        PathClaim::Negative(a) => {
            has_negative(know, p, a)
                || know.hi(p) <= -1 && (has_search(know, p, a) || is_from_minus_length(know, p, a))
        }
    }
}
