//! Stored bounds from an array's end, and stored differences.

ghost use Rattle.std.specs.Prelude.{◌≡◌, IfSome, pos, ◌-ℤ◌};
ghost use Rattle.std.specs.Option.{option_map};
ghost use Rattle.ix_num.specs.Ints.{IsInt};
ghost use Rattle.ix_core.specs.declared.fact.PathOff.TheVariants.{Nothing};
ghost use Rattle.ix_facts.specs.Bounds as spec;
ghost use Rattle.ix_facts.specs.Small.{IsEnd};
ghost use Rattle.ix_bounds.specs.Lengths.{length_less_by};

use crate::groups::Groups;
use crate::numbers::negated;
use crate::said::are_same;
use ix_core::{Fact, Path, PathOff};
use ix_facts::{greater, is_same_offset, is_same_path, lesser};

fn stored_upper_by<G: Groups>(
    facts: &G,
    p: &Path,
    a: &Path,
    offset: &PathOff,
    fact: &Fact,
) -> Option<i64>
    ensures { record {
      bound : result ≡ spec.stored_upper_by (G.all facts.now) p.now a.now offset.now fact.now;
      small : IfSome result IsInt;
    } }
{
    match (fact, offset) {
        (Fact::Upper(r, b, x, c), _) => {
            if is_same_path(r, p) && is_same_offset(x, offset) && are_same(facts, b, a) {
                Some(*c as i64)
            } else {
                None
            }
        }
        (Fact::IsLen(r, b), PathOff::Nothing) => {
            if is_same_path(r, p) && is_same_path(b, a) {
                Some(-1)
            } else {
                None
            }
        }
        _ => None,
    }
}

fn stored_upper_on<G: Groups>(
    facts: &G,
    p: &Path,
    a: &Path,
    offset: &PathOff,
    on_p: &[Fact],
) -> Option<i64>
    ensures { record {
      bound : result ≡ spec.greatest (spec.stored_upper_by (G.all facts.now) p.now a.now offset.now) on_p.now;
      small : IfSome result IsInt;
    } }
{
    let mut bound = None;
    for fact in on_p {
        bound = greater(bound, stored_upper_by(facts, p, a, offset, fact));
    }
    bound
}

/// The greatest bound that is stored of the int and the array, or of an array of the same length.
pub(crate) fn stored_upper<G: Groups>(
    facts: &G,
    p: &Path,
    a: &Path,
    offset: &PathOff,
) -> Option<i64>
    ensures bound { result ≡ spec.stored_upper (G.all facts.now) p.now a.now offset.now }
    ensures small { IfSome result IsInt }
{
    stored_upper_on(facts, p, a, offset, facts.on_path(p))
}

/// What is below a length is below the int that is this length.
fn below_length<G: Groups>(facts: &G, p: &Path, a: &Path) -> Option<i64>
    ensures { record {
      bound : result ≡ option_map (λ c. pos 0 -ℤ c) (spec.stored_upper (G.all facts.now) p.now a.now Nothing);
      small : IfSome result IsEnd;
    } }
{
    negated(stored_upper(facts, p, a, &PathOff::Nothing))
}

fn length_less_by<G: Groups>(facts: &G, p: &Path, q: &Path, fact: &Fact) -> Option<i64>
    ensures bound { result ≡ length_less_by (G.all facts.now) p.now q.now fact.now }
    ensures small { IfSome result IsEnd }
{
    match fact {
        Fact::IsLen(r, a) => {
            if is_same_path(r, q) {
                below_length(facts, p, a)
            } else {
                None
            }
        }
        _ => None,
    }
}

fn length_less_on<G: Groups>(facts: &G, p: &Path, q: &Path, lengths: &[Fact]) -> Option<i64>
    ensures { record {
      bound : result ≡ spec.least (length_less_by (G.all facts.now) p.now q.now) lengths.now;
      small : IfSome result IsEnd;
    } }
{
    let mut bound = None;
    for fact in lengths {
        bound = lesser(bound, length_less_by(facts, p, q, fact));
    }
    bound
}

/// The least c of a stored `p < q + c`; what is below a length is below the int that is this length.
pub(crate) fn stored_less<G: Groups>(facts: &G, p: &Path, q: &Path) -> Option<i64>
    ensures bound { result ≡ spec.stored_less (G.all facts.now) p.now q.now }
    ensures small { IfSome result IsEnd }
{
    let through_lengths = length_less_on(facts, p, q, facts.lengths_on(q));
    lesser(facts.fact_less(p, q), through_lengths)
}

fn fact_less_by(p: &Path, q: &Path, fact: &Fact) -> Option<i64>
    ensures { record {
      bound : result ≡ spec.fact_less_by p.now q.now fact.now;
      small : IfSome result IsEnd;
    } }
{
    match fact {
        Fact::Less(r, s, c) => {
            if is_same_path(r, p) && is_same_path(s, q) {
                Some(*c as i64)
            } else {
                None
            }
        }
        _ => None,
    }
}

/// The least c of the facts `p < q + c` among these, which a walk finds.
pub fn fact_less_among(facts: &[Fact], p: &Path, q: &Path) -> Option<i64>
    ensures { record {
      bound : result ≡ spec.least (spec.fact_less_by p.now q.now) facts.now;
      small : IfSome result IsEnd;
    } }
{
    let mut bound = None;
    for fact in facts {
        bound = lesser(bound, fact_less_by(p, q, fact));
    }
    bound
}
