//! The ends of the new range of a target.

ghost use Rattle.std.specs.Prelude.{◌≡◌};
ghost use Rattle.ix_facts.specs.Bounds as spec;
ghost use Rattle.ix_core.specs.declared.fact.Fact.TheVariants.{Rng, LenRng, Low};

use ix_core::{Fact, Path};
use ix_facts::is_same_path;

fn low_of(t: &Path, fact: &Fact, low: i64) -> i64
    ensures value { result ≡ spec.at_least low (spec.range_low_by t.now fact.now) }
{
    match *fact {
        Fact::Rng(p, l, _) => if is_same_path(&p, t) { low.max(l) } else { low },
        Fact::Low(p, c) => if is_same_path(&p, t) {
            low.max(c as i64)
        } else {
            low
        },
        _ => low,
    }
}

fn high_of(t: &Path, fact: &Fact, high: i64) -> i64
    ensures value { result ≡ spec.at_most high (spec.range_high_by t.now fact.now) }
{
    match *fact {
        Fact::Rng(p, _, h) => if is_same_path(&p, t) {
            high.min(h)
        } else {
            high
        },
        _ => high,
    }
}

fn length_of(t: &Path, fact: &Fact, low: i64) -> i64
    ensures value { result ≡ spec.at_least low (spec.length_low_by t.now fact.now) }
{
    match *fact {
        Fact::LenRng(a, l, _) => if is_same_path(&a, t) { low.max(l) } else { low },
        _ => low,
    }
}

pub(crate) fn new_low(new: &[Fact], t: &Path) -> i64
    ensures value { result ≡ spec.range_low new.now t.now }
{
    let mut low = -2147483648;
    for fact in new {
        low = low_of(t, fact, low);
    }
    low
}

pub(crate) fn new_high(new: &[Fact], t: &Path) -> i64
    ensures value { result ≡ spec.range_high new.now t.now }
{
    let mut high = 2147483647;
    for fact in new {
        high = high_of(t, fact, high);
    }
    high
}

pub(crate) fn new_length(new: &[Fact], t: &Path) -> i64
    ensures value { result ≡ spec.length_low new.now t.now }
{
    let mut low = 0;
    for fact in new {
        low = length_of(t, fact, low);
    }
    low
}
