//! The ends of ranges.

ghost use Rattle.std.specs.Prelude.{◌≡◌, All, IfSome};
ghost use Rattle.ix_facts.specs.Bounds as spec;
ghost use Rattle.ix_facts.specs.Small.{IsEnd, HasSmallNumbers};

use crate::groups::Groups;
use crate::numbers::{at_least, at_most};
use ix_core::{Fact, Path};
use ix_facts::is_same_path;

/// The least int.
const LEAST: i64 = -2147483648;

/// The greatest int.
const GREATEST: i64 = 2147483647;

/// The low end of a length's range.
fn length_low_by(p: &Path, fact: &Fact) -> Option<i64>
    requires { HasSmallNumbers fact.now }
    ensures { record {
      bound : result ≡ spec.length_low_by p.now fact.now;
      small : IfSome result IsEnd;
    } }
{
    match fact {
        Fact::LenRng(b, low, _) if is_same_path(b, p) => Some(*low),
        _ => None,
    }
}

/// The high end of a length's range.
fn length_high_by(p: &Path, fact: &Fact) -> Option<i64>
    requires { HasSmallNumbers fact.now }
    ensures { record {
      bound : result ≡ spec.length_high_by p.now fact.now;
      small : IfSome result IsEnd;
    } }
{
    match fact {
        Fact::LenRng(b, _, high) if is_same_path(b, p) => Some(*high),
        _ => None,
    }
}

/// The low end of an int's range, or the class that it is in.
fn range_low_by(p: &Path, fact: &Fact) -> Option<i64>
    requires { HasSmallNumbers fact.now }
    ensures { record {
      bound : result ≡ spec.range_low_by p.now fact.now;
      small : IfSome result IsEnd;
    } }
{
    match fact {
        Fact::Rng(q, low, _) if is_same_path(q, p) => Some(*low),
        Fact::Low(q, low) if is_same_path(q, p) => Some(*low as i64),
        _ => None,
    }
}

/// The high end of an int's range.
fn range_high_by(p: &Path, fact: &Fact) -> Option<i64>
    requires { HasSmallNumbers fact.now }
    ensures { record {
      bound : result ≡ spec.range_high_by p.now fact.now;
      small : IfSome result IsEnd;
    } }
{
    match fact {
        Fact::Rng(q, _, high) if is_same_path(q, p) => Some(*high),
        _ => None,
    }
}

fn length_low_on(on_p: &[Fact], p: &Path) -> i64
    requires { All HasSmallNumbers on_p.now }
    ensures { record {
      bound : result ≡ spec.length_low on_p.now p.now;
      small : IsEnd result;
    } }
{
    let mut bound = 0;
    for fact in on_p {
        bound = at_least(bound, length_low_by(p, fact));
    }
    bound
}

fn length_high_on(on_p: &[Fact], p: &Path) -> i64
    requires { All HasSmallNumbers on_p.now }
    ensures { record {
      bound : result ≡ spec.length_high on_p.now p.now;
      small : IsEnd result;
    } }
{
    let mut bound = GREATEST;
    for fact in on_p {
        bound = at_most(bound, length_high_by(p, fact));
    }
    bound
}

fn range_low_on(on_p: &[Fact], p: &Path) -> i64
    requires { All HasSmallNumbers on_p.now }
    ensures { record {
      bound : result ≡ spec.range_low on_p.now p.now;
      small : IsEnd result;
    } }
{
    let mut bound = LEAST;
    for fact in on_p {
        bound = at_least(bound, range_low_by(p, fact));
    }
    bound
}

fn range_high_on(on_p: &[Fact], p: &Path) -> i64
    requires { All HasSmallNumbers on_p.now }
    ensures { record {
      bound : result ≡ spec.range_high on_p.now p.now;
      small : IsEnd result;
    } }
{
    let mut bound = GREATEST;
    for fact in on_p {
        bound = at_most(bound, range_high_by(p, fact));
    }
    bound
}

/// The greatest number that the length is stored to be at least.
pub fn length_low<G: Groups>(facts: &G, p: &Path) -> i64
    ensures bound { result ≡ spec.length_low (G.all facts.now) p.now }
    ensures small { IsEnd result }
{
    length_low_on(facts.ends_on(p), p)
}

/// The least number that the length is stored to be at most.
pub fn length_high<G: Groups>(facts: &G, p: &Path) -> i64
    ensures bound { result ≡ spec.length_high (G.all facts.now) p.now }
    ensures small { IsEnd result }
{
    length_high_on(facts.ends_on(p), p)
}

/// The greatest number that the int is stored to be at least.
pub fn range_low<G: Groups>(facts: &G, p: &Path) -> i64
    ensures bound { result ≡ spec.range_low (G.all facts.now) p.now }
    ensures small { IsEnd result }
{
    range_low_on(facts.ends_on(p), p)
}

/// The least number that the int is stored to be at most.
pub fn range_high<G: Groups>(facts: &G, p: &Path) -> i64
    ensures bound { result ≡ spec.range_high (G.all facts.now) p.now }
    ensures small { IsEnd result }
{
    range_high_on(facts.ends_on(p), p)
}
