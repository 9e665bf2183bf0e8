//! Whether a fact says that two arrays have the same length, or that an int is a length or an answer of a search.

ghost use Rattle.std.specs.Prelude.{◌≡◌};
ghost use Rattle.ix_facts.specs.Assume.{has, is_length, is_search, is_negative};
ghost use Rattle.ix_facts.specs.Bounds as spec;

use crate::groups::Groups;
use ix_core::{Fact, Path};
use ix_facts::is_same_path;

fn says_same(a: &Path, b: &Path, fact: &Fact) -> bool
    ensures { result ≡ spec.says_same a.now b.now fact.now }
{
    match fact {
        Fact::Same(c, d) => is_same_path(c, a) && is_same_path(d, b),
        _ => false,
    }
}

fn same_on(on_a: &[Fact], a: &Path, b: &Path) -> bool
    ensures { result ≡ spec.stored_same on_a.now a.now b.now }
{
    for fact in on_a {
        if says_same(a, b, fact) {
            return true;
        }
    }
    false
}

/// Whether a fact says that two arrays have the same length.
pub fn stored_same<G: Groups>(facts: &G, a: &Path, b: &Path) -> bool
    ensures { result ≡ spec.stored_same (G.all facts.now) a.now b.now }
{
    same_on(facts.on_path(a), a, b)
}

/// Whether two arrays are known to have the same length. An array has its own.
pub(crate) fn are_same<G: Groups>(facts: &G, a: &Path, b: &Path) -> bool
    ensures { result ≡ spec.are_same (G.all facts.now) a.now b.now }
{
    is_same_path(a, b) || stored_same(facts, a, b)
}

fn says_length(p: &Path, a: &Path, fact: &Fact) -> bool
    ensures { result ≡ is_length p.now a.now fact.now }
{
    match fact {
        Fact::IsLen(q, b) => is_same_path(q, p) && is_same_path(b, a),
        _ => false,
    }
}

fn says_search(p: &Path, a: &Path, fact: &Fact) -> bool
    ensures { result ≡ is_search p.now a.now fact.now }
{
    match fact {
        Fact::Search(q, b) => is_same_path(q, p) && is_same_path(b, a),
        _ => false,
    }
}

fn says_negative(p: &Path, a: &Path, fact: &Fact) -> bool
    ensures { result ≡ is_negative p.now a.now fact.now }
{
    match fact {
        Fact::Neg(q, b) => is_same_path(q, p) && is_same_path(b, a),
        _ => false,
    }
}

fn length_on(on_p: &[Fact], p: &Path, a: &Path) -> bool
    ensures { result ≡ has (is_length p.now a.now) on_p.now }
{
    for fact in on_p {
        if says_length(p, a, fact) {
            return true;
        }
    }
    false
}

fn search_on(on_p: &[Fact], p: &Path, a: &Path) -> bool
    ensures { result ≡ has (is_search p.now a.now) on_p.now }
{
    for fact in on_p {
        if says_search(p, a, fact) {
            return true;
        }
    }
    false
}

fn negative_on(on_p: &[Fact], p: &Path, a: &Path) -> bool
    ensures { result ≡ has (is_negative p.now a.now) on_p.now }
{
    for fact in on_p {
        if says_negative(p, a, fact) {
            return true;
        }
    }
    false
}

/// Whether a fact says that the int is the array's length.
pub fn has_length<G: Groups>(facts: &G, p: &Path, a: &Path) -> bool
    ensures { result ≡ has (is_length p.now a.now) (G.all facts.now) }
{
    length_on(facts.on_path(p), p, a)
}

/// Whether a fact says that the int is an answer of a search in the array.
pub fn has_search<G: Groups>(facts: &G, p: &Path, a: &Path) -> bool
    ensures { result ≡ has (is_search p.now a.now) (G.all facts.now) }
{
    search_on(facts.on_path(p), p, a)
}

/// Whether a fact says that it is a negative answer.
pub fn has_negative<G: Groups>(facts: &G, p: &Path, a: &Path) -> bool
    ensures { result ≡ has (is_negative p.now a.now) (G.all facts.now) }
{
    negative_on(facts.on_path(p), p, a)
}
