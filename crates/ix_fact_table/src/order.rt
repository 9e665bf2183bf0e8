//! The order of facts by their keys.

ghost use Rattle.std.specs.Prelude.{◌≡◌, pos};
ghost use Rattle.std.specs.Ordering.{ordering_then};
ghost use Rattle.ix_core.specs.declared.fact.Path.TheVariants.{Slot};
ghost use Rattle.ix_core.specs.declared.fact.Fact.TheVariants.{Less};
ghost use Rattle.ix_facts.specs.PathOrder.{path_cmp, offset_cmp};
ghost use Rattle.ix_fact_table.specs.FactOrder as spec;
ghost use Rattle.ix_fact_table.specs.FactOrder.{third, fact_cmp, kind_cmp, rest_cmp};

use ix_core::{Fact, Path};
use ix_fact_paths::{compare_offsets, compare_paths};
use std::cmp::Ordering;

/// The path that a fact speaks of first.
fn first_path(fact: &Fact) -> &Path
    ensures { result.now ≡ spec.first_path fact.now }
{
    match fact {
        Fact::Rng(p, _, _)
        | Fact::LenRng(p, _, _)
        | Fact::Low(p, _)
        | Fact::Same(p, _)
        | Fact::IsLen(p, _)
        | Fact::Less(p, _, _)
        | Fact::Sum(p, _, _)
        | Fact::Search(p, _)
        | Fact::Neg(p, _)
        | Fact::Upper(p, _, _, _) => p,
    }
}

/// The place of its kind among the kinds.
fn kind_place(fact: &Fact) -> u8
    ensures { result ≡ spec.kind_place fact.now }
{
    match *fact {
        Fact::Rng(_, _, _) | Fact::LenRng(_, _, _) => 0,
        Fact::Low(_, _) => 1,
        Fact::Same(_, _) | Fact::IsLen(_, _) => 2,
        Fact::Less(_, _, _) | Fact::Sum(_, _, _) => 3,
        Fact::Search(_, _) | Fact::Neg(_, _) => 4,
        Fact::Upper(_, _, _, _) => 5,
    }
}

/// The place of its form among the forms.
fn form(fact: &Fact) -> u8
    ensures { result ≡ spec.form fact.now }
{
    match *fact {
        Fact::Rng(_, _, _) => 0,
        Fact::LenRng(_, _, _) => 1,
        Fact::Low(_, _) => 2,
        Fact::Same(_, _) => 3,
        Fact::IsLen(_, _) => 4,
        Fact::Less(_, _, _) => 5,
        Fact::Sum(_, _, _) => 6,
        Fact::Search(_, _) => 7,
        Fact::Neg(_, _) => 8,
        Fact::Upper(_, _, _, _) => 9,
    }
}

/// How many forms speak of one path alone: they come first.
const FORMS_OF_ONE_PATH: u8 = 3;

/// The path that it speaks of second; where there is none, that of the first slot.
fn second_path(fact: &Fact) -> &Path
    ensures { result.now ≡ spec.second_path fact.now }
{
    match fact {
        Fact::Same(_, q)
        | Fact::IsLen(_, q)
        | Fact::Less(_, q, _)
        | Fact::Sum(_, q, _)
        | Fact::Search(_, q)
        | Fact::Neg(_, q)
        | Fact::Upper(_, q, _, _) => q,
        _ => &Path::Slot(0),
    }
}

/// By third path, which only a sum and a bound have.
fn compare_thirds(fact: &Fact, other: &Fact) -> Ordering
    requires form { spec.form fact.now ≡ spec.form other.now }
    ensures { result ≡ offset_cmp (third fact.now) (third other.now) }
{
    match (fact, other) {
        (Fact::Sum(_, _, z), Fact::Sum(_, _, w)) => compare_paths(z, w),
        (Fact::Upper(_, _, x, _), Fact::Upper(_, _, y, _)) => compare_offsets(x, y),
        _ => Ordering::Equal,
    }
}

/// By second and third path.
fn compare_others(fact: &Fact, other: &Fact) -> Ordering
    requires form { spec.form fact.now ≡ spec.form other.now }
    ensures { result ≡ ordering_then (path_cmp (spec.second_path fact.now) (spec.second_path other.now)) (offset_cmp (third fact.now) (third other.now)) }
{
    match compare_paths(second_path(fact), second_path(other)) {
        Ordering::Less => Ordering::Less,
        Ordering::Greater => Ordering::Greater,
        Ordering::Equal => compare_thirds(fact, other),
    }
}

/// By form, second and third path. Facts of one path alone are equal where their forms are.
fn compare_rest(fact: &Fact, other: &Fact) -> Ordering
    ensures { result ≡ rest_cmp fact.now other.now }
{
    let place = form(fact);
    match place.cmp(&form(other)) {
        Ordering::Less => Ordering::Less,
        Ordering::Greater => Ordering::Greater,
        Ordering::Equal => {
            if place < FORMS_OF_ONE_PATH {
                return Ordering::Equal;
            }
            compare_others(fact, other)
        }
    }
}

/// The order of two facts of one kind: by first path, and by the rest.
fn compare_own(fact: &Fact, other: &Fact) -> Ordering
    ensures { result ≡ kind_cmp fact.now other.now }
{
    match compare_paths(first_path(fact), first_path(other)) {
        Ordering::Less => Ordering::Less,
        Ordering::Greater => Ordering::Greater,
        Ordering::Equal => compare_rest(fact, other),
    }
}

/// The order of two facts of any form, by the same rule.
#[inline(never)]
fn compare_parts(fact: &Fact, other: &Fact) -> Ordering
    ensures { result ≡ fact_cmp fact.now other.now }
{
    match kind_place(fact).cmp(&kind_place(other)) {
        Ordering::Less => Ordering::Less,
        Ordering::Greater => Ordering::Greater,
        Ordering::Equal => compare_own(fact, other),
    }
}

/// The order of the differences of the slots p and q, and r and s.
#[inline(always)]
fn compare_slots(p: u32, q: u32, r: u32, s: u32) -> Ordering
    ensures { result ≡ fact_cmp (Less (Slot p) (Slot q) (pos 0)) (Less (Slot r) (Slot s) (pos 0)) }
{
    if p < r {
        return Ordering::Less;
    }
    if p > r {
        return Ordering::Greater;
    }
    if q < s {
        return Ordering::Less;
    }
    if q > s {
        return Ordering::Greater;
    }
    Ordering::Equal
}

/// The order of facts by their keys: by kind, then by the first path, then by form, then by the other paths. Numbers don't count. Most facts that are compared are differences
/// of slots: these are compared by their numbers, where the call stands.
#[inline(always)]
pub fn compare_facts(fact: &Fact, other: &Fact) -> Ordering
    ensures { result ≡ fact_cmp fact.now other.now }
{
    match (*fact, *other) {
        (
            Fact::Less(Path::Slot(p), Path::Slot(q), _),
            Fact::Less(Path::Slot(r), Path::Slot(s), _),
        ) => compare_slots(p, q, r, s),
        _ => compare_parts(fact, other),
    }
}
