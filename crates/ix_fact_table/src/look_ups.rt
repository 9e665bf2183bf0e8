//! Look-ups among facts that rise by key, by binary search.

ghost use Rattle.std.specs.Prelude.{◌≡◌, ◌<◌, ◌++◌, true, false, length, slice_index_or, IfSome, IfNone};
ghost use Rattle.ix_core.specs.declared.fact.Path.{Path};
ghost use Rattle.ix_core.specs.declared.fact.Fact.{Fact};
ghost use Rattle.ix_core.specs.declared.fact.Fact.TheVariants.{Search};
ghost use Rattle.ix_facts.specs.declared.kind.Kind.TheVariants as kind;
ghost use Rattle.ix_facts.specs.Facts.{IsIn};
ghost use Rattle.ix_facts.specs.Kinds.{is_of, of_kind};
ghost use Rattle.ix_fact_table.specs.Rising.{rises};
ghost use Rattle.ix_fact_table.specs.FactOrder.{AtKey, comes_before};

use crate::order::compare_facts;
use ix_core::Fact;

/// Where the fact at the key stands.
pub(crate) fn place_of(facts: &[Fact], key: &Fact) -> Option<usize>
    requires rises { rises facts.now ≡ true }
    ensures found { IfSome result (λ place. (place < length facts.now) × ((d : Fact) → AtKey (slice_index_or facts.now place d) key.now)) }
    ensures none { IfNone result ((fact : Fact) → IsIn fact facts.now → AtKey fact key.now → ⊥) }
{
    match facts.binary_search_by(|fact| compare_facts(fact, key)) {
        Ok(place) => Some(place),
        Err(_) => None,
    }
}

fn is_range(fact: &Fact) -> bool
    ensures { result ≡ comes_before 1 fact.now }
{
    match *fact {
        Fact::Rng(_, _, _) | Fact::LenRng(_, _, _) => true,
        _ => false,
    }
}

/// Whether the fact is a range, a class or a length, which stand before all others.
fn is_before_differences(fact: &Fact) -> bool
    ensures { result ≡ comes_before 3 fact.now }
{
    match *fact {
        Fact::Rng(_, _, _)
        | Fact::LenRng(_, _, _)
        | Fact::Low(_, _)
        | Fact::Same(_, _)
        | Fact::IsLen(_, _) => true,
        _ => false,
    }
}

/// Whether the fact is neither an answer of a search nor a bound from an array's end, which stand behind all others.
fn is_before_searches(fact: &Fact) -> bool
    ensures { result ≡ comes_before 4 fact.now }
{
    match *fact {
        Fact::Search(_, _) | Fact::Neg(_, _) | Fact::Upper(_, _, _, _) => false,
        _ => true,
    }
}

/// The ranges, which stand at the front.
pub(crate) fn ranges_among(facts: &[Fact]) -> &[Fact]
    requires rises { rises facts.now ≡ true }
    ensures { result.now ≡ of_kind kind.Range facts.now }
{
    let count = facts.partition_point(|fact| is_range(fact));
    let (ranges, _) = facts.split_at(count);
    ranges
}

/// The facts from the first answer of a search on.
pub(crate) fn from_searches(facts: &[Fact]) -> &[Fact]
    requires rises { rises facts.now ≡ true }
    ensures all { (p a : Path) → IsIn (Search p a) facts.now → IsIn (Search p a) result.now }
    ensures only { (fact : Fact) → IsIn fact result.now → IsIn fact facts.now }
{
    let start = facts.partition_point(|fact| is_before_searches(fact));
    let (_, rest) = facts.split_at(start);
    rest
}

/// The facts before all differences and sums, and the others.
fn before_differences(facts: &[Fact]) -> (&[Fact], &[Fact])
    requires rises { rises facts.now ≡ true }
    ensures whole { facts.now ≡ result.0.now ++ result.1.now }
    ensures behind { (fact : Fact) → IsIn fact result.1.now → comes_before 3 fact ≡ false }
    ensures rises { rises result.1.now ≡ true }
{
    let start = facts.partition_point(|fact| is_before_differences(fact));
    facts.split_at(start)
}

/// The facts before all answers of searches, and the others.
fn before_searches(facts: &[Fact]) -> (&[Fact], &[Fact])
    requires rises { rises facts.now ≡ true }
    ensures whole { facts.now ≡ result.0.now ++ result.1.now }
    ensures front { (fact : Fact) → IsIn fact result.0.now → comes_before 4 fact ≡ true }
{
    let start = facts.partition_point(|fact| is_before_searches(fact));
    facts.split_at(start)
}

/// The facts before the differences and sums, these, and the facts behind them.
pub(crate) fn around_differences(facts: &[Fact]) -> (&[Fact], &[Fact], &[Fact])
    requires rises { rises facts.now ≡ true }
    ensures whole { facts.now ≡ result.0.now ++ (result.1.now ++ result.2.now) }
    ensures differences { (fact : Fact) → IsIn fact result.1.now → is_of kind.Difference fact ≡ true }
    ensures behind { (fact : Fact) → IsIn fact (result.1.now ++ result.2.now) → comes_before 3 fact ≡ false }
{
    let (front, rest) = before_differences(facts);
    let (differences, back) = before_searches(rest);
    (front, differences, back)
}
