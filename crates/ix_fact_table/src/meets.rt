//! Two facts at one key as one fact.

ghost use Rattle.std.specs.Prelude.{◌≡◌};
ghost use Rattle.ix_fact_table.specs.Meets as spec;
ghost use Rattle.ix_fact_table.specs.Walks as walks;

use ix_core::Fact;

/// What the two facts say together, where they stand at one key.
pub(crate) fn met(fact: &Fact, other: &Fact) -> Fact
    ensures { result ≡ spec.met fact.now other.now }
{
    match (*fact, *other) {
        (Fact::Rng(p, l, h), Fact::Rng(_, m, k)) => Fact::Rng(p, l.max(m), h.min(k)),
        (Fact::LenRng(a, l, h), Fact::LenRng(_, m, k)) => Fact::LenRng(a, l.max(m), h.min(k)),
        (Fact::Low(p, c), Fact::Low(_, d)) => Fact::Low(p, c.max(d)),
        (Fact::Less(p, q, c), Fact::Less(_, _, d)) => Fact::Less(p, q, c.min(d)),
        (Fact::Upper(p, a, o, c), Fact::Upper(_, _, _, d)) => Fact::Upper(p, a, o, c.max(d)),
        _ => *fact,
    }
}

/// The strongest fact that both say, where they stand at one key.
pub(crate) fn common(fact: &Fact, other: &Fact) -> Fact
    ensures { result ≡ spec.common fact.now other.now }
{
    match (*fact, *other) {
        (Fact::Rng(p, l, h), Fact::Rng(_, m, k)) => Fact::Rng(p, l.min(m), h.max(k)),
        (Fact::LenRng(a, l, h), Fact::LenRng(_, m, k)) => Fact::LenRng(a, l.min(m), h.max(k)),
        (Fact::Low(p, c), Fact::Low(_, d)) => Fact::Low(p, c.min(d)),
        (Fact::Less(p, q, c), Fact::Less(_, _, d)) => Fact::Less(p, q, c.max(d)),
        (Fact::Upper(p, a, o, c), Fact::Upper(_, _, _, d)) => Fact::Upper(p, a, o, c.min(d)),
        _ => *fact,
    }
}

/// Whether the first fact is at least as strong, where they stand at one key.
pub(crate) fn is_as_strong(fact: &Fact, other: &Fact) -> bool
    ensures { result ≡ walks.is_as_strong fact.now other.now }
{
    match (*fact, *other) {
        (Fact::Rng(_, l, h), Fact::Rng(_, m, k)) => m <= l && h <= k,
        (Fact::LenRng(_, l, h), Fact::LenRng(_, m, k)) => m <= l && h <= k,
        (Fact::Low(_, c), Fact::Low(_, d)) => d <= c,
        (Fact::Less(_, _, c), Fact::Less(_, _, d)) => c <= d,
        (Fact::Upper(_, _, _, c), Fact::Upper(_, _, _, d)) => d <= c,
        _ => true,
    }
}
