//! The kinds of facts as types, and the six systems.

ghost use Rattle.ix_facts.specs.declared.kind.Kind.TheVariants as kind;

use crate::facts_of::FactsOf;
use crate::one_kind::OneKind;
use ix_facts::Kind;

/// Ranges of ints and of lengths, of each path one.
pub struct Ranges;

impl OneKind for Ranges {
    ghost KIND = { kind.Range };

    const KIND: Kind = Kind::Range;
}

/// The numbers that ints are at least, of each int the greatest: -1, 0 or 1.
pub struct Lows;

impl OneKind for Lows {
    ghost KIND = { kind.Low };

    const KIND: Kind = Kind::Low;
}

/// Pairs of arrays of the same length, each pair once and in the order of paths, and ints with the array whose length they are.
pub struct Lengths;

impl OneKind for Lengths {
    ghost KIND = { kind.Length };

    const KIND: Kind = Kind::Length;
}

/// Differences `p < q + c`, of each pair of ints one and at the least number, and sums `t = y + z`, each once with its parts in the order of paths.
pub struct Differences;

impl OneKind for Differences {
    ghost KIND = { kind.Difference };

    const KIND: Kind = Kind::Difference;
}

/// Ints with the array in which a search answered them, and those of which the answer is negative, each once.
pub struct Searches;

impl OneKind for Searches {
    ghost KIND = { kind.Search };

    const KIND: Kind = Kind::Search;
}

/// Bounds `p + offset + c < a.length`, of each int, array and offset one and at the greatest number. Of two ints that are added the first in the order of
/// paths stands first.
pub struct Bounds;

impl OneKind for Bounds {
    ghost KIND = { kind.Upper };

    const KIND: Kind = Kind::Upper;
}

/// The ranges that are known.
pub type RangeFacts = FactsOf<Ranges>;

/// The numbers that ints are known to be at least.
pub type LowFacts = FactsOf<Lows>;

/// The equal lengths that are known.
pub type SameFacts = FactsOf<Lengths>;

/// The differences and sums that are known.
pub type LessFacts = FactsOf<Differences>;

/// The answers of searches that are known.
pub type SearchFacts = FactsOf<Searches>;

/// The bounds from arrays' ends that are known.
pub type UpperFacts = FactsOf<Bounds>;
