//! The kinds of facts, one for each system.

ghost use Rattle.std.specs.Prelude.{◌≡◌};
ghost use Rattle.ix_facts.specs.Kinds.{kind_of, is_of};

use ix_core::Fact;

/// What facts speak of: each fact is of just one of the first six kinds, in whichever order it stands, and of the last one.
#[derive(Clone, Copy)]
pub enum Kind {
    /// Ranges of ints and of lengths.
    Range,
    /// Numbers that an int is known to be at least.
    Low,
    /// Arrays of the same length, and ints that are a length.
    Length,
    /// Differences of two ints, and sums.
    Difference,
    /// Answers of searches.
    Search,
    /// Bounds from an array's end.
    Upper,
    /// Any of these.
    Any,
}

/// Of which of the six kinds the fact is.
pub fn kind_of_fact(fact: &Fact) -> Kind
    ensures { result ≡ kind_of fact.now }
{
    match *fact {
        Fact::Rng(_, _, _) => Kind::Range,
        Fact::LenRng(_, _, _) => Kind::Range,
        Fact::Low(_, _) => Kind::Low,
        Fact::Same(_, _) => Kind::Length,
        Fact::IsLen(_, _) => Kind::Length,
        Fact::Less(_, _, _) => Kind::Difference,
        Fact::Sum(_, _, _) => Kind::Difference,
        Fact::Search(_, _) => Kind::Search,
        Fact::Neg(_, _) => Kind::Search,
        Fact::Upper(_, _, _, _) => Kind::Upper,
    }
}

/// Whether the fact is of the kind.
pub fn is_of_kind(kind: Kind, fact: &Fact) -> bool
    ensures { result ≡ is_of kind fact.now }
{
    match (kind, *fact) {
        (Kind::Any, _) => true,
        (Kind::Range, Fact::Rng(_, _, _)) => true,
        (Kind::Range, Fact::LenRng(_, _, _)) => true,
        (Kind::Low, Fact::Low(_, _)) => true,
        (Kind::Length, Fact::Same(_, _)) => true,
        (Kind::Length, Fact::IsLen(_, _)) => true,
        (Kind::Difference, Fact::Less(_, _, _)) => true,
        (Kind::Difference, Fact::Sum(_, _, _)) => true,
        (Kind::Search, Fact::Search(_, _)) => true,
        (Kind::Search, Fact::Neg(_, _)) => true,
        (Kind::Upper, Fact::Upper(_, _, _, _)) => true,
        _ => false,
    }
}
