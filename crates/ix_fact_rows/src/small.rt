//! Whether a fact is within the bounds that the calls ask for.

ghost use Rattle.std.specs.Prelude.{IsTrue};
ghost use Rattle.ix_facts.specs.Small.{IsEnd, IsClass, HasSmallNumbers};
ghost use Rattle.ix_facts.specs.Systems.{IsProper};

use ix_core::Fact;
use ix_facts::is_same_path;

fn is_end(n: i64) -> bool
    ensures { IsTrue result → IsEnd n }
{
    -68719476736 < n && n < 68719476736
}

fn is_class(n: i32) -> bool
    ensures { IsTrue result → IsClass n }
{
    -1 <= n && n <= 1
}

/// Whether the fact's numbers are small.
pub fn is_small(fact: &Fact) -> bool
    ensures { IsTrue result → HasSmallNumbers fact.now }
{
    match *fact {
        Fact::Rng(_, low, high) => is_end(low) && is_end(high),
        Fact::LenRng(_, low, high) => is_end(low) && is_end(high),
        Fact::Low(_, c) => is_class(c),
        _ => true,
    }
}

/// Whether the fact may be added to a table.
pub fn is_proper(fact: &Fact) -> bool
    ensures { IsTrue result → IsProper fact.now }
{
    match *fact {
        Fact::Low(_, c) => is_class(c),
        Fact::Less(p, q, _) => !is_same_path(&p, &q),
        _ => true,
    }
}
