//! The facts of a list as a table keeps them.

ghost use Rattle.std.specs.Prelude.{◌≡◌, true, IfOk};
ghost use Rattle.ix_facts.specs.Kinds.{of_kind};
ghost use Rattle.ix_facts.specs.Systems.{HaveClasses, IsTable};
ghost use Rattle.ix_fact_table.specs.Rising.{is_table_of};

use crate::insertion::inserted;
use crate::kinds::{from_first, of_one_kind};
use crate::rising::kept_front;
use crate::walks::merged;
use ix_core::Fact;
use ix_facts::Kind;
use std::alloc::{AllocError, Global};

/// Up to how many facts each is put in its place, which takes less time than to merge halves.
const FEW: usize = 256;

/// Whether facts of any kind are asked for, so that they need no list of their own. It is for speed alone.
fn is_any(kind: Kind) -> bool {
    matches!(kind, Kind::Any)
}

/// What stands at the front as a table keeps it is kept, where it is at least half of the list, and the others are merged into it; of another list the halves
/// are made into tables, and these are merged. So where most facts stand in order the time is near linear.
fn sorted_many(alloc: Global, kind: Kind, facts: &[Fact]) -> Result<Vec<Fact>, AllocError>
    requires classes { HaveClasses facts.now }
    ensures form { IfOk result (λ table. is_table_of kind table.items ≡ true) }
    ensures table { IfOk result (λ table. IsTable (of_kind kind facts.now) table.items) }
{
    if facts.len() <= FEW {
        return inserted(alloc, kind, facts);
    }
    let kept = kept_front(kind, facts);
    if kept == facts.len() {
        return Vec::from_slice(alloc, facts);
    }
    let half = facts.len() / 2;
    if kept >= half {
        let (front, back) = facts.split_at(kept);
        let second = sorted_many(alloc, kind, back)?;
        return merged(alloc, front, second.as_slice());
    }
    let (front, back) = facts.split_at(half);
    let first = sorted_many(alloc, kind, front)?;
    let second = sorted_many(alloc, kind, back)?;
    merged(alloc, first.as_slice(), second.as_slice())
}

/// The facts of the kind as a table keeps them: at each key what they say together, in the order of keys. Where no fact is of the kind it takes no memory.
pub(crate) fn sorted(alloc: Global, kind: Kind, facts: &[Fact]) -> Result<Vec<Fact>, AllocError>
    requires classes { HaveClasses facts.now }
    ensures form { IfOk result (λ table. is_table_of kind table.items ≡ true) }
    ensures table { IfOk result (λ table. IsTable (of_kind kind facts.now) table.items) }
{
    let rest = from_first(kind, facts);
    if rest.len() <= FEW {
        return inserted(alloc, kind, rest);
    }
    if is_any(kind) {
        return sorted_many(alloc, kind, rest);
    }
    let own = of_one_kind(alloc, kind, rest)?;
    sorted_many(alloc, kind, &own)
}
