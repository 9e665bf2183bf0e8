//! The order of stores.

ghost use Rattle.std.specs.Prelude.{◌↔◌, IsTrue, IfOk};
ghost use Rattle.ix_lattice.specs.Lattice.{IsJoin};
ghost use Rattle.ix_facts.specs.Closure.{SaysAll, IsCommon};
ghost use Rattle.ix_facts.specs.Stores.{IsJoined};
ghost use Rattle.ix_store.specs.StoredFacts.{facts_in, stored};
ghost use Rattle.ix_store.specs.StoreOrder.{StoreBelow};

use crate::known::Known;
use crate::store::Store;
use ix_lattice::Lattice;
use ix_text::Joint;
use std::alloc::{AllocError, Global};

fn says_all(first: &Joint<Known>, second: &Joint<Known>) -> bool
    ensures below { IsTrue result ↔ SaysAll (facts_in first.now) (facts_in second.now) }
{
    first.get().says_all(second.get())
}

/// What both say; held jointly with one of them where it says no more than the other.
fn common(
    alloc: Global,
    first: &Joint<Known>,
    second: &Joint<Known>,
) -> Result<Joint<Known>, AllocError>
    ensures common { IfOk result (λ known. IsCommon (facts_in first.now) (facts_in second.now) (facts_in known)) }
{
    if says_all(first, second) {
        return second.join();
    }
    if says_all(second, first) {
        return first.join();
    }
    Joint::new(alloc, first.get().common(alloc, second.get())?)
}

impl Lattice for Store {
    ghost use Rattle.ix_store.specs.StoreOrder.{store_rank};
    ghost use Rattle.ix_store.specs.StoreLaws.{store_laws};

    ghost Below = { StoreBelow };

    ghost rank = { store_rank };

    ghost laws = { store_laws };

    /// Whether the store says all that the other says; the unreachable one says everything. It takes no memory.
    fn leq(&self, other: &Self) -> bool {
        match (&self.known, &other.known) {
            (None, _) => true,
            (Some(_), None) => false,
            (Some(known), Some(others)) => says_all(known, others),
        }
    }

    /// The store of what both say: held jointly with one of them where that says no more than the other. The only error is want of memory.
    fn join(&self, alloc: Global, other: &Self) -> Result<Self, AllocError>
        ensures least_above { IfOk result (IsJoin StoreBelow self.now other.now) }
        ensures joined { IfOk result (λ store. IsJoined (stored self.now) (stored other.now) (stored store)) }
    {
        match (&self.known, &other.known) {
            (_, None) => self.share(),
            (None, Some(_)) => other.share(),
            (Some(known), Some(others)) => {
                let common = common(alloc, known, others)?;
                Ok(Store {
                    known: Some(common),
                })
            }
        }
    }
}
