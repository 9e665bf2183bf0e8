//! The facts of a store, and the store without facts.

ghost use Rattle.std.specs.Prelude.{◌≡◌, ◌↔◌, [], IsNone, IfOk, IfSome};
ghost use Rattle.ix_facts.specs.Stores.{Unreachable, Reached};
ghost use Rattle.ix_store.specs.StoredFacts.{stored};

use crate::store::Store;
use ix_core::Fact;
use std::alloc::{AllocError, Global};

impl Store {
    /// The store of a place of which nothing is known but that a state may be there. The only error is want of memory.
    pub fn empty(alloc: Global) -> Result<Store, AllocError>
        ensures store { IfOk result (λ store. stored store ≡ Reached []) }
    {
        Store::of_facts(alloc, &[])
    }

    /// The closed facts that are known at the place, none where no state is there. A fact that may be turned round stands in one of its orders. The only error is
    /// want of memory.
    pub fn facts(&self, alloc: Global) -> Result<Option<Vec<Fact>>, AllocError>
        ensures { record {
          unreachable : IfOk result (λ facts. IsNone facts ↔ (stored self.now ≡ Unreachable));
          reached : IfOk result (λ facts. IfSome facts (λ facts. stored self.now ≡ Reached facts.items));
        } }
    {
        let Some(known) = &self.known else {
            return Ok(None);
        };
        let facts = Vec::from_slice(alloc, known.get().table.as_slice())?;
        Ok(Some(facts))
    }
}
