//! The store at the entry of a method.

ghost use Rattle.std.specs.Prelude.{◌≡◌, IfOk};
ghost use Rattle.ix_facts.specs.Stores.{IsStoreOf};
ghost use Rattle.ix_store.specs.StoredFacts.{stored};
ghost use Rattle.ix_signatures.specs.Naming.{HasSmallNames};
ghost use Rattle.ix_signatures.specs.Signs as signs;

use ix_core::{Method, Program};
use ix_signatures::entry_facts;
use ix_store::Store;
use std::alloc::{AllocError, Global};

/// The store at the entry of a method: the closed store of what the claims of its parameters say; in a constructor without parent the fields are 0 or null
/// (JLS 12.5). The only error is want of memory.
pub fn enter(alloc: Global, program: &Program, method: &Method) -> Result<Store, AllocError>
    requires small { HasSmallNames method.now }
    ensures entry { IfOk result (λ store. IsStoreOf (signs.entry_facts program.now method.now) (stored store)) }
{
    let facts = entry_facts(alloc, program, method)?;
    Store::of_facts(alloc, &facts)
}
