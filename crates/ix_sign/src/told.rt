//! The store where a boolean slot has an answer.

ghost use Rattle.std.specs.Prelude.{IfOk, option_map};
ghost use Rattle.ix_store.specs.StoredFacts.{stored};
ghost use Rattle.ix_signatures.specs.Naming.{HaveSmallNames};
ghost use Rattle.ix_signatures.specs.Signs as signs;
ghost use Rattle.ix_signatures.specs.Signs.{Adds, IsLeastOf};

use ix_core::{Op, Program};
use ix_signatures::told_facts;
use ix_store::Store;
use std::alloc::{AllocError, Global};

/// The store where a boolean slot has this answer, behind the operation that was done last: with the posts of this answer, where that is a call that has just
/// given it. The only error is want of memory.
pub fn tell(
    alloc: Global,
    store: &Store,
    program: &Program,
    last: Option<&Op>,
    slot: u32,
    answer: bool,
) -> Result<Store, AllocError>
    requires small { HaveSmallNames program.now }
    ensures least { IfOk result (λ after. IsLeastOf (Adds (signs.told_facts program.now (option_map (λ op. op.now) last.entry) slot answer)) (stored store.now) (stored after)) }
{
    let facts = told_facts(alloc, program, last, slot, answer)?;
    store.add(alloc, &facts)
}
