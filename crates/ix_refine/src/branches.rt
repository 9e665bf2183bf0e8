//! The stores behind a test.

ghost use Rattle.std.specs.Prelude.{true, false, IfOk};
ghost use Rattle.ix_facts.specs.Stores.{AreTold, IsTested};
ghost use Rattle.ix_test_facts.specs.OverGroups.{outcomes_of};
ghost use Rattle.ix_store.specs.StoredFacts.{stored};

use ix_core::Test;
use ix_store::Store;
use ix_test_facts::{Outcome, outcomes};
use std::alloc::{AllocError, Global};

fn told_all(alloc: Global, store: Store, told: &[Outcome]) -> Result<Store, AllocError>
    ensures { IfOk result (λ after. AreTold (outcomes_of told.now) (stored store) (stored after)) }
{
    let mut after = store;
    for outcome in told {
        after = after.told(alloc, outcome)?;
    }
    Ok(after)
}

/// The store where the test has this answer. The only error is want of memory.
pub fn branch(alloc: Global, store: &Store, test: &Test, answer: bool) -> Result<Store, AllocError>
    ensures tested { IfOk result (λ after. IsTested answer test.now (stored store.now) (stored after)) }
{
    let told = outcomes(alloc, test, answer)?;
    let first = store.share()?;
    let after = told_all(alloc, first, &told)?;
    Ok(after)
}

/// The stores where the test is true, and where it is false. The only error is want of memory.
pub fn branch_test(alloc: Global, store: &Store, test: &Test) -> Result<(Store, Store), AllocError>
    ensures { record {
      holds : IfOk result (λ both. IsTested true test.now (stored store.now) (stored both.0));
      fails : IfOk result (λ both. IsTested false test.now (stored store.now) (stored both.1));
    } }
{
    let holds = branch(alloc, store, test, true)?;
    let fails = branch(alloc, store, test, false)?;
    Ok((holds, fails))
}
