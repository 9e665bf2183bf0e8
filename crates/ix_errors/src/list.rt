//! The list of errors.

ghost use Rattle.std.specs.Prelude.{◌≡◌, IfOk, OnOk, map};
ghost use Rattle.ix_errors.specs.ErrorList.{IsErrorList, In};
ghost use Rattle.ix_errors.specs.Least.{AreLeast, AreOnce, AreOrdered};

use crate::Ranked;
use crate::key::key_of;
use ix_core::Error;
use std::alloc::{AllocError, Global};

/// Leaves each error once, at its least rank: sorted by the error and then the rank, the first of each run.
fn keep_least(found: &mut Vec<Ranked>) -> Result<(), AllocError>
    ensures least { OnOk result (AreLeast found.old.items found.new.items) }
    ensures once { OnOk result (AreOnce found.new.items) }
{
    found.sort_by_key(|f| (key_of(&f.error, 0), f.rank))?;
    found.dedup_by_key(|f| key_of(&f.error, 0));
    Ok(())
}

/// Leaves each error once, at its least rank, in the order of the list.
fn sort(found: &mut Vec<Ranked>) -> Result<(), AllocError>
    ensures least { OnOk result (AreLeast found.old.items found.new.items) }
    ensures ordered { OnOk result (AreOrdered found.new.items) }
{
    keep_least(found)?;
    found.sort_by_key(|f| key_of(&f.error, f.rank))?;
    Ok(())
}

fn without_ranks(alloc: Global, found: &[Ranked]) -> Result<Vec<Error>, AllocError>
    ensures { IfOk result (λ errors. errors.items ≡ map (λ f. f.error) found.now) }
{
    let mut errors = Vec::new(alloc);
    for one in found {
        errors.push(one.error)?;
    }
    Ok(errors)
}

/// The errors as they are listed: by the start of the place, then the rule, then as subjects and claims are declared, each once. The one error is want of memory.
pub fn list_errors(alloc: Global, mut found: Vec<Ranked>) -> Result<Vec<Error>, AllocError>
    ensures { IfOk result (λ errors. IsErrorList (In found.items) errors.items) }
{
    sort(&mut found)?;
    without_ranks(alloc, found.as_slice())
}
