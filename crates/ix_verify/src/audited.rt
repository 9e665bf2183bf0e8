//! The audit of a whole program.

ghost use Rattle.std.specs.Prelude.{◌≡◌, ◌+◌, [], map, slice_get, unwrap_or, IfOk};
ghost use Rattle.ix_store.specs.StoredFacts.{stored};
ghost use Rattle.ix_verify.specs.Audited as spec;

use crate::audit_answer::Audit;
use crate::method::audit_method;
use ix_core::{Profile, Program};
use ix_errors::{Ranked, list_errors};
use ix_store::Store;
use ix_text::List;
use std::alloc::{AllocError, Global};

/// The labels of a method.
fn labels_of(labels: &[List<Store>], number: u32) -> &[Store]
    ensures { result.now ≡ unwrap_or (slice_get labels.now number) [] }
{
    match labels.get(number as usize) {
        Some(labels) => labels.as_slice(),
        None => &[],
    }
}

/// The answer where no loop fails.
fn answer(alloc: Global, found: Vec<Ranked>) -> Result<Audit, AllocError>
    ensures { IfOk result (spec.IsAnswer found.items) }
{
    if found.is_empty() {
        return Ok(Audit::Clean);
    }
    let errors = list_errors(alloc, found)?;
    Ok(Audit::Errors(errors))
}

/// Judges given labels of the loops of a program's methods in a profile: a list of stores for each method, one for each loop by the loops' numbers. A loop for which no
/// label is given has the unreachable one. Nothing is solved. It answers the first method and loop whose label isn't above the rounded join of what comes to the loop's
/// head; else all errors that the rules derive at these labels, and those of the text, nothing else, as they are listed; else that there are none, and then each method
/// has a flow without errors, from which it follows that the program is safe. The one error is want of memory.
pub fn audit(
    alloc: Global,
    program: &Program,
    labels: &[List<Store>],
    profile: Profile,
) -> Result<Audit, AllocError>
    requires can { spec.CanAudit program.now }
    ensures { IfOk result (spec.IsAudit program.now profile (map (map stored) labels.now)) }
{
    let mut found = Vec::new(alloc);
    for number in 0..program.methods.len() as u32 {
        let labels = labels_of(labels, number);
        let failed = audit_method(alloc, &mut found, program, number, profile, labels)?;
        if let Some(at) = failed {
            drop(found);
            return Ok(Audit::Loop(number, at));
        }
    }
    answer(alloc, found)
}
