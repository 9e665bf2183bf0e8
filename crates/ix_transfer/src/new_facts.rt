//! New facts, with what follows of them.

ghost use Rattle.std.specs.Prelude.{◌++◌, IfOk};
ghost use Rattle.ix_facts.specs.Closure.{kept};
ghost use Rattle.ix_facts.specs.Facts.{in_orders};
ghost use Rattle.ix_facts.specs.AfterOperation.{copied};
ghost use Rattle.ix_facts.specs.After.{kept_new, finished, finished_by};
ghost use Rattle.ix_facts.specs.SameFacts.{AreSame};

use crate::finish::{push_finished, push_finished_by};
use ix_core::{Fact, OpKind, Path, Profile, Type_};
use ix_facts::Indexed;
use ix_transfer_rules::{push_copied, push_new_facts};
use std::alloc::{AllocError, Global};

/// For how many facts of an operation's own rule there is room from the start. It is for speed alone.
const FEW: usize = 8;

/// Room for the rest of the facts on a target: of each int one that is below it and one that it is below. It is for speed alone.
fn room<K: Indexed>(know: &K) -> usize {
    know.int_list().len().saturating_mul(2).saturating_add(8)
}

/// The new facts of an operation by what is known, where nothing that is known names its target: what its own rule gives, and what follows of that with what
/// is known. None of calls, accesses to fields, `Store` and `Print`. The only error is want of memory.
pub fn facts_after<K: Indexed>(
    alloc: Global,
    know: &K,
    profile: Profile,
    kind: &OpKind,
) -> Result<Vec<Fact>, AllocError>
    ensures facts { IfOk result (λ new. AreSame new.items (kept_new (in_orders (K.known know.now)) profile kind.now ++ kept (finished (in_orders (K.known know.now)) (kept_new (in_orders (K.known know.now)) profile kind.now) kind.now))) }
{
    let mut new = Vec::with_capacity(alloc, FEW)?;
    push_new_facts(&mut new, know, profile, kind)?;
    let mut more = Vec::with_capacity(alloc, room(know))?;
    push_finished(&mut more, know, &new, kind)?;
    new.extend_from_slice(&more)?;
    Ok(new)
}

/// The new facts of a copy from one path to another, as a `Copy` or an access to a field makes it, where nothing that is known names the target. The only
/// error is want of memory.
pub fn facts_of_copy<K: Indexed>(
    alloc: Global,
    know: &K,
    ty: &Type_,
    target: &Path,
    source: &Path,
) -> Result<Vec<Fact>, AllocError>
    ensures facts { IfOk result (λ new. AreSame new.items (kept (copied (in_orders (K.known know.now)) ty.now target.now source.now) ++ kept (finished_by ty.now (in_orders (K.known know.now)) (kept (copied (in_orders (K.known know.now)) ty.now target.now source.now)) target.now))) }
{
    let mut new = Vec::with_capacity(alloc, FEW)?;
    push_copied(&mut new, ty, target, source, know.on(source))?;
    let mut more = Vec::with_capacity(alloc, room(know))?;
    push_finished_by(&mut more, know, &new, ty, target)?;
    new.extend_from_slice(&more)?;
    Ok(new)
}
