//! New facts, with what follows of them, by what is known.

ghost use Rattle.std.specs.Prelude.{◌≡◌, ◌++◌, IfOk};
ghost use Rattle.ix_facts.specs.Closure.{kept};
ghost use Rattle.ix_facts.specs.Facts.{in_orders};
ghost use Rattle.ix_facts.specs.Forget.{of_path, without};
ghost use Rattle.ix_facts.specs.AfterOperation.{copied};
ghost use Rattle.ix_facts.specs.After.{of_target, beside_target, kept_new, finished, finished_by};
ghost use Rattle.ix_facts.specs.Systems.{HaveClasses};
ghost use Rattle.ix_facts.specs.SameFacts.{AreSame};

use crate::known::all_known;
use ix_core::{Fact, OpKind, Path, Profile, Type_};
use ix_fact_list::FactList;
use ix_facts::Know;
use ix_transfer::{facts_after, facts_of_copy};
use std::alloc::{AllocError, Global};

/// The new facts of an operation: what its own rule gives, and what follows of that with what is known. Nothing that is known may name its target. The
/// only error is want of memory.
pub fn new_facts<K: Know>(
    alloc: Global,
    know: &K,
    profile: Profile,
    kind: &OpKind,
) -> Result<Vec<Fact>, AllocError>
    requires beside { without (of_target kind.now) (K.known know.now) ≡ K.known know.now }
    ensures { record {
      facts : IfOk result (λ new. AreSame new.items (kept_new (beside_target kind.now (K.known know.now)) profile kind.now ++ kept (finished (beside_target kind.now (K.known know.now)) (kept_new (beside_target kind.now (K.known know.now)) profile kind.now) kind.now)));
      classes : IfOk result (λ new. HaveClasses new.items);
    } }
{
    let facts = all_known(alloc, know)?;
    let list = FactList::new(alloc, facts)?;
    let new = facts_after(alloc, &list, profile, kind)?;
    Ok(new)
}

/// The new facts of a copy from one path to another, where nothing that is known names the target. The only error is want of memory.
pub fn new_facts_of_copy<K: Know>(
    alloc: Global,
    know: &K,
    ty: &Type_,
    target: &Path,
    source: &Path,
) -> Result<Vec<Fact>, AllocError>
    requires beside { without (of_path target.now) (K.known know.now) ≡ K.known know.now }
    ensures { record {
      facts : IfOk result (λ new. AreSame new.items (kept (copied (in_orders (without (of_path target.now) (K.known know.now))) ty.now target.now source.now) ++ kept (finished_by ty.now (in_orders (without (of_path target.now) (K.known know.now))) (kept (copied (in_orders (without (of_path target.now) (K.known know.now))) ty.now target.now source.now)) target.now)));
      classes : IfOk result (λ new. HaveClasses new.items);
    } }
{
    let facts = all_known(alloc, know)?;
    let list = FactList::new(alloc, facts)?;
    let new = facts_of_copy(alloc, &list, ty, target, source)?;
    Ok(new)
}
