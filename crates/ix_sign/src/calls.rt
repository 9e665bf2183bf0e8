//! The stores behind calls.

ghost use Rattle.std.specs.Prelude.{◌≡◌, ◌++◌, IfOk};
ghost use Rattle.ix_core.specs.Tables.{method_at};
ghost use Rattle.ix_store.specs.StoredFacts.{stored};
ghost use Rattle.ix_signatures.specs.Naming.{HaveSmallNames};
ghost use Rattle.ix_signatures.specs.Signs as signs;
ghost use Rattle.ix_signatures.specs.Signs.{IsLeastOf, CallGives, SuperGives, zero_fields, fields_facts, own_fields};

use ix_core::{CallOp, Method, Program};
use ix_signatures::{facts_of_this, is_effect_free, result_facts, this_if};
use ix_store::Store;
use std::alloc::{AllocError, Global};

/// The store behind a call, `new` included: without what it may change, and with what the claims of the named method's result and its posts say (JLS 15.9.4,
/// 15.12.4). The only error is want of memory.
pub fn after_call(
    alloc: Global,
    store: &Store,
    program: &Program,
    within: &Method,
    call: &CallOp,
) -> Result<Store, AllocError>
    requires small { HaveSmallNames program.now }
    ensures least { IfOk result (λ after. IsLeastOf (CallGives program.now within.now call.now) (stored store.now) (stored after)) }
{
    let free = is_effect_free(program, call.method);
    let spared = this_if(within.constructor);
    let facts = result_facts(alloc, program, call)?;
    let rest = store.forget_called(alloc, program, call.target, free, spared)?;
    rest.add(alloc, &facts)
}

/// The store behind `super(..)`: as behind a call, but nothing stays known of `this`; its own fields are 0 or null, and the claims of inherited ones hold (JLS
/// 8.8.7.1, 12.5). The only error is want of memory.
pub fn after_super(
    alloc: Global,
    store: &Store,
    program: &Program,
    within: &Method,
    call: &CallOp,
) -> Result<Store, AllocError>
    requires small { HaveSmallNames program.now }
    ensures least { IfOk result (λ after. IsLeastOf (SuperGives program.now within.now call.now) (stored store.now) (stored after)) }
{
    let free = is_effect_free(program, call.method);
    let spared = this_if(within.constructor);
    let facts = facts_of_this(alloc, program, within)?;
    let rest = store.forget_parent(alloc, program, call.target, free, spared)?;
    rest.add(alloc, &facts)
}
