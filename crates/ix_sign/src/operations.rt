//! The store behind an operation.

ghost use Rattle.std.specs.Prelude.{◌≡◌, IfOk};
ghost use Rattle.ix_core.specs.declared.op.OpKind.TheVariants as op;
ghost use Rattle.ix_facts.specs.Stores.{Gives, Then, operated};
ghost use Rattle.ix_store.specs.StoredFacts.{stored};
ghost use Rattle.ix_signatures.specs.Naming.{HasSmallNames, HaveSmallNames};
ghost use Rattle.ix_signatures.specs.Signs.{Adds, IsLeastOf};
ghost use Rattle.ix_sign.specs.MethodRules.{copied_claims, AfterGives};

use crate::calls::{after_call, after_super};
use crate::fields::{after_read, after_write};
use crate::variables::variable_at;
use ix_core::{Fact, Method, Op, OpKind, Path, Profile, Program};
use ix_signatures::{Naming, push_claims};
use ix_store::Store;
use std::alloc::{AllocError, Global};

/// What the claims of the variable that a copy goes into add.
fn variable_facts(
    alloc: Global,
    within: &Method,
    slot: u32,
    place: u32,
) -> Result<Vec<Fact>, AllocError>
    requires small { HasSmallNames within.now }
    ensures { IfOk result (λ facts. facts.items ≡ copied_claims within.now slot place) }
{
    let mut facts = Vec::new(alloc);
    if let Some(variable) = variable_at(within, slot, place) {
        let naming = Naming::Inside(within);
        push_claims(&mut facts, &naming, &Path::Slot(slot), variable.claims)?;
    }
    Ok(facts)
}

/// The store behind an operation of a method: the least that its rule gives. The only error is want of memory.
pub fn after(
    alloc: Global,
    store: &Store,
    program: &Program,
    within: &Method,
    profile: Profile,
    done: &Op,
) -> Result<Store, AllocError>
    requires { record {
      program : HaveSmallNames program.now;
      method : HasSmallNames within.now;
    } }
    ensures least { IfOk result (λ after. IsLeastOf (AfterGives program.now within.now profile done.now) (stored store.now) (stored after)) }
{
    match &done.kind {
        OpKind::Copy(target, _, _) => {
            let facts = variable_facts(alloc, within, *target, done.span.from)?;
            let copied = store.after(alloc, profile, &done.kind)?;
            copied.add(alloc, &facts)
        }
        OpKind::ReadField(target, object, field) => {
            after_read(alloc, store, program, within, *target, *object, *field)
        }
        OpKind::WriteField(object, field, value) => {
            after_write(alloc, store, program, within, *object, *field, *value)
        }
        OpKind::NewObject(call) | OpKind::StaticCall(call) | OpKind::InstanceCall(call) => {
            after_call(alloc, store, program, within, call)
        }
        OpKind::SuperCall(call) => after_super(alloc, store, program, within, call),
        _ => store.after(alloc, profile, &done.kind),
    }
}
