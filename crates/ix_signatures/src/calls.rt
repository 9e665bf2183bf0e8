//! What is known behind calls.

ghost use Rattle.std.specs.Prelude.{◌≡◌, ◌++◌, IfOk, not, option_map};
ghost use Rattle.ix_core.specs.Tables.{method_at};
ghost use Rattle.ix_core.specs.Types.{is_void};
ghost use Rattle.ix_signatures.specs.Naming.{HaveSmallNames};
ghost use Rattle.ix_signatures.specs.Signs as signs;
ghost use Rattle.ix_signatures.specs.Signs.{zero_fields, fields_facts, own_fields};

use crate::facts::{push_claims, push_fields, push_received, push_zero_fields};
use crate::naming::Naming;
use crate::posts::push_posts;
use ix_core::{
    CallOp, Fact, Method, Op, OpKind, Path, Program, Type_, fields_of, instance_fields, parent_of,
};
use std::alloc::{AllocError, Global};

/// Whether the method is side-effect-free; a method that the program doesn't have isn't.
pub fn is_effect_free(program: &Program, method: u32) -> bool
    ensures { result ≡ (method_at program.now method).effect_free }
{
    match program.methods.as_slice().get(method as usize) {
        Some(found) => found.effect_free,
        None => false,
    }
}

/// What is known of a call's result. The only error is want of memory.
pub fn result_facts(
    alloc: Global,
    program: &Program,
    call: &CallOp,
) -> Result<Vec<Fact>, AllocError>
    requires small { HaveSmallNames program.now }
    ensures { IfOk result (λ facts. facts.items ≡ signs.result_facts program.now call.now) }
{
    let mut facts = Vec::new(alloc);
    if let Some(callee) = program.methods.as_slice().get(call.method as usize) {
        let at = Path::Slot(call.target);
        let naming = Naming::AtCall(call);
        push_received(&mut facts, &callee.result, &at)
            .and(push_claims(&mut facts, &naming, &at, callee.result_claims.as_slice()))
            .and(push_posts(&mut facts, &naming, None, callee.posts.as_slice()))?;
    }
    Ok(facts)
}

/// What the answer of a call tells. The only error is want of memory.
fn answer_facts(
    alloc: Global,
    program: &Program,
    call: &CallOp,
    answer: bool,
) -> Result<Vec<Fact>, AllocError>
    requires small { HaveSmallNames program.now }
    ensures { IfOk result (λ facts. facts.items ≡ signs.answer_facts program.now call.now answer) }
{
    let mut facts = Vec::new(alloc);
    if let Some(callee) = program.methods.as_slice().get(call.method as usize) {
        let posts = callee.posts.as_slice();
        push_posts(&mut facts, &Naming::AtCall(call), Some(answer), posts)?;
    }
    Ok(facts)
}

/// Whether the method has a result; a method that the program doesn't have has none.
fn has_result(program: &Program, method: u32) -> bool
    ensures { result ≡ not (is_void (method_at program.now method).result) }
{
    match program.methods.as_slice().get(method as usize) {
        Some(found) => !matches!(found.result, Type_::Void),
        None => false,
    }
}

/// What a boolean slot tells behind a call: something only where it has the call's answer.
fn told_by_call(
    alloc: Global,
    program: &Program,
    call: &CallOp,
    slot: u32,
    answer: bool,
) -> Result<Vec<Fact>, AllocError>
    requires small { HaveSmallNames program.now }
    ensures { IfOk result (λ facts. facts.items ≡ signs.told_by_call program.now call.now slot answer) }
{
    if call.target == slot && has_result(program, call.method) {
        answer_facts(alloc, program, call, answer)
    } else {
        Ok(Vec::new(alloc))
    }
}

fn told_by(
    alloc: Global,
    program: &Program,
    done: &OpKind,
    slot: u32,
    answer: bool,
) -> Result<Vec<Fact>, AllocError>
    requires small { HaveSmallNames program.now }
    ensures { IfOk result (λ facts. facts.items ≡ signs.told_by program.now done.now slot answer) }
{
    match done {
        OpKind::StaticCall(call) => told_by_call(alloc, program, call, slot, answer),
        OpKind::InstanceCall(call) => told_by_call(alloc, program, call, slot, answer),
        _ => Ok(Vec::new(alloc)),
    }
}

/// What a boolean slot tells behind the operation that was done last. The only error is want of memory.
pub fn told_facts(
    alloc: Global,
    program: &Program,
    last: Option<&Op>,
    slot: u32,
    answer: bool,
) -> Result<Vec<Fact>, AllocError>
    requires small { HaveSmallNames program.now }
    ensures { IfOk result (λ facts. facts.items ≡ signs.told_facts program.now (option_map (λ op. op.now) last.entry) slot answer) }
{
    match last {
        Some(done) => told_by(alloc, program, &done.kind, slot, answer),
        None => Ok(Vec::new(alloc)),
    }
}

/// The fields of a method's parent class, inherited ones included. The only error is want of memory.
fn inherited_fields(
    alloc: Global,
    program: &Program,
    within: &Method,
) -> Result<Vec<u32>, AllocError>
    ensures { IfOk result (λ fields. fields.items ≡ signs.inherited_fields program.now within.now) }
{
    match parent_of(program, within.class) {
        Some(parent) => instance_fields(alloc, program, parent),
        None => Ok(Vec::new(alloc)),
    }
}

/// What is known of `this` behind a call of the parent's constructor. The only error is want of memory.
pub fn facts_of_this(
    alloc: Global,
    program: &Program,
    within: &Method,
) -> Result<Vec<Fact>, AllocError>
    requires small { HaveSmallNames program.now }
    ensures { IfOk result (λ facts. facts.items ≡ zero_fields program.now (own_fields program.now within.now) ++ fields_facts program.now (signs.inherited_fields program.now within.now)) }
{
    let inherited = inherited_fields(alloc, program, within)?;
    let mut facts = Vec::new(alloc);
    push_zero_fields(&mut facts, program, fields_of(program, within.class))
        .and(push_fields(&mut facts, program, &inherited))
        .and(Ok(facts))
}
