//! Which paths a step may change, and the facts that name none of them.

ghost use Rattle.std.specs.Prelude.{◌≡◌, IfOk, IfSome};
ghost use Rattle.ix_core.specs.declared.fact.Path.{Path};
ghost use Rattle.ix_core.specs.declared.fact.Path.TheVariants.{Slot, FieldOf};
ghost use Rattle.ix_facts.specs.Forget.{offset_names, names, without, of_path, of_call};
ghost use Rattle.ix_fact_paths.specs.ChangedPaths.{is_spared, is_final, is_changed, some_path, paths_beside};

use crate::filters::facts_without_path;
use crate::forget::{is_of_path, is_of_target};
use crate::spared::assigned_path;
use ix_core::{Fact, OpKind, Path, PathOff, Program};
use std::alloc::{AllocError, Global};

/// The paths that a step may change.
#[derive(Clone, Copy)]
pub enum Changed<'a> {
    /// none
    Nothing,
    /// what an operation that is no call and touches no field assigns
    Target(&'a OpKind),
    /// a path; of a slot also each field of the object in it
    At(Path),
    /// a field, of the object in each slot but the spared one
    Field(u32, Option<u32>),
    /// each field of the program that isn't final, of the object in each slot but the spared one
    Call(&'a Program, Option<u32>),
    /// the slot of the result of a call and, where the callee isn't side-effect-free, what a call may change: program, slot, whether it is, spared slot
    Called(&'a Program, u32, bool, Option<u32>),
    /// the same of the parent's constructor, and each field of the object in slot 0
    Parent(&'a Program, u32, bool, Option<u32>),
    /// each slot from this one on, and the fields of the objects in them
    From(u32),
}

fn is_in_spared(spared: Option<u32>, slot: u32) -> bool
    ensures { result ≡ is_spared spared slot }
{
    match spared {
        Some(other) => slot == other,
        None => false,
    }
}

fn is_final_field(program: &Program, field: u32) -> bool
    ensures { result ≡ is_final program.now field }
{
    match program.fields.as_slice().get(field as usize) {
        Some(field) => field.is_final,
        None => false,
    }
}

/// Whether a call that may have side effects may change the field of the object in the slot.
fn call_changes(program: &Program, spared: Option<u32>, slot: u32, field: u32) -> bool
    ensures { result ≡ of_call (is_final program.now) (is_spared spared) (FieldOf slot field) }
{
    !is_in_spared(spared, slot) && !is_final_field(program, field)
}

/// Whether the step may change the field of the object in the slot.
fn changes_field(changed: &Changed, slot: u32, field: u32) -> bool
    ensures { result ≡ is_changed changed.now (FieldOf slot field) }
{
    match *changed {
        Changed::Nothing => false,
        Changed::Target(kind) => is_of_target(kind, &Path::FieldOf(slot, field)),
        Changed::At(path) => is_of_path(&path, &Path::FieldOf(slot, field)),
        Changed::Field(own, spared) => !is_in_spared(spared, slot) && field == own,
        Changed::Call(program, spared) => call_changes(program, spared, slot, field),
        Changed::Called(program, target, free, spared) => {
            slot == target || (!free && call_changes(program, spared, slot, field))
        }
        Changed::Parent(program, target, free, spared) => {
            (slot == target || (!free && call_changes(program, spared, slot, field))) || slot == 0
        }
        Changed::From(first) => slot >= first,
    }
}

fn changes_slot(changed: &Changed, slot: u32) -> bool
    ensures { result ≡ is_changed changed.now (Slot slot) }
{
    match *changed {
        Changed::Nothing => false,
        Changed::Target(kind) => is_of_target(kind, &Path::Slot(slot)),
        Changed::At(path) => is_of_path(&path, &Path::Slot(slot)),
        Changed::Called(_, target, _, _) | Changed::Parent(_, target, _, _) => slot == target,
        Changed::From(first) => slot >= first,
        Changed::Field(_, _) | Changed::Call(_, _) => false,
    }
}

fn changes(changed: &Changed, p: &Path) -> bool
    ensures { result ≡ is_changed changed.now p.now }
{
    match *p {
        Path::Slot(slot) => changes_slot(changed, slot),
        Path::FieldOf(slot, field) => changes_field(changed, slot, field),
    }
}

fn changes_offset(changed: &Changed, offset: &PathOff) -> bool
    ensures { result ≡ offset_names (is_changed changed.now) offset.now }
{
    match offset {
        PathOff::Nothing => false,
        PathOff::Plus(q) => changes(changed, q),
        PathOff::Minus(q) => changes(changed, q),
    }
}

/// Whether the fact names a path that the step may change.
fn names_changed(changed: &Changed, fact: &Fact) -> bool
    ensures { result ≡ names (is_changed changed.now) fact.now }
{
    match fact {
        Fact::Rng(p, _, _) | Fact::LenRng(p, _, _) | Fact::Low(p, _) => changes(changed, p),
        Fact::Same(p, q)
        | Fact::IsLen(p, q)
        | Fact::Less(p, q, _)
        | Fact::Search(p, q)
        | Fact::Neg(p, q) => changes(changed, p) || changes(changed, q),
        Fact::Sum(t, y, z) => changes(changed, t) || (changes(changed, y) || changes(changed, z)),
        Fact::Upper(p, a, offset, _) => {
            changes(changed, p) || (changes(changed, a) || changes_offset(changed, offset))
        }
    }
}

/// The path that the step changes, where it changes that path and what is in it, and no other.
fn one_path(changed: &Changed) -> Option<Path>
    ensures path { IfSome result (λ path. (p : Path) → is_changed changed.now p ≡ of_path path p) }
{
    match *changed {
        Changed::At(path) => Some(path),
        Changed::Target(kind) => assigned_path(kind),
        _ => None,
    }
}

/// Whether the step may change one of the paths. It takes no memory.
pub fn changes_some(changed: &Changed, paths: &[Path]) -> bool
    ensures { result ≡ some_path (is_changed changed.now) paths.now }
{
    for p in paths {
        if changes(changed, p) {
            return true;
        }
    }
    false
}

/// The paths that the step doesn't change. The only error is want of memory.
pub fn unchanged_paths(
    alloc: Global,
    paths: &[Path],
    changed: &Changed,
) -> Result<Vec<Path>, AllocError>
    ensures { IfOk result (λ kept. kept.items ≡ paths_beside (is_changed changed.now) paths.now) }
{
    let mut kept = Vec::with_capacity(alloc, paths.len())?;
    for p in paths {
        if !changes(changed, p) {
            kept.push_reserved(*p);
        }
    }
    Ok(kept)
}

fn beside_many(alloc: Global, facts: &[Fact], changed: &Changed) -> Result<Vec<Fact>, AllocError>
    ensures { IfOk result (λ kept. kept.items ≡ without (is_changed changed.now) facts.now) }
{
    let mut kept = Vec::with_capacity(alloc, facts.len())?;
    for fact in facts {
        if !names_changed(changed, fact) {
            kept.push_reserved(*fact);
        }
    }
    Ok(kept)
}

/// The facts that name no path that the step may change. The only error is want of memory.
pub fn unchanged(alloc: Global, facts: &[Fact], changed: &Changed) -> Result<Vec<Fact>, AllocError>
    ensures { IfOk result (λ kept. kept.items ≡ without (is_changed changed.now) facts.now) }
{
    match one_path(changed) {
        Some(path) => facts_without_path(alloc, facts, &path),
        None => beside_many(alloc, facts, changed),
    }
}
