//! What a test tells by its answer.

ghost use Rattle.std.specs.Prelude.{◌≡◌, ◌++◌, IfOk, OnOk};
ghost use Rattle.ix_facts.specs.AfterTest as rule;
ghost use Rattle.ix_facts.specs.Stores as stores;
ghost use Rattle.ix_test_facts.specs.OverGroups.{outcomes_of};

use crate::outcome::Outcome;
use ix_core::{Path, Test, Type_};
use ix_facts::{is_array, is_int};
use ix_num::Rel;
use std::alloc::{AllocError, Global};

/// The comparison that holds where this one doesn't (JLS 15.20.1, 15.21.1).
fn opposite(rel: Rel) -> Rel
    ensures { result ≡ rule.opposite rel }
{
    match rel {
        Rel::Lt => Rel::Ge,
        Rel::Le => Rel::Gt,
        Rel::Gt => Rel::Le,
        Rel::Ge => Rel::Lt,
        Rel::Eq => Rel::Ne,
        Rel::Ne => Rel::Eq,
    }
}

fn of_ints(alloc: Global, rel: Rel, y: Path, z: Path) -> Result<Vec<Outcome>, AllocError>
    ensures { IfOk result (λ told. outcomes_of told.items ≡ rule.int_outcomes rel y z) }
{
    // There is room for the most that a comparison tells.
    let mut told = Vec::with_capacity(alloc, 3)?;
    match rel {
        Rel::Lt => told.push_reserved(Outcome::Below(y, z, 0)),
        Rel::Le => told.push_reserved(Outcome::Below(y, z, 1)),
        Rel::Gt => told.push_reserved(Outcome::Below(z, y, 0)),
        Rel::Ge => told.push_reserved(Outcome::Below(z, y, 1)),
        Rel::Eq => {
            told.push_reserved(Outcome::Below(y, z, 1));
            told.push_reserved(Outcome::Below(z, y, 1));
            told.push_reserved(Outcome::Equal(y, z));
        }
        Rel::Ne => {
            told.push_reserved(Outcome::Apart(y, z));
            told.push_reserved(Outcome::Apart(z, y));
        }
    }
    Ok(told)
}

fn of_arrays(alloc: Global, rel: Rel, a: Path, b: Path) -> Result<Vec<Outcome>, AllocError>
    ensures { IfOk result (λ told. outcomes_of told.items ≡ rule.array_outcomes rel a b) }
{
    let mut told = Vec::new(alloc);
    if let Rel::Eq = rel {
        told.push(Outcome::OneArray(a, b))?;
    }
    Ok(told)
}

fn by_type(
    alloc: Global,
    ty: &Type_,
    rel: Rel,
    y: Path,
    z: Path,
) -> Result<Vec<Outcome>, AllocError>
    ensures { IfOk result (λ told. outcomes_of told.items ≡ rule.when_true ty.now rel y z) }
{
    if is_int(ty) {
        return of_ints(alloc, rel, y, z);
    }
    if is_array(ty) {
        return of_arrays(alloc, rel, y, z);
    }
    Ok(Vec::new(alloc))
}

/// What the test tells where it is answered so, one after the other: each outcome reads what those before it gave. Of booleans and objects it tells nothing, of
/// arrays that differ neither. The only error is want of memory.
pub fn outcomes(alloc: Global, test: &Test, answer: bool) -> Result<Vec<Outcome>, AllocError>
    ensures told { IfOk result (λ told. outcomes_of told.items ≡ stores.outcomes_of answer test.now) }
{
    let rel = if answer { test.rel } else { opposite(test.rel) };
    by_type(
        alloc,
        &test.ty,
        rel,
        Path::Slot(test.left),
        Path::Slot(test.right),
    )
}
