//! Operations as plain data.

use ix_core::{Base, Claim, Literal, OpKind, Type_, UnaryNum};
use ix_num::Arith;
use ix_text::List;
use std::alloc::{AllocError, Global};

/// What the slots or paths of a step hold: ints, booleans, or arrays of ints.
#[derive(Clone, Copy)]
pub enum Holds {
    Ints,
    Bools,
    Arrays,
}

/// An operation. Slots are numbers, and the first is the target, but for `Write` and `Print`, which have none.
#[derive(Clone, Copy)]
pub enum Does {
    Int(u32, i32),
    True(u32),
    /// null of the type of arrays of ints
    Null(u32),
    Copy(u32, u32, Holds),
    Num(u32, Arith, u32, u32),
    Unary(u32, UnaryNum, u32),
    Length(u32, u32),
    NewArray(u32, u32),
    /// how many entries
    Fill(u32, u32),
    /// array, index, the claims on the array's ints
    Cell(u32, u32, u32, &'static [Claim]),
    /// array of arrays, index
    Row(u32, u32, u32),
    /// array, index, value
    Write(u32, u32, u32),
    Print(u32),
}

/// Arrays of ints of this depth.
fn arrays(alloc: Global, depth: u32) -> Type_ {
    Type_::Array {
        base: Base::Int,
        depth,
        element: List::new(alloc),
    }
}

pub fn type_of(alloc: Global, holds: Holds) -> Type_ {
    match holds {
        Holds::Ints => Type_::Plain(Base::Int),
        Holds::Bools => Type_::Plain(Base::Bool),
        Holds::Arrays => arrays(alloc, 1),
    }
}

fn claimed(alloc: Global, claims: &[Claim]) -> Result<List<Claim>, AllocError> {
    let mut element = List::new(alloc);
    for claim in claims {
        element.push(*claim)?;
    }
    Ok(element)
}

fn cell(
    alloc: Global,
    target: u32,
    array: u32,
    index: u32,
    claims: &[Claim],
) -> Result<OpKind, AllocError> {
    let element = claimed(alloc, claims)?;
    let ty = Type_::Array {
        base: Base::Int,
        depth: 1,
        element,
    };
    Ok(OpKind::Load(target, array, index, ty))
}

fn entries(alloc: Global, count: u32) -> Result<List<u32>, AllocError> {
    let mut entries = List::new(alloc);
    for entry in 0..count {
        entries.push(entry)?;
    }
    Ok(entries)
}

fn fill(alloc: Global, target: u32, count: u32) -> Result<OpKind, AllocError> {
    let entries = entries(alloc, count)?;
    Ok(OpKind::Fill(target, arrays(alloc, 1), entries))
}

/// The operation.
pub fn operation(alloc: Global, does: Does) -> Result<OpKind, AllocError> {
    match does {
        Does::Fill(target, count) => fill(alloc, target, count),
        Does::Cell(target, array, index, claims) => cell(alloc, target, array, index, claims),
        _ => Ok(plain(alloc, does)),
    }
}

/// The operation, where it has no list; a print where it has one.
fn plain(alloc: Global, does: Does) -> OpKind {
    match does {
        Does::Int(target, n) => OpKind::Const(target, Literal::Int(n)),
        Does::True(target) => OpKind::Const(target, Literal::Bool(true)),
        Does::Null(target) => OpKind::Const(target, Literal::NullOf(arrays(alloc, 1))),
        Does::Copy(target, source, holds) => OpKind::Copy(target, source, type_of(alloc, holds)),
        Does::Num(target, arith, left, right) => OpKind::Num(target, arith, left, right),
        Does::Unary(target, unary, operand) => OpKind::Unary(target, unary, operand),
        Does::Length(target, array) => OpKind::Length(target, array),
        Does::NewArray(target, length) => OpKind::NewArray(target, arrays(alloc, 1), length),
        Does::Row(target, array, index) => OpKind::Load(target, array, index, arrays(alloc, 2)),
        Does::Write(array, index, value) => OpKind::Store(array, index, value, arrays(alloc, 1)),
        Does::Print(slot) | Does::Fill(slot, _) | Does::Cell(slot, _, _, _) => OpKind::Print(slot),
    }
}
