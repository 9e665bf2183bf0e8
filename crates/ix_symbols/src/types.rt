//! Types (JLS 4), and what a place needs.

ghost use Rattle.std.specs.Prelude.{◌≡◌, ◌≤◌, length, IfOk};
ghost use Rattle.ix_meaning.specs.Types as spec;
ghost use Rattle.ix_symbols.specs.Needs as needs;

use ix_core::{Base, Claim, Type_};
use ix_meaning::same_claim;
use ix_text::List;
use std::alloc::{AllocError, Global};

pub const INT: Type_ = Type_::Plain(Base::Int);

pub const BOOLEAN: Type_ = Type_::Plain(Base::Bool);

/// What a place needs of the expression that stands there.
#[derive(Clone, Copy)]
pub enum Need<'a> {
    /// It would be read off what has no type.
    Unknown,
    /// No type is right.
    Never,
    /// An int or a boolean.
    Printed,
    Of(&'a Type_),
}

fn same_base(a: Base, b: Base) -> bool
    ensures { result ≡ spec.same_base a b }
{
    match (a, b) {
        (Base::Int, Base::Int) => true,
        (Base::Bool, Base::Bool) => true,
        (Base::Class(x), Base::Class(y)) => x == y,
        _ => false,
    }
}

fn same_claims(a: &[Claim], b: &[Claim]) -> bool
    ensures { result ≡ spec.same_claims a.now b.now }
{
    match a {
        [] => match b {
            [] => true,
            _ => false,
        },
        [x, xs @ ..] => match b {
            [] => false,
            [y, ys @ ..] => same_claim(x, y) && same_claims(xs, ys),
        },
    }
}

pub fn same_type(a: &Type_, b: &Type_) -> bool
    ensures { result ≡ spec.same_type a.now b.now }
{
    match (a, b) {
        (Type_::Void, Type_::Void) => true,
        (Type_::Plain(x), Type_::Plain(y)) => same_base(*x, *y),
        (
            Type_::Array {
                base: x,
                depth: m,
                element: cs,
            },
            Type_::Array {
                base: y,
                depth: n,
                element: ds,
            },
        ) => *m == *n && same_base(*x, *y) && same_claims(cs.as_slice(), ds.as_slice()),
        _ => false,
    }
}

pub fn is_reference(t: &Type_) -> bool
    ensures { result ≡ spec.is_reference t.now }
{
    match t {
        Type_::Plain(Base::Class(_)) => true,
        Type_::Array {
            base: _,
            depth: _,
            element: _,
        } => true,
        _ => false,
    }
}

pub fn is_primitive(t: &Type_) -> bool
    ensures { result ≡ spec.is_primitive t.now }
{
    match t {
        Type_::Plain(Base::Int) => true,
        Type_::Plain(Base::Bool) => true,
        _ => false,
    }
}

fn copied_claims(alloc: Global, claims: &[Claim]) -> Result<List<Claim>, AllocError>
    ensures { IfOk result (λ copy. copy ≡ claims.now) }
{
    let mut copy = List::new(alloc);
    for claim in claims {
        copy.push(*claim)?;
    }
    Ok(copy)
}

/// A copy of a type.
pub fn copied(alloc: Global, t: &Type_) -> Result<Type_, AllocError>
    ensures { IfOk result (λ copy. copy ≡ t.now) }
{
    match t {
        Type_::Void => Ok(Type_::Void),
        Type_::Plain(base) => Ok(Type_::Plain(*base)),
        Type_::Array {
            base,
            depth,
            element,
        } => {
            let element = copied_claims(alloc, element.as_slice())?;
            Ok(Type_::Array {
                base: *base,
                depth: *depth,
                element,
            })
        }
    }
}

pub fn copied_option(alloc: Global, t: &Option<Type_>) -> Result<Option<Type_>, AllocError>
    ensures { IfOk result (λ copy. copy ≡ t.now) }
{
    match t {
        None => Ok(None),
        Some(t) => {
            let copy = copied(alloc, t)?;
            Ok(Some(copy))
        }
    }
}

/// The type of an array's elements.
pub fn element(alloc: Global, t: &Type_) -> Result<Option<Type_>, AllocError>
    ensures { IfOk result (λ element. element ≡ spec.element t.now) }
{
    match t {
        Type_::Array {
            base,
            depth,
            element,
        } => {
            if *depth > 1 {
                let element = copied_claims(alloc, element.as_slice())?;
                return Ok(Some(Type_::Array {
                    base: *base,
                    depth: *depth - 1,
                    element,
                }));
            }
            Ok(Some(Type_::Plain(*base)))
        }
        _ => Ok(None),
    }
}

pub fn need_like(t: &Option<Type_>) -> Need<'_>
    ensures { needs.shown result ≡ spec.need_like t.now }
{
    match t {
        None => Need::Unknown,
        Some(t) => Need::Of(t),
    }
}
