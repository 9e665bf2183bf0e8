//! The numbers that declarations and operations speak of.

ghost use Rattle.std.specs.Prelude.{◌≡◌, ℕ, ◌++◌, [], ◌∷◌, OnOk};
ghost use Rattle.ix_core.specs.declared.op.OpKind.TheVariants.{Const};
ghost use Rattle.ix_core.specs.declared.program.Program.{Program};
ghost use Rattle.ix_core.specs.Tables.{method_at, field_at};
ghost use Rattle.ix_facts.specs.MethodLandmarks as numbers;

use ix_core::{CallOp, Claim, Field, Literal, Local, Method, OpKind, Post, Program, Type_};
use ix_text::Span;
use std::alloc::AllocError;

/// Two numbers, one behind the other.
pub(crate) fn push_both(out: &mut Vec<i32>, first: i32, second: i32) -> Result<(), AllocError>
    ensures { OnOk result (out.new.items ≡ out.old.items ++ first ∷ second ∷ []) }
{
    out.push(first)?;
    push_one(out, second)
}

fn push_one(out: &mut Vec<i32>, number: i32) -> Result<(), AllocError>
    ensures { OnOk result (out.new.items ≡ out.old.items ++ number ∷ []) }
{
    out.push(number).map_err(AllocError::from)
}

fn push_claim(out: &mut Vec<i32>, claim: &Claim) -> Result<(), AllocError>
    ensures { OnOk result (out.new.items ≡ out.old.items ++ numbers.claim_numbers claim.now) }
{
    match *claim {
        Claim::Range(low, high) => push_both(out, low, high),
        Claim::Low(low) => push_one(out, low),
        Claim::Length(least) => push_one(out, least),
        Claim::Less(_, constant) => push_one(out, constant),
        Claim::Upper(_, _, constant) => push_one(out, constant),
        _ => Ok(()),
    }
}

/// The numbers of claims.
pub(crate) fn push_claims(out: &mut Vec<i32>, claims: &[Claim]) -> Result<(), AllocError>
    ensures { OnOk result (out.new.items ≡ out.old.items ++ numbers.claims_numbers claims.now) }
{
    for claim in claims {
        push_claim(out, claim)?;
    }
    Ok(())
}

/// Those of the claims on an array's elements.
fn push_type(out: &mut Vec<i32>, ty: &Type_) -> Result<(), AllocError>
    ensures { OnOk result (out.new.items ≡ out.old.items ++ numbers.type_numbers ty.now) }
{
    match ty {
        Type_::Array { element, .. } => push_claims(out, element.as_slice()),
        _ => Ok(()),
    }
}

fn push_types(out: &mut Vec<i32>, types: &[Type_]) -> Result<(), AllocError>
    ensures { OnOk result (out.new.items ≡ out.old.items ++ numbers.types_numbers types.now) }
{
    for ty in types {
        push_type(out, ty)?;
    }
    Ok(())
}

fn push_params(out: &mut Vec<i32>, params: &[Local]) -> Result<(), AllocError>
    ensures { OnOk result (out.new.items ≡ out.old.items ++ numbers.variables_numbers params.now) }
{
    for param in params {
        push_claims(out, param.claims.as_slice())?;
    }
    Ok(())
}

pub(crate) fn push_locals(out: &mut Vec<i32>, locals: &[(Local, Span)]) -> Result<(), AllocError>
    ensures { OnOk result (out.new.items ≡ out.old.items ++ numbers.variables_numbers (numbers.locals_of locals.now)) }
{
    for local in locals {
        push_claims(out, local.0.claims.as_slice())?;
    }
    Ok(())
}

fn push_posts(out: &mut Vec<i32>, posts: &[Post]) -> Result<(), AllocError>
    ensures { OnOk result (out.new.items ≡ out.old.items ++ numbers.posts_numbers posts.now) }
{
    for post in posts {
        push_claim(out, &post.claim)?;
    }
    Ok(())
}

/// Those of the parameters, the result and the posts of a method.
pub(crate) fn push_declared(out: &mut Vec<i32>, method: &Method) -> Result<(), AllocError>
    ensures { OnOk result (out.new.items ≡ out.old.items ++ numbers.declared_numbers method.now) }
{
    push_params(out, method.params.as_slice())
        .and(push_types(out, method.param_types.as_slice()))
        .and(push_claims(out, method.result_claims.as_slice()))
        .and(push_type(out, &method.result))
        .and(push_posts(out, method.posts.as_slice()))
}

fn push_called(out: &mut Vec<i32>, program: &Program, call: &CallOp) -> Result<(), AllocError>
    ensures { OnOk result (out.new.items ≡ out.old.items ++ numbers.declared_numbers (method_at program.now call.now.method)) }
{
    match program.methods.as_slice().get(call.method as usize) {
        Some(method) => push_declared(out, method),
        None => Ok(()),
    }
}

fn push_field(out: &mut Vec<i32>, field: &Field) -> Result<(), AllocError>
    ensures { OnOk result (out.new.items ≡ out.old.items ++ numbers.field_numbers field.now) }
{
    push_claims(out, field.claims.as_slice()).and(push_type(out, &field.ty))
}

fn push_field_at(out: &mut Vec<i32>, program: &Program, number: u32) -> Result<(), AllocError>
    ensures { OnOk result (out.new.items ≡ out.old.items ++ numbers.field_numbers (field_at program.now number)) }
{
    match program.fields.as_slice().get(number as usize) {
        Some(field) => push_field(out, field),
        None => Ok(()),
    }
}

pub(crate) fn push_fields(
    out: &mut Vec<i32>,
    program: &Program,
    fields: &[u32],
) -> Result<(), AllocError>
    ensures { OnOk result (out.new.items ≡ out.old.items ++ numbers.fields_numbers program.now fields.now) }
{
    for number in fields {
        push_field_at(out, program, *number)?;
    }
    Ok(())
}

fn push_literal(out: &mut Vec<i32>, literal: &Literal) -> Result<(), AllocError>
    ensures { (target : ℕ) (program : Program) → OnOk result (out.new.items ≡ out.old.items ++ numbers.operation_numbers program (Const target literal.now)) }
{
    match literal {
        Literal::Int(number) => push_one(out, *number),
        Literal::NullOf(ty) => push_type(out, ty),
        Literal::Bool(_) => Ok(()),
    }
}

/// Those of an operation: of its literal, and of the claims of its type, of the field and of the method that it names.
pub(crate) fn push_operation(
    out: &mut Vec<i32>,
    program: &Program,
    kind: &OpKind,
) -> Result<(), AllocError>
    ensures { OnOk result (out.new.items ≡ out.old.items ++ numbers.operation_numbers program.now kind.now) }
{
    match kind {
        OpKind::Const(_, literal) => push_literal(out, literal),
        OpKind::Copy(_, _, ty)
        | OpKind::NewArray(_, ty, _)
        | OpKind::Fill(_, ty, _)
        | OpKind::Load(_, _, _, ty)
        | OpKind::Store(_, _, _, ty) => push_type(out, ty),
        OpKind::ReadField(_, _, field) | OpKind::WriteField(_, field, _) => {
            push_field_at(out, program, *field)
        }
        OpKind::NewObject(call)
        | OpKind::StaticCall(call)
        | OpKind::InstanceCall(call)
        | OpKind::SuperCall(call) => push_called(out, program, call),
        _ => Ok(()),
    }
}
