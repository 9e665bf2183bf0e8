//! What claims and new objects add.

ghost use Rattle.std.specs.Prelude.{◌≡◌, ◌+◌, ◌++◌, ◌<◌, ◌^◌, OnOk};
ghost use Rattle.ix_core.specs.declared.fact.Path.TheVariants.{Slot, FieldOf};
ghost use Rattle.ix_core.specs.Tables.{field_at, param_slot as slot_of};
ghost use Rattle.ix_rules_hold.specs.MachineSteps.{own_path};
ghost use Rattle.ix_signatures.specs.Names.{object_path};
ghost use Rattle.ix_signatures.specs.Naming.{path_by, AreSmallClaims, HasSmallNames, HaveSmallNames};
ghost use Rattle.ix_facts.specs.AfterOperation.{is_int as is_int_type, is_array as is_array_type};
ghost use Rattle.ix_signatures.specs.Signs as signs;
ghost use Rattle.ix_signatures.specs.Signs.{claims_facts, params_facts, received_params, zero_facts, zero_fields, fields_facts};

use crate::naming::Naming;
use crate::paths::param_slot;
use ix_core::{Claim, Fact, Local, Method, Path, Program, Type_};
use ix_facts::{is_array, is_int};
use ix_transfer_rules::{push_claim, push_if};
use std::alloc::AllocError;

/// What claims of a path add. The only error is want of memory.
pub fn push_claims(
    out: &mut Vec<Fact>,
    naming: &Naming<'_>,
    at: &Path,
    claims: &[Claim],
) -> Result<(), AllocError>
    requires small { AreSmallClaims claims.now }
    ensures { OnOk result (out.new.items ≡ out.old.items ++ claims_facts (path_by naming.now) at.now claims.now) }
{
    for claim in claims {
        push_claim(out, &naming.claim(claim), at)?;
    }
    Ok(())
}

/// The claims of a field; none where the program doesn't have it.
pub fn claims_of(program: &Program, field: u32) -> &[Claim]
    ensures { result.now ≡ (field_at program.now field).claims }
{
    match program.fields.as_slice().get(field as usize) {
        Some(field) => field.claims.as_slice(),
        None => &[],
    }
}

fn push_param(
    out: &mut Vec<Fact>,
    method: &Method,
    number: u32,
    param: &Local,
) -> Result<(), AllocError>
    requires number { number + 1 < 2 ^ 32 }
    requires small { AreSmallClaims param.now.claims }
    ensures { OnOk result (out.new.items ≡ out.old.items ++ claims_facts (own_path method.now) (Slot (slot_of method.now number)) param.now.claims) }
{
    let at = Path::Slot(param_slot(method, number));
    push_claims(out, &Naming::Inside(method), &at, param.claims.as_slice())
}

/// What the claims of a method's parameters add.
pub fn push_params(out: &mut Vec<Fact>, method: &Method) -> Result<(), AllocError>
    requires small { HasSmallNames method.now }
    ensures { OnOk result (out.new.items ≡ out.old.items ++ params_facts method.now 0 method.now.params) }
{
    let params = method.params.as_slice();
    for number in 0..params.len() {
        push_param(out, method, number as u32, &params[number])?;
    }
    Ok(())
}

/// An array that a path gets has its own length.
pub fn push_received(out: &mut Vec<Fact>, ty: &Type_, at: &Path) -> Result<(), AllocError>
    ensures { OnOk result (out.new.items ≡ out.old.items ++ signs.received ty.now at.now) }
{
    push_if(out, is_array(ty), Fact::Same(*at, *at))
}

pub fn push_received_params(out: &mut Vec<Fact>, method: &Method) -> Result<(), AllocError>
    requires small { HasSmallNames method.now }
    ensures { OnOk result (out.new.items ≡ out.old.items ++ received_params method.now 0 method.now.param_types) }
{
    let types = method.param_types.as_slice();
    for number in 0..types.len() {
        let at = Path::Slot(param_slot(method, number as u32));
        push_received(out, &types[number], &at)?;
    }
    Ok(())
}

/// Whether the field holds an int; a field that the program doesn't have holds nothing.
fn holds_int(program: &Program, field: u32) -> bool
    ensures { result ≡ is_int_type (field_at program.now field).ty }
{
    match program.fields.as_slice().get(field as usize) {
        Some(field) => is_int(&field.ty),
        None => false,
    }
}

/// Whether the field holds an array.
fn holds_array(program: &Program, field: u32) -> bool
    ensures { result ≡ is_array_type (field_at program.now field).ty }
{
    match program.fields.as_slice().get(field as usize) {
        Some(field) => is_array(&field.ty),
        None => false,
    }
}

fn push_zero_field(out: &mut Vec<Fact>, program: &Program, field: u32) -> Result<(), AllocError>
    ensures { OnOk result (out.new.items ≡ out.old.items ++ zero_facts (field_at program.now field).ty (FieldOf 0 field)) }
{
    let at = Path::FieldOf(0, field);
    push_if(out, holds_int(program, field), Fact::Rng(at, 0, 0)).and(push_if(
        out,
        holds_array(program, field),
        Fact::LenRng(at, 0, 0),
    ))
}

/// The fields of a new object are 0 or null (JLS 4.12.5).
pub fn push_zero_fields(
    out: &mut Vec<Fact>,
    program: &Program,
    fields: &[u32],
) -> Result<(), AllocError>
    ensures { OnOk result (out.new.items ≡ out.old.items ++ zero_fields program.now fields.now) }
{
    for field in fields {
        push_zero_field(out, program, *field)?;
    }
    Ok(())
}

fn push_field(out: &mut Vec<Fact>, program: &Program, field: u32) -> Result<(), AllocError>
    requires small { HaveSmallNames program.now }
    ensures { OnOk result (out.new.items ≡ out.old.items ++ claims_facts (object_path 0) (FieldOf 0 field) (field_at program.now field).claims) }
{
    let at = Path::FieldOf(0, field);
    push_claims(out, &Naming::OfObject(0), &at, claims_of(program, field))
}

/// What the claims of these fields add of `this`.
pub fn push_fields(out: &mut Vec<Fact>, program: &Program, fields: &[u32]) -> Result<(), AllocError>
    requires small { HaveSmallNames program.now }
    ensures { OnOk result (out.new.items ≡ out.old.items ++ fields_facts program.now fields.now) }
{
    for field in fields {
        push_field(out, program, *field)?;
    }
    Ok(())
}
