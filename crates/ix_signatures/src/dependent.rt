//! What the claims of other fields that name a field add.

ghost use Rattle.std.specs.Prelude.{◌≡◌, ◌++◌, ◌==◌, filter, not, OnOk};
ghost use Rattle.ix_core.specs.Objects.{claim_names, offset_names};
ghost use Rattle.ix_core.specs.declared.fact.Path.TheVariants.{FieldOf};
ghost use Rattle.ix_facts.specs.Assume.{claim_facts};
ghost use Rattle.ix_facts.specs.Exact.{if_so};
ghost use Rattle.ix_rules_hold.specs.MachineSteps.{on_paths};
ghost use Rattle.ix_signatures.specs.Names as names;
ghost use Rattle.ix_signatures.specs.Names.{object_path, some_field};
ghost use Rattle.ix_signatures.specs.Naming.{path_by, AreSmallClaims, AreSmallNames, HaveSmallNames};
ghost use Rattle.ix_signatures.specs.Signs.{claims_facts, dependent_facts};

use crate::naming::Naming;
use ix_core::{Claim, Fact, Field, Name, Off, Path, Program};
use ix_transfer_rules::push_claim;
use std::alloc::AllocError;

fn is_field(field: u32, name: &Name) -> bool
    ensures { result ≡ names.is_field field name.now }
{
    match *name {
        Name::FieldNamed(other) => other == field,
        _ => false,
    }
}

fn offset_names_field(field: u32, offset: &Off) -> bool
    ensures { result ≡ some_field field (offset_names offset.now) }
{
    match offset {
        Off::Nothing => false,
        Off::Plus(name) => is_field(field, name),
        Off::Minus(name) => is_field(field, name),
    }
}

/// Whether the claim names the field.
pub fn names_field(field: u32, claim: &Claim) -> bool
    ensures { result ≡ names.names_field field claim.now }
{
    match claim {
        Claim::Range(_, _) => false,
        Claim::Low(_) => false,
        Claim::Length(_) => false,
        Claim::Same(other) => is_field(field, other),
        Claim::Less(name, _) => is_field(field, name),
        Claim::Upper(array, offset, _) => {
            is_field(field, array) || offset_names_field(field, offset)
        }
        Claim::Search(array) => is_field(field, array),
        Claim::Negative(array) => is_field(field, array),
    }
}

fn push_claim_naming(
    out: &mut Vec<Fact>,
    field: u32,
    naming: &Naming<'_>,
    at: &Path,
    claim: &Claim,
) -> Result<(), AllocError>
    requires small { AreSmallNames (claim_names claim.now) }
    ensures { OnOk result (out.new.items ≡ out.old.items ++ if_so (names.names_field field claim.now) (claim_facts (on_paths (path_by naming.now) claim.now) at.now)) }
{
    if !names_field(field, claim) {
        return Ok(());
    }
    push_claim(out, &naming.claim(claim), at)
}

/// What those of the claims that name the field add.
fn push_claims_naming(
    out: &mut Vec<Fact>,
    field: u32,
    naming: &Naming<'_>,
    at: &Path,
    claims: &[Claim],
) -> Result<(), AllocError>
    requires small { AreSmallClaims claims.now }
    ensures { OnOk result (out.new.items ≡ out.old.items ++ claims_facts (path_by naming.now) at.now (filter (names.names_field field) claims.now)) }
{
    for claim in claims {
        push_claim_naming(out, field, naming, at, claim)?;
    }
    Ok(())
}

fn push_dependent(
    out: &mut Vec<Fact>,
    object: u32,
    field: u32,
    number: u32,
    other: &Field,
) -> Result<(), AllocError>
    requires small { AreSmallClaims other.now.claims }
    ensures { OnOk result (out.new.items ≡ out.old.items ++ if_so (not (number == field)) (claims_facts (object_path object) (FieldOf object number) (filter (names.names_field field) other.now.claims))) }
{
    if number == field {
        return Ok(());
    }
    let at = Path::FieldOf(object, number);
    let naming = Naming::OfObject(object);
    push_claims_naming(out, field, &naming, &at, other.claims.as_slice())
}

/// What the claims of other fields that name the field add, of the object in a slot.
pub fn push_dependents(
    out: &mut Vec<Fact>,
    program: &Program,
    object: u32,
    field: u32,
) -> Result<(), AllocError>
    requires small { HaveSmallNames program.now }
    ensures { OnOk result (out.new.items ≡ out.old.items ++ dependent_facts object field 0 program.now.fields) }
{
    let fields = program.fields.as_slice();
    for number in 0..fields.len() {
        push_dependent(out, object, field, number as u32, &fields[number])?;
    }
    Ok(())
}
