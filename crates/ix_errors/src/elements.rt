//! What is claimed of the ints in arrays.

ghost use Rattle.std.specs.Prelude.{◌≡◌};
ghost use Rattle.ix_facts.specs.AfterOperation as after;
ghost use Rattle.ix_rules_hold.specs.MachineSteps.{on_paths, path_offset};
ghost use Rattle.ix_sign.specs.RuleErrors as rules;

use ix_core::{Base, Claim, Off, Path, PathClaim, PathOff, Type_};

/// The claims on the ints of an array of this type; none of another type.
pub(crate) fn loaded_claims(ty: &Type_) -> &[Claim]
    ensures { result.now ≡ after.loaded_claims ty.now }
{
    match ty {
        Type_::Array {
            base: Base::Int,
            depth: 1,
            element,
        } => element.as_slice(),
        _ => &[],
    }
}

/// Whether the claim is true of 0, which the cells of a new array hold (JLS 4.12.5).
pub(crate) fn zero_meets(claim: &Claim) -> bool
    ensures { result ≡ rules.zero_meets claim.now }
{
    match *claim {
        Claim::Range(low, high) => low <= 0 && 0 <= high,
        Claim::Low(low) => low <= 0,
        _ => false,
    }
}

fn element_offset(offset: &Off) -> PathOff
    ensures { result ≡ path_offset rules.no_path offset.now }
{
    match *offset {
        Off::Nothing => PathOff::Nothing,
        Off::Plus(_) => PathOff::Plus(Path::Slot(0)),
        Off::Minus(_) => PathOff::Minus(Path::Slot(0)),
    }
}

/// A claim on elements, as one of a path. It names nothing.
pub(crate) fn element_claim(claim: &Claim) -> PathClaim
    ensures { result ≡ on_paths rules.no_path claim.now }
{
    let nothing = Path::Slot(0);
    match *claim {
        Claim::Range(low, high) => PathClaim::Range(low, high),
        Claim::Low(low) => PathClaim::Low(low),
        Claim::Length(least) => PathClaim::Length(least),
        Claim::Same(_) => PathClaim::Same(nothing),
        Claim::Less(_, c) => PathClaim::Less(nothing, c),
        Claim::Upper(_, offset, c) => PathClaim::Upper(nothing, element_offset(&offset), c),
        Claim::Search(_) => PathClaim::Search(nothing),
        Claim::Negative(_) => PathClaim::Negative(nothing),
    }
}
