//! What the claims on the ints of an array give of an int that is loaded.

ghost use Rattle.std.specs.Prelude.{◌≡◌, ◌++◌, OnOk};
ghost use Rattle.ix_facts.specs.Closure.{kept};
ghost use Rattle.ix_facts.specs.AfterOperation as after;

use ix_core::{Base, Claim, Fact, Path, Type_};
use ix_intervals::{push_fact, push_if};
use std::alloc::AllocError;

/// The facts of one claim. Only ranges and low ends can be claimed of the ints in an array.
fn push_claimed(out: &mut Vec<Fact>, t: &Path, claim: &Claim) -> Result<(), AllocError>
    ensures { OnOk result (out.new.items ≡ out.old.items ++ kept (after.claimed_by t.now claim.now)) }
{
    match *claim {
        Claim::Range(low, high) => push_fact(out, Fact::Rng(*t, low as i64, high as i64)),
        Claim::Low(low) => push_fact(out, Fact::Rng(*t, low as i64, 2147483647)).and(push_if(
            out,
            -1 <= low && low <= 1,
            Fact::Low(*t, low),
        )),
        _ => Ok(()),
    }
}

fn push_all_claimed(out: &mut Vec<Fact>, t: &Path, claims: &[Claim]) -> Result<(), AllocError>
    ensures { OnOk result (out.new.items ≡ out.old.items ++ kept (after.loaded_facts t.now claims.now)) }
{
    for claim in claims {
        push_claimed(out, t, claim)?;
    }
    Ok(())
}

/// The facts of the claims on the ints of an array of this type; none of another type.
pub(crate) fn push_loaded(out: &mut Vec<Fact>, t: &Path, ty: &Type_) -> Result<(), AllocError>
    ensures { OnOk result (out.new.items ≡ out.old.items ++ kept (after.loaded_facts t.now (after.loaded_claims ty.now))) }
{
    match ty {
        Type_::Array {
            base: Base::Int,
            depth: 1,
            element,
        } => push_all_claimed(out, t, element.as_slice()),
        _ => Ok(()),
    }
}
