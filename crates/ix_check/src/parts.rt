//! The errors of a program in two parts.
ghost use Rattle.std.specs.Prelude.{◌≡◌, ◌<◌, ◌⊎◌, ◌↔◌, ℕ, length, IfOk};
ghost use Rattle.ix_core.specs.declared.error.Error.{Error as Found};
ghost use Rattle.ix_core.specs.Formed.{Formed};
ghost use Rattle.ix_core.specs.Tables.{method_at};
ghost use Rattle.ix_errors.specs.Exactly.{AreExactly};
ghost use Rattle.ix_core.specs.Ready.{CanCheck};
ghost use Rattle.ix_check.specs.MethodErrors.{IsReady, IsError};
ghost use Rattle.ix_check.specs.Parts as spec;
ghost use Rattle.ix_check.specs.Parts.{IsErrorOfPart, IsErrorBefore, IsErrorBehind};
ghost use Rattle.ix_errors.specs.ErrorList.{IsErrorList};

use crate::laws::loops_are_in_order;
use crate::program::ranked_errors;
use ix_core::{Error, Method, Profile, Program};
use ix_errors::{Ranked, list_errors};
use ix_solve::Steps;
use ix_soundness::{names_are_small, overridden_is_there};
use std::alloc::{AllocError, Global};
use std::marker::Brand;
use std::sync::ledger::{Blank, Ledger};

/// Whether the method is of the part before the place, or of the other one.
fn is_of_part(before: bool, place: u32, method: &Method) -> bool
    ensures { result ≡ spec.is_of_part before place method.now }
{
    (method.span.from < place) == before
}

fn method_of(program: &Program, number: u32) -> &Method
    requires number { number < length program.now.methods }
    ensures { result.now ≡ method_at program.now number }
{
    &program.methods.as_slice()[number as usize]
}

/// The errors of the methods of a part.
fn errors_of_part<L: Ledger>(
    alloc: Global,
    before: bool,
    place: u32,
    program: &Program,
    profile: Profile,
    steps: &mut Steps<L>,
) -> Result<Vec<Ranked>, AllocError>
    requires ready { IsReady program.now }
    ensures errors { IfOk result (λ errors. AreExactly (IsErrorOfPart before place program.now profile (length program.now.methods)) errors.items) }
{
    let mut out = Vec::new(alloc);
    for number in 0..program.methods.len() as u32 {
        if is_of_part(before, place, method_of(program, number)) {
            let mut found = ranked_errors(alloc, program, number, profile, steps)?;
            out.append(&mut found)?;
        }
    }
    Ok(out)
}

/// The errors of a part, as they are listed.
fn list_of_part<L: Ledger>(
    alloc: Global,
    before: bool,
    place: u32,
    program: &Program,
    profile: Profile,
    blank: Blank,
) -> Result<Vec<Error>, AllocError>
    requires { record {
      formed : Formed program.now;
      can : CanCheck program.now;
      name : blank.name ≡ L.name;
      parts : blank.parts ≡ L.parts;
      one : blank.parts ≡ 1;
    } }
    ensures errors { IfOk result (λ errors. IsErrorList (IsErrorOfPart before place program.now profile (length program.now.methods)) errors.items) }
{
    names_are_small();
    overridden_is_there();
    loops_are_in_order();
    let mut steps = Steps::<L>::new(blank);
    let found = errors_of_part(alloc, before, place, program, profile, &mut steps)?;
    list_errors(alloc, found)
}

/// The errors of a program in a profile in two lists: those of the methods whose names stand before byte `first`, as where a source is joined with a library that
/// begins there, and those of all others, each as errors are listed. Together they are all errors of the program. The one error is want of memory.
pub fn check_joined(
    alloc: Global,
    program: &Program,
    first: u32,
    profile: Profile,
) -> Result<(Vec<Error>, Vec<Error>), AllocError>
    requires { record {
      formed : Formed program.now;
      can : CanCheck program.now;
    } }
    ensures own { IfOk result (λ lists. IsErrorList (IsErrorBefore first program.now profile) lists.0.items) }
    ensures others { IfOk result (λ lists. IsErrorList (IsErrorBehind first program.now profile) lists.1.items) }
    ensures all { (error : Found) (rank : ℕ) → IsError program.now profile error rank ↔ (IsErrorBefore first program.now profile error rank ⊎ IsErrorBehind first program.now profile error rank) }
{
    let own = list_of_part::<Brand>(alloc, true, first, program, profile, Blank::new(1))?;
    let others = list_of_part::<Brand>(alloc, false, first, program, profile, Blank::new(1))?;
    Ok((own, others))
}
