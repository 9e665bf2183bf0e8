//! The check of one method.
ghost use Rattle.std.specs.Prelude.{◌≡◌, ◌<◌, length, IfOk};
ghost use Rattle.ix_core.specs.Formed.{Formed};
ghost use Rattle.ix_core.specs.Tables.{method_at};
ghost use Rattle.ix_core.specs.Ready.{CanCheck};
ghost use Rattle.ix_check.specs.MethodErrors.{IsErrorOf};
ghost use Rattle.ix_errors.specs.ErrorList.{IsErrorList};
ghost use Rattle.ix_check.specs.Signatures.{signatures, ErrorsOf};

use crate::laws::{judged_alone, loops_are_in_order};
use crate::program::ranked_errors;
use ix_core::{Error, Profile, Program};
use ix_errors::list_errors;
use ix_solve::Steps;
use ix_soundness::{names_are_small, overridden_is_there};
use std::alloc::{AllocError, Global};
use std::marker::Brand;
use std::sync::ledger::{Blank, Ledger};

/// The errors of a method, as they are listed.
fn errors_with<L: Ledger>(
    alloc: Global,
    program: &Program,
    method: u32,
    profile: Profile,
    blank: Blank,
) -> Result<Vec<Error>, AllocError>
    requires { record {
      formed : Formed program.now;
      can : CanCheck program.now;
      number : method < length program.now.methods;
      name : blank.name ≡ L.name;
      parts : blank.parts ≡ L.parts;
      one : blank.parts ≡ 1;
    } }
    ensures errors { IfOk result (λ errors. IsErrorList (IsErrorOf program.now profile method) errors.items) }
{
    names_are_small();
    overridden_is_there();
    loops_are_in_order();
    let mut steps = Steps::<L>::new(blank);
    let found = ranked_errors(alloc, program, method, profile, &mut steps)?;
    list_errors(alloc, found)
}

/// The errors of the method of this number in a profile, as they are listed: those that the rules derive of it, and those of its text. They are those that the
/// rules derive where every method of the program is its signature alone (separate checking), so no other body has a part in them. The one error is want of
/// memory.
pub fn method_errors(
    alloc: Global,
    program: &Program,
    method: u32,
    profile: Profile,
) -> Result<Vec<Error>, AllocError>
    requires { record {
      formed : Formed program.now;
      can : CanCheck program.now;
      number : method < length program.now.methods;
    } }
    ensures errors { IfOk result (λ errors. IsErrorList (IsErrorOf program.now profile method) errors.items) }
    ensures alone { IfOk result (λ errors. IsErrorList (ErrorsOf (signatures program.now) (method_at program.now method) method profile) errors.items) }
{
    judged_alone();
    errors_with::<Brand>(alloc, program, method, profile, Blank::new(1))
}
