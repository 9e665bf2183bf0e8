//! The check of a whole program.
ghost use Rattle.std.specs.Prelude.{◌≡◌, ◌+◌, ◌≤◌, ℕ, [], length, IfOk};
ghost use Rattle.std.specs.List.{All};
ghost use Rattle.ix_core.specs.CodePlaces.{PlacesWithin};
ghost use Rattle.ix_core.specs.Formed.{Formed};
ghost use Rattle.ix_core.specs.Safe.{Safe};
ghost use Rattle.ix_core.specs.Ready.{CanCheck};
ghost use Rattle.ix_check.specs.MethodErrors.{IsError, nodes_below};
ghost use Rattle.ix_check.specs.Visits.{AllVisitsWithin};
ghost use Rattle.ix_errors.specs.ErrorList.{IsErrorList};

use crate::laws::loops_are_in_order;
use crate::program::program_errors;
use ix_core::{Error, Profile, Program};
use ix_errors::list_errors;
use ix_solve::Steps;
use ix_soundness::{names_are_small, overridden_is_there, soundness};
use std::alloc::{AllocError, Global};
use std::marker::Brand;
use std::sync::ledger::{Blank, Ledger};

/// The errors of the program in a profile: all that the rules derive at the least labels of each method, and those of its text, nothing else, as they are
/// listed. Where there are none, no run of the program indexes outside an array or makes one of negative length, whatever the inputs that meet the entry's
/// annotations, and for any number of steps; in the profile `Ideal` this is said of a run up to the first sum that wraps. The one error is want of memory.
/// Visits of the nodes of each method's graph are counted, at least one each, and at most as many as the least labels of the methods take.
pub fn check<L: Ledger>(
    alloc: Global,
    program: &Program,
    profile: Profile,
    steps: &mut Steps<L>,
) -> Result<Vec<Error>, AllocError>
    requires { record {
      formed : Formed program.now;
      can : CanCheck program.now;
    } }
    ensures errors { IfOk result (λ errors. IsErrorList (IsError program.now profile) errors.items) }
    ensures safe { IfOk result (λ errors. errors.items ≡ [] → Safe program.now profile) }
    ensures at_least { IfOk result (λ errors. steps.old + nodes_below program.now (length program.now.methods) ≤ steps.new) }
    ensures at_most { IfOk result (λ errors. AllVisitsWithin program.now profile steps.old steps.new) }
{
    soundness();
    names_are_small();
    overridden_is_there();
    loops_are_in_order();
    let found = program_errors(alloc, program, profile, steps)?;
    list_errors(alloc, found)
}

/// The same with a counter of its own.
fn check_with<L: Ledger>(
    alloc: Global,
    program: &Program,
    profile: Profile,
    blank: Blank,
) -> Result<Vec<Error>, AllocError>
    requires { record {
      formed : Formed program.now;
      can : CanCheck program.now;
      name : blank.name ≡ L.name;
      parts : blank.parts ≡ L.parts;
      one : blank.parts ≡ 1;
    } }
    ensures { record {
      errors : IfOk result (λ errors. IsErrorList (IsError program.now profile) errors.items);
      safe : IfOk result (λ errors. errors.items ≡ [] → Safe program.now profile);
    } }
{
    let mut steps = Steps::<L>::new(blank);
    check(alloc, program, profile, &mut steps)
}

/// The errors of the program in a profile, as they are listed, with a counter of its own: see `check`. Each starts in a text in which the places that the
/// program names stand.
pub fn check_program(
    alloc: Global,
    program: &Program,
    profile: Profile,
) -> Result<Vec<Error>, AllocError>
    requires { record {
      formed : Formed program.now;
      can : CanCheck program.now;
    } }
    ensures errors { IfOk result (λ errors. IsErrorList (IsError program.now profile) errors.items) }
    ensures safe { IfOk result (λ errors. errors.items ≡ [] → Safe program.now profile) }
    ensures within { (end : ℕ) → PlacesWithin end program.now → IfOk result (λ errors. All (λ error. error.span.from ≤ end) errors.items) }
{
    check_with::<Brand>(alloc, program, profile, Blank::new(1))
}
