//! All errors of a program, and those of one of its methods.

ghost use Rattle.std.specs.Prelude.{◌≡◌, ◌+◌, ◌≤◌, ◌<◌, [], IfOk, length};
ghost use Rattle.ix_errors.specs.Exactly.{AreExactly};
ghost use Rattle.ix_check.specs.MethodErrors.{IsReady, IsErrorOf, IsError, HaveNone, nodes_below};
ghost use Rattle.ix_check.specs.Visits.{AllVisitsWithin};

use crate::method::push_method_errors;
use ix_core::{Profile, Program};
use ix_errors::Ranked;
use ix_solve::Steps;
use std::alloc::{AllocError, Global};
use std::sync::ledger::Ledger;

/// All errors of a program in a profile, each with the place of its claim in its declaration, in any order; none of them is what a sound program needs. The one
/// error is want of memory. Visits of the nodes of each method's graph are counted, at least one each, and at most as many as the least labels of the methods take.
pub fn program_errors<L: Ledger>(
    alloc: Global,
    program: &Program,
    profile: Profile,
    steps: &mut Steps<L>,
) -> Result<Vec<Ranked>, AllocError>
    requires ready { IsReady program.now }
    ensures { record {
      errors : IfOk result (λ errors. AreExactly (IsError program.now profile) errors.items);
      none : IfOk result (λ errors. errors.items ≡ [] → HaveNone program.now profile (length program.now.methods));
      at_least : IfOk result (λ errors. steps.old + nodes_below program.now (length program.now.methods) ≤ steps.new);
      at_most : IfOk result (λ errors. AllVisitsWithin program.now profile steps.old steps.new);
    } }
{
    let mut out = Vec::new(alloc);
    for number in 0..program.methods.len() as u32 {
        push_method_errors(alloc, &mut out, program, number, profile, steps)?;
    }
    Ok(out)
}

/// The errors of the method of this number in a profile, each with the place of its claim in its declaration, in any order. The one error is want of memory.
pub fn ranked_errors<L: Ledger>(
    alloc: Global,
    program: &Program,
    number: u32,
    profile: Profile,
    steps: &mut Steps<L>,
) -> Result<Vec<Ranked>, AllocError>
    requires { record {
      ready : IsReady program.now;
      number : number < length program.now.methods;
    } }
    ensures errors { IfOk result (λ errors. AreExactly (IsErrorOf program.now profile number) errors.items) }
{
    let mut out = Vec::new(alloc);
    push_method_errors(alloc, &mut out, program, number, profile, steps)?;
    Ok(out)
}
