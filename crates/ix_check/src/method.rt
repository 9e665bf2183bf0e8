//! All errors of a method.

ghost use Rattle.std.specs.Prelude.{◌≡◌, ◌+◌, ◌≤◌, ◌<◌, OnOk, length};
ghost use Rattle.std.specs.Option.{ForSome};
ghost use Rattle.ix_core.specs.Code.{block_code};
ghost use Rattle.ix_core.specs.Tables.{method_at};
ghost use Rattle.ix_graph.specs.Graph.{behind_code, method_parts};
ghost use Rattle.ix_graph.specs.Heads.{AreInOrder};
ghost use Rattle.ix_sign.specs.RuleErrors.{OverridesBy};
ghost use Rattle.ix_errors.specs.Exactly.{AddsExactly};
ghost use Rattle.ix_signatures.specs.Naming.{HasSmallNames, HaveSmallNames};
ghost use Rattle.ix_labels.specs.Visits.{VisitsWithin};
ghost use Rattle.ix_soundness.specs.Sound.{HasNoErrors};
ghost use Rattle.ix_check.specs.MethodErrors.{IsErrorOf};

use crate::nodes::push_of_nodes;
use ix_core::{Method, Profile, Program};
use ix_errors::{Ranked, push_override_errors};
use ix_labels::label_runs;
use ix_solve::Steps;
use std::alloc::{AllocError, Global};
use std::sync::ledger::Ledger;

/// Those of a method that overrides another.
fn push_of_overriding(
    alloc: Global,
    out: &mut Vec<Ranked>,
    program: &Program,
    within: &Method,
    number: u32,
) -> Result<(), AllocError>
    requires { record {
      method : HasSmallNames within.now;
      upper : ForSome within.now.overrides (λ over. over < length program.now.methods);
      program : HaveSmallNames program.now;
    } }
    ensures { OnOk result (AddsExactly (OverridesBy program.now within.now number within.now.overrides) out.old.items out.new.items) }
{
    let Some(over) = within.overrides else {
        return Ok(());
    };
    let upper = &program.methods.as_slice()[over as usize];
    push_override_errors(alloc, out, program, within, number, upper, over)
}

/// All errors of a method in a profile: those that no flow of its body avoids, and those of its text, each with the place of its claim in its declaration, in
/// any order; none of them is what a sound program needs of each method. The one error is want of memory. Visits of the nodes of its graph are counted, at least
/// one each, and at most as many as its least labels take.
pub(crate) fn push_method_errors<L: Ledger>(
    alloc: Global,
    out: &mut Vec<Ranked>,
    program: &Program,
    number: u32,
    profile: Profile,
    steps: &mut Steps<L>,
) -> Result<(), AllocError>
    requires number { number < length program.now.methods }
    requires program { HaveSmallNames program.now }
    requires upper { ForSome (method_at program.now number).overrides (λ over. over < length program.now.methods) }
    requires loops { AreInOrder 0 (method_parts (block_code (method_at program.now number).body)) }
    ensures errors { OnOk result (AddsExactly (IsErrorOf program.now profile number) out.old.items out.new.items) }
    ensures none { OnOk result (out.new.items ≡ out.old.items → HasNoErrors program.now profile number) }
    ensures at_least { OnOk result (steps.old + behind_code (block_code (method_at program.now number).body) 2 ≤ steps.new) }
    ensures at_most { OnOk result (VisitsWithin program.now (method_at program.now number) profile steps.old steps.new) }
{
    let within = &program.methods.as_slice()[number as usize];
    let labels = label_runs(alloc, program, within, profile, steps)?;
    push_of_overriding(alloc, out, program, within, number).and(push_of_nodes(
        alloc, out, program, within, number, &labels,
    ))
}
