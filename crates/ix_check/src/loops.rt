//! The labels of a method's loops.
ghost use Rattle.std.specs.Prelude.{◌≡◌, ◌+◌, ◌≤◌, ◌<◌, length, IfOk};
ghost use Rattle.ix_core.specs.Code.{block_code};
ghost use Rattle.ix_core.specs.Formed.{Formed};
ghost use Rattle.ix_core.specs.Tables.{method_at};
ghost use Rattle.ix_core.specs.Ready.{CanCheck};
ghost use Rattle.ix_graph.specs.Graph.{behind_code};
ghost use Rattle.ix_labels.specs.LoopLabels.{AreLoopLabels};
ghost use Rattle.ix_labels.specs.Visits.{VisitsWithin};

use crate::laws::loops_are_in_order;
use ix_core::{Method, Profile, Program};
use ix_labels::loop_labels;
use ix_solve::Steps;
use ix_soundness::names_are_small;
use ix_store::Store;
use std::alloc::{AllocError, Global};
use std::marker::Brand;
use std::sync::ledger::{Blank, Ledger};

fn method_of(program: &Program, number: u32) -> &Method
    requires number { number < length program.now.methods }
    ensures { result.now ≡ method_at program.now number }
{
    &program.methods.as_slice()[number as usize]
}

/// The least labels of the loops of a method in a profile, by the loops' numbers: what is known at the head of each whenever it is reached, by the rules. The
/// one error is want of memory. Visits of the nodes of the method's graph are counted, at least one each, and at most as many as its least labels take.
pub fn labels<L: Ledger>(
    alloc: Global,
    program: &Program,
    method: u32,
    profile: Profile,
    steps: &mut Steps<L>,
) -> Result<Vec<Store>, AllocError>
    requires { record {
      formed : Formed program.now;
      can : CanCheck program.now;
      number : method < length program.now.methods;
    } }
    ensures { record {
      labels : IfOk result (λ found. AreLoopLabels program.now (method_at program.now method) profile found.items);
      at_least : IfOk result (λ found. steps.old + behind_code (block_code (method_at program.now method).body) 2 ≤ steps.new);
      at_most : IfOk result (λ found. VisitsWithin program.now (method_at program.now method) profile steps.old steps.new);
    } }
{
    names_are_small();
    loops_are_in_order();
    let within = method_of(program, method);
    loop_labels(alloc, program, within, profile, steps)
}

/// The same with a counter of its own.
fn labels_with<L: Ledger>(
    alloc: Global,
    program: &Program,
    method: u32,
    profile: Profile,
    blank: Blank,
) -> Result<Vec<Store>, AllocError>
    requires { record {
      formed : Formed program.now;
      can : CanCheck program.now;
      number : method < length program.now.methods;
      name : blank.name ≡ L.name;
      parts : blank.parts ≡ L.parts;
      one : blank.parts ≡ 1;
    } }
    ensures labels { IfOk result (λ found. AreLoopLabels program.now (method_at program.now method) profile found.items) }
{
    let mut steps = Steps::<L>::new(blank);
    labels(alloc, program, method, profile, &mut steps)
}

/// The least labels of the loops of a method in a profile, with a counter of its own: see `labels`.
pub fn method_labels(
    alloc: Global,
    program: &Program,
    method: u32,
    profile: Profile,
) -> Result<Vec<Store>, AllocError>
    requires { record {
      formed : Formed program.now;
      can : CanCheck program.now;
      number : method < length program.now.methods;
    } }
    ensures labels { IfOk result (λ found. AreLoopLabels program.now (method_at program.now method) profile found.items) }
{
    labels_with::<Brand>(alloc, program, method, profile, Blank::new(1))
}
