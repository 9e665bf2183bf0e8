//! The least labels of a method.

ghost use Rattle.std.specs.Prelude.{◌+◌, ◌≤◌, IfOk};
ghost use Rattle.ix_core.specs.Code.{block_code};
ghost use Rattle.ix_graph.specs.Graph.{behind_code};
ghost use Rattle.ix_signatures.specs.Naming.{HasSmallNames, HaveSmallNames};
ghost use Rattle.ix_labels.specs.Labels.{AreLabels};
ghost use Rattle.ix_labels.specs.Visits.{visits_by};

use crate::run_labels::solved;
use ix_core::{Method, Profile, Program};
use ix_graph::Graph;
use ix_solve::Steps;
use ix_store::Store;
use std::alloc::{AllocError, Global};
use std::sync::ledger::Ledger;

/// The graph of a method, and the label of each of its nodes.
#[derive(Drop)]
pub struct Labels<'a> {
    pub graph: Graph<'a>,
    pub stores: Vec<Store>,
}

/// The least labels of a method in a profile, at all nodes of its graph. The one error is want of memory. Each node is visited at least once, and then only
/// where a label that it reads has risen.
pub fn label_nodes<'a, L: Ledger>(
    alloc: Global,
    program: &'a Program,
    within: &'a Method,
    profile: Profile,
    steps: &mut Steps<L>,
) -> Result<Labels<'a>, AllocError>
    requires { record {
      program : HaveSmallNames program.now;
      method : HasSmallNames within.now;
    } }
    ensures labels { IfOk result (AreLabels program.now within.now profile) }
    ensures at_least { IfOk result (λ labels. steps.old + behind_code (block_code within.now.body) 2 ≤ steps.new) }
    ensures at_most { IfOk result (λ labels. steps.new ≤ steps.old + visits_by (block_code within.now.body) labels.stores.items) }
{
    let labels = solved(alloc, program, within, profile, false, steps)?;
    let (graph, stores) = labels.into_parts();
    Ok(Labels { graph, stores })
}
