//! The labels at the heads of loops.

ghost use Rattle.std.specs.Prelude.{◌≡◌, ◌+◌, ◌++◌, ◌≤◌, IfOk, OnOk, length};
ghost use Rattle.ix_core.specs.Code.{block_code};
ghost use Rattle.ix_graph.specs.Built.{kind_of};
ghost use Rattle.ix_graph.specs.Graph.{behind_code, method_parts};
ghost use Rattle.ix_graph.specs.Heads.{AreInOrder};
ghost use Rattle.ix_labels.specs.LoopLabels as spec;
ghost use Rattle.ix_signatures.specs.Naming.{HasSmallNames, HaveSmallNames};
ghost use Rattle.ix_labels.specs.Visits.{VisitsWithin};

use crate::{Store, label_nodes};
use ix_core::{Method, Profile, Program};
use ix_graph::{Node, NodeKind};
use ix_solve::Steps;
use std::alloc::{AllocError, Global};
use std::sync::ledger::Ledger;

fn is_head(kind: &NodeKind<'_>) -> bool
    ensures { result ≡ spec.is_head (kind_of kind.now) }
{
    match kind {
        NodeKind::Head(_, _) => true,
        _ => false,
    }
}

fn push_at_head(found: &mut Vec<Store>, node: &Node<'_>, store: &Store) -> Result<(), AllocError>
    ensures { OnOk result (found.new.items ≡ found.old.items ++ spec.one_if (spec.is_head (kind_of node.now.kind)) store.now) }
{
    if is_head(&node.kind) {
        found.push(store.share()?)?;
    }
    Ok(())
}

/// The stores beside the nodes that are heads.
fn at_heads(alloc: Global, nodes: &[Node<'_>], stores: &[Store]) -> Result<Vec<Store>, AllocError>
    requires { length stores.now ≡ length nodes.now }
    ensures { IfOk result (λ found. found.items ≡ spec.head_stores nodes.now stores.now) }
{
    let mut found = Vec::new(alloc);
    for at in 0..nodes.len() {
        push_at_head(&mut found, &nodes[at], &stores[at])?;
    }
    Ok(found)
}

/// The least labels of a method's loops in a profile, by the loops' numbers. The one error is want of memory. Each node of the method's graph is visited at least
/// once, and all of them at most as often as its least labels take.
pub fn loop_labels<L: Ledger>(
    alloc: Global,
    program: &Program,
    within: &Method,
    profile: Profile,
    steps: &mut Steps<L>,
) -> Result<Vec<Store>, AllocError>
    requires { record {
      program : HaveSmallNames program.now;
      method : HasSmallNames within.now;
      loops : AreInOrder 0 (method_parts (block_code within.now.body));
    } }
    ensures labels { IfOk result (λ found. spec.AreLoopLabels program.now within.now profile found.items) }
    ensures at_least { IfOk result (λ found. steps.old + behind_code (block_code within.now.body) 2 ≤ steps.new) }
    ensures at_most { IfOk result (λ found. VisitsWithin program.now within.now profile steps.old steps.new) }
{
    let labels = label_nodes(alloc, program, within, profile, steps)?;
    at_heads(
        alloc,
        labels.graph.nodes.as_slice(),
        labels.stores.as_slice(),
    )
}
