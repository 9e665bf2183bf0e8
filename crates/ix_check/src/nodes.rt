//! The errors at the nodes of a method's graph.

ghost use Rattle.std.specs.Prelude.{OnOk};
ghost use Rattle.ix_graph.specs.Built.{kind_of};
ghost use Rattle.ix_store.specs.StoredFacts.{stored};
ghost use Rattle.ix_errors.specs.Exactly.{AddsExactly};
ghost use Rattle.ix_signatures.specs.Naming.{HasSmallNames, HaveSmallNames};
ghost use Rattle.ix_check.specs.NodeErrors.{LabelGives, TextGives, NodeGives, AddsAtLabels};

use ix_core::{Method, Program};
use ix_errors::{
    Ranked, push_assigned_parameter, push_constructor_errors, push_effect_error, push_escapes_in,
    push_escapes_of, push_missing_return, push_op_errors, push_post_errors, push_return_errors,
};
use ix_graph::NodeKind;
use ix_labels::RunLabels;
use ix_store::Store;
use std::alloc::{AllocError, Global};

/// Those that a node's label gives.
fn push_of_label(
    alloc: Global,
    out: &mut Vec<Ranked>,
    program: &Program,
    within: &Method,
    number: u32,
    kind: &NodeKind<'_>,
    label: &Store,
) -> Result<(), AllocError>
    requires { record {
      program : HaveSmallNames program.now;
      method : HasSmallNames within.now;
    } }
    ensures { OnOk result (AddsExactly (LabelGives program.now within.now number (kind_of kind.now) (stored label.now)) out.old.items out.new.items) }
{
    match kind {
        NodeKind::Do(done) => push_op_errors(alloc, out, label, program, within, number, done),
        NodeKind::Return(value, known, span) => {
            push_return_errors(out, label, within, number, *value, *span)
                .and(push_constructor_errors(alloc, out, label, program, within))
                .and(push_post_errors(out, label, within, number, *value, *known, *span))
        }
        NodeKind::End => {
            push_constructor_errors(alloc, out, label, program, within)
                .and(push_missing_return(out, label, within))
                .and(push_post_errors(out, label, within, number, None, None, within.span))
        }
        _ => Ok(()),
    }
}

/// Those of a node's text.
fn push_of_text(
    out: &mut Vec<Ranked>,
    program: &Program,
    within: &Method,
    kind: &NodeKind<'_>,
) -> Result<(), AllocError>
    ensures { OnOk result (AddsExactly (TextGives program.now within.now (kind_of kind.now)) out.old.items out.new.items) }
{
    match kind {
        NodeKind::Do(done) => {
            push_effect_error(out, program, within, done)
                .and(push_assigned_parameter(out, within, done))
                .and(push_escapes_of(out, within, done))
        }
        NodeKind::Compare(test) => push_escapes_in(out, within, test),
        _ => Ok(()),
    }
}

/// Those of a node.
fn push_of_node(
    alloc: Global,
    out: &mut Vec<Ranked>,
    program: &Program,
    within: &Method,
    number: u32,
    kind: &NodeKind<'_>,
    label: &Store,
) -> Result<(), AllocError>
    requires { record {
      program : HaveSmallNames program.now;
      method : HasSmallNames within.now;
    } }
    ensures { OnOk result (AddsExactly (NodeGives program.now within.now number (kind_of kind.now) (stored label.now)) out.old.items out.new.items) }
{
    push_of_label(alloc, out, program, within, number, kind, label).and(push_of_text(
        out, program, within, kind,
    ))
}

/// Those of all nodes, each by its label, which is made by that of the node before it in turn where it is not kept.
pub(crate) fn push_of_nodes(
    alloc: Global,
    out: &mut Vec<Ranked>,
    program: &Program,
    within: &Method,
    number: u32,
    labels: &RunLabels<'_>,
) -> Result<(), AllocError>
    requires program { HaveSmallNames program.now }
    requires method { HasSmallNames within.now }
    ensures { OnOk result (AddsAtLabels program.now within.now number labels.now out.old.items out.new.items) }
{
    let nodes = labels.nodes();
    let mut label = Store::unreachable();
    for turn in 0..nodes.len() {
        let at = labels.node_in_turn(turn);
        label = labels.label(alloc, at, &label)?;
        push_of_node(alloc, out, program, within, number, &nodes[at].kind, &label)?;
    }
    Ok(())
}
