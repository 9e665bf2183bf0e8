//! The graph of a method: its nodes, each with the edges to it and the nodes that read it.

ghost use Rattle.std.specs.Prelude.{◌≡◌, ◌<◌, IfOk, OnOk, length, map, []};
ghost use Rattle.ix_core.specs.Code.{block_code};
ghost use Rattle.ix_graph.specs.Graph.{behind_code, method_parts};
ghost use Rattle.ix_graph.specs.Built.{kind_of, kinds_of, edges_of};
ghost use Rattle.ix_graph.specs.Linked.{kinds_in, Attaches, HaveEdges, AreWithin};

use crate::builder::{Builder, Jumps};
use crate::node::{Edge, Graph, Node, NodeKind};
use crate::source::Source;
use ix_core::Method;
use std::alloc::{AllocError, Global};

/// Attaches an edge to both of its nodes.
fn attach<'a>(nodes: &mut Vec<Node<'a>>, edge: (usize, Edge, usize)) -> Result<(), AllocError>
    requires node { edge.0 < length nodes.old.items }
    requires target { edge.2 < length nodes.old.items }
    ensures attached { OnOk result (Attaches nodes.old.items nodes.new.items edge) }
{
    let (node, way, target) = edge;
    nodes[target].from.push((node, way))?;
    nodes[node].readers.push(target)?;
    Ok(())
}

/// The nodes of these kinds, without edges.
fn unlinked<'a>(alloc: Global, kinds: &[NodeKind<'a>]) -> Result<Vec<Node<'a>>, AllocError>
    ensures { record {
      kinds : IfOk result (λ nodes. kinds_in nodes.items ≡ map kind_of kinds.now);
      none : IfOk result (λ nodes. HaveEdges nodes.items []);
    } }
{
    let mut nodes = Vec::new(alloc);
    for kind in kinds {
        nodes.push(Node {
            kind: *kind,
            from: Vec::new(alloc),
            readers: Vec::new(alloc),
        })?;
    }
    Ok(nodes)
}

/// The nodes of these kinds, with these edges.
fn linked<'a>(
    alloc: Global,
    kinds: &[NodeKind<'a>],
    edges: &[(usize, Edge, usize)],
) -> Result<Graph<'a>, AllocError>
    requires within { AreWithin (length kinds.now) edges.now }
    ensures kinds { IfOk result (λ graph. kinds_in graph.nodes.items ≡ map kind_of kinds.now) }
    ensures edges { IfOk result (λ graph. HaveEdges graph.nodes.items edges.now) }
{
    let mut nodes = unlinked(alloc, kinds)?;
    for edge in edges {
        attach(&mut nodes, *edge)?;
    }
    Ok(Graph { nodes })
}

/// The flow graph of a method: node 0 is its entry, node 1 the end of its body, and the others stand in the order of its statements. The one error
/// is want of memory.
pub fn graph<'a>(alloc: Global, method: &'a Method) -> Result<Graph<'a>, AllocError>
    ensures size { IfOk result (λ graph. length graph.nodes.items ≡ behind_code (block_code method.now.body) 2) }
    ensures kinds { IfOk result (λ graph. kinds_in graph.nodes.items ≡ kinds_of (method_parts (block_code method.now.body))) }
    ensures edges { IfOk result (λ graph. HaveEdges graph.nodes.items (edges_of (method_parts (block_code method.now.body)))) }
{
    let mut builder = Builder::new(alloc);
    let entry = builder.add(NodeKind::Entry)?;
    let end = builder.add(NodeKind::End)?;
    let outside = Jumps {
        leave: end,
        again: end,
    };
    builder.block(&method.body, Source::Onward(entry), end, outside)?;
    linked(alloc, &builder.nodes, &builder.edges)
}
