//! Straight runs of nodes: of which nodes labels are kept, and which nodes read them.

ghost use Rattle.std.specs.Prelude.{◌≡◌, ◌<◌, IfOk, List, All, length, slice_get, Some, true, false, ◌∷◌, []};
ghost use Rattle.ix_graph.specs.Built.{kind_of};
ghost use Rattle.ix_graph.specs.declared.node.Edge.TheVariants as edge;
ghost use Rattle.ix_labels.specs.Runs as spec;

use ix_graph::{Edge, Node, NodeKind};
use std::alloc::{AllocError, Global};

/// The node that stands for the end of the body.
const END: usize = 1;

/// Of each node whether its label is kept, and the nodes that read it.
#[derive(Drop)]
pub(crate) struct Runs {
    pub(crate) kept: Vec<bool>,
    pub(crate) readers: Vec<Vec<usize>>,
}

/// Whether the label of such a node is the store above what its edges bring.
fn is_plain(kind: &NodeKind<'_>) -> bool
    ensures { result ≡ spec.is_plain (kind_of kind.now) }
{
    match kind {
        NodeKind::Entry => false,
        NodeKind::Head(_, _) => false,
        _ => true,
    }
}

/// Whether ways part behind such a node.
fn is_test(kind: &NodeKind<'_>) -> bool
    ensures { result ≡ spec.is_test (kind_of kind.now) }
{
    match kind {
        NodeKind::Compare(_) => true,
        NodeKind::Truth(_, _) => true,
        _ => false,
    }
}

fn is_next(way: Edge) -> bool
    ensures { result ≡ spec.is_next way }
{
    match way {
        Edge::Next => true,
        Edge::WhenTrue => false,
        Edge::WhenFalse => false,
    }
}

/// The node before one of so many, in the order in which labels are made one after the other, that of the end of the body last.
pub(crate) fn node_before(count: usize, at: usize) -> usize
    requires { at < count }
    ensures node { result ≡ spec.node_before count at }
    ensures within { result < count }
{
    if at == 0 {
        0
    } else if at == END {
        count - 1
    } else {
        at - 1
    }
}

/// Whether a run goes on with the node to which these edges lead: it is one edge, from the node before it, which is one of the code's.
pub(crate) fn goes_on(before: usize, from: &[(usize, Edge)]) -> bool
    ensures { result ≡ spec.goes_on before from.now }
{
    if from.len() != 1 {
        return false;
    }
    let (node, way) = from[0];
    before > END && node == before && is_next(way)
}

/// Whether ways meet before the node to which these edges lead, or part: they are not one edge that is taken always.
fn opens(from: &[(usize, Edge)]) -> bool
    ensures { result ≡ spec.opens from.now }
{
    from.len() != 1 || !is_next(from[0].1)
}

/// Whether these edges are one from this node, which is taken always.
fn comes_alone(node: usize, from: &[(usize, Edge)]) -> bool
    ensures { result ≡ true → from.now ≡ (node, edge.Next) ∷ [] }
{
    if from.len() != 1 {
        return false;
    }
    let (before, way) = from[0];
    before == node && is_next(way)
}

/// Whether the run from a node leads on to its reader: to the next of the code, or to the end of the body, if that one is passed. Where runs begin with passed
/// labels, it leads to a test too, and on from where ways meet or part.
fn leads_to(nodes: &[Node<'_>], kept: &[bool], at: usize, reader: usize, begins: bool) -> bool
    requires { record {
      node : at < length nodes.now;
      reader : reader < length nodes.now;
      kept : length kept.now ≡ at;
    } }
    ensures { result ≡ true → (node next : _) → slice_get nodes.now at ≡ Some node → slice_get nodes.now reader ≡ Some next → spec.leads_to at node reader next ≡ true }
{
    if reader == END {
        return at > END && !kept[END];
    }
    if reader == at + 1 {
        return is_plain(&nodes[reader].kind);
    }
    begins && (opens(nodes[at].from.as_slice()) || is_test(&nodes[reader].kind))
}

/// Whether a node's label is read by no node, or by one alone to which only this node leads and the run goes on.
fn leads_on(nodes: &[Node<'_>], kept: &[bool], at: usize, begins: bool) -> bool
    requires { record {
      node : at < length nodes.now;
      kept : length kept.now ≡ at;
    } }
    ensures { result ≡ true → (node : _) → slice_get nodes.now at ≡ Some node → spec.LeadsOn nodes.now at node }
{
    let readers = nodes[at].readers.as_slice();
    if readers.len() == 0 {
        return true;
    }
    if at <= END || readers.len() != 1 || readers[0] >= nodes.len() {
        return false;
    }
    let reader = readers[0];
    comes_alone(at, nodes[reader].from.as_slice()) && leads_to(nodes, kept, at, reader, begins)
}

/// Whether a run goes on with a node, or can begin with it: with those of the code alone.
fn is_of_run(node: &Node<'_>, count: usize, at: usize, begins: bool) -> bool
    requires { at < count }
    ensures { record {
      plain : result ≡ true → spec.is_plain (kind_of node.now.kind) ≡ true;
      single : result ≡ true → spec.is_test (kind_of node.now.kind) ≡ false;
      begins : result ≡ true → spec.goes_on (spec.node_before count at) node.now.from.items ≡ false → 1 < at;
    } }
{
    if !is_plain(&node.kind) || is_test(&node.kind) {
        return false;
    }
    goes_on(node_before(count, at), node.from.as_slice()) || (begins && at > END)
}

/// Whether the label of a node is kept, which all are if no runs are wanted. That of the last node of a run is where others lead to the same node as well,
/// since that node would walk the run again at each of its visits.
fn is_kept(nodes: &[Node<'_>], kept: &[bool], at: usize, runs: bool, begins: bool) -> bool
    requires { record {
      node : at < length nodes.now;
      kept : length kept.now ≡ at;
    } }
    ensures passed { result ≡ false → spec.PassesAt nodes.now at }
    ensures all { runs ≡ false → result ≡ true }
{
    if !runs || !is_of_run(&nodes[at], nodes.len(), at, begins) {
        return true;
    }
    !leads_on(nodes, kept, at, begins)
}

/// Whether a node is the head of a loop.
fn has_head(nodes: &[Node<'_>]) -> bool {
    for node in nodes {
        if let NodeKind::Head(_, _) = node.kind {
            return true;
        }
    }
    false
}

/// Of each node whether its label is kept: of all of them, if no runs are wanted. Runs begin with passed labels where there are no loops, for speed alone: in a
/// loop what leads there would be joined anew at each visit of the run's end.
fn kept_of(alloc: Global, nodes: &[Node<'_>], runs: bool) -> Result<Vec<bool>, AllocError>
    ensures { record {
      many : IfOk result (λ kept. length kept.items ≡ length nodes.now);
      passed : IfOk result (λ kept. spec.ArePassed nodes.now kept.items);
      all : IfOk result (λ kept. runs ≡ false → spec.AreKept kept.items);
    } }
{
    let begins = !has_head(nodes);
    let mut kept = Vec::new(alloc);
    for at in 0..nodes.len() {
        let here = is_kept(nodes, kept.as_slice(), at, runs, begins);
        kept.push(here)?;
    }
    Ok(kept)
}

/// The end of the run that begins with a node: the first from there on whose label is kept, or which leads nowhere.
fn end_of(nodes: &[Node<'_>], kept: &[bool], from: usize) -> usize
    requires { record {
      from : from < length kept.now;
      all : length kept.now ≡ length nodes.now;
      linked : spec.AreLinked nodes.now;
    } }
    ensures within { result < length kept.now }
    ensures end { spec.EndsAt nodes.now kept.now from result }
{
    let mut at = from;
    for _many in 0..kept.len() + 2 {
        let readers = nodes[at].readers.as_slice();
        if kept[at] || readers.len() == 0 {
            return at;
        }
        at = readers[0];
    }
    at
}

/// The ends of the runs that begin with these nodes.
fn ends_of(
    alloc: Global,
    nodes: &[Node<'_>],
    kept: &[bool],
    begins: &[usize],
) -> Result<Vec<usize>, AllocError>
    requires { record {
      begins : All (λ node. node < length kept.now) begins.now;
      all : length kept.now ≡ length nodes.now;
      linked : spec.AreLinked nodes.now;
    } }
    ensures within { IfOk result (λ ends. All (λ node. node < length kept.now) ends.items) }
    ensures ends { IfOk result (λ ends. spec.AreEnds nodes.now kept.now begins.now ends.items) }
{
    let mut ends = Vec::new(alloc);
    for node in begins {
        ends.push(end_of(nodes, kept, *node))?;
    }
    Ok(ends)
}

/// The nodes that read a label: none, if it is not kept.
fn readers_of(
    alloc: Global,
    nodes: &[Node<'_>],
    kept: &[bool],
    at: usize,
    readers: &[usize],
) -> Result<Vec<usize>, AllocError>
    requires { record {
      node : at < length kept.now;
      readers : All (λ node. node < length kept.now) readers.now;
      all : length kept.now ≡ length nodes.now;
      linked : spec.AreLinked nodes.now;
    } }
    ensures { record {
      within : IfOk result (λ by. All (λ node. node < length kept.now) by.items);
      through : IfOk result (λ by. spec.ReadsThrough nodes.now kept.now at readers.now by.items);
    } }
{
    if kept[at] {
        ends_of(alloc, nodes, kept, readers)
    } else {
        Ok(Vec::new(alloc))
    }
}

/// Of which nodes labels are kept, of all if no runs are wanted, and which nodes read them.
pub(crate) fn runs_in(alloc: Global, nodes: &[Node<'_>], passing: bool) -> Result<Runs, AllocError>
    requires { spec.AreLinked nodes.now }
    ensures runs { IfOk result (λ runs. spec.AreRuns nodes.now runs.kept.items (spec.readers_through runs.readers.items)) }
    ensures all { IfOk result (λ runs. passing ≡ false → spec.AreKept runs.kept.items) }
{
    let kept = kept_of(alloc, nodes, passing)?;
    let mut readers = Vec::new(alloc);
    for at in 0..nodes.len() {
        readers.push(readers_of(
            alloc,
            nodes,
            kept.as_slice(),
            at,
            nodes[at].readers.as_slice(),
        )?)?;
    }
    Ok(Runs { kept, readers })
}

/// Whether a label is passed, and the run goes on with the node from that of the number before.
fn continues(nodes: &[Node<'_>], kept: &[bool], at: usize) -> bool
    requires { record {
      some : 0 < at;
      node : at < length nodes.now;
      all : length kept.now ≡ length nodes.now;
    } }
    ensures { record {
      yes : result ≡ true → spec.Continues nodes.now kept.now at;
      no : result ≡ false → spec.Begins nodes.now kept.now at;
    } }
{
    !kept[at] && goes_on(at - 1, nodes[at].from.as_slice())
}

/// The node where the run to a node begins: the last up to there whose label is kept, or with which no run goes on.
pub(crate) fn start_of(nodes: &[Node<'_>], kept: &[bool], at: usize) -> usize
    requires node { at < length nodes.now }
    requires all { length kept.now ≡ length nodes.now }
    ensures { spec.IsStart nodes.now kept.now at result }
{
    for back in 0..at {
        if !continues(nodes, kept, at - back) {
            return at - back;
        }
    }
    0
}
