//! The graph of a method as a problem of flow.

ghost use Rattle.std.specs.Prelude.{◌≡◌, length};
ghost use Rattle.ix_core.specs.Code.{block_code};
ghost use Rattle.ix_graph.specs.Graph.{behind_code, method_parts};
ghost use Rattle.ix_graph.specs.Built.{edges_of};
ghost use Rattle.ix_graph.specs.Linked.{HaveEdges};
ghost use Rattle.ix_signatures.specs.Naming.{HasSmallNames, HaveSmallNames};
ghost use Rattle.ix_labels.specs.Runs.{AreRuns, readers_through, runs_once};
ghost use Rattle.ix_labels.specs.SmallOnce.{method_once, program_once};

use crate::runs::Runs;
use ix_core::{Method, Profile, Program};
use ix_facts::Landmarks;
use ix_graph::Graph;

/// A method of a program in a profile, with its landmarks, its graph, and the runs of it.
#[derive(Drop)]
pub(crate) struct Problem<'a> {
    pub(crate) program: &'a Program,
    pub(crate) within: &'a Method,
    pub(crate) profile: Profile,
    pub(crate) marks: Landmarks,
    pub(crate) graph: Graph<'a>,
    pub(crate) runs: Runs,
    ghost small: { HaveSmallNames program.now } by { program_once program.now },
    ghost own: { HasSmallNames within.now } by { method_once within.now },
    ghost size: { length graph.nodes.items ≡ behind_code (block_code within.now.body) 2 },
    ghost through: { AreRuns graph.nodes.items runs.kept.items (readers_through runs.readers.items) } by { runs_once graph.nodes.items runs.kept.items (readers_through runs.readers.items) },
    ghost edges: { HaveEdges graph.nodes.items (edges_of (method_parts (block_code within.now.body))) },
}
