//! The least labels of a method, of which those within straight runs of a large graph are not kept.

ghost use Rattle.std.specs.Prelude.{◌≡◌, ◌+◌, ◌<◌, ◌≤◌, false, IfOk, length};
ghost use Rattle.ix_core.specs.Code.{block_code};
ghost use Rattle.ix_graph.specs.Graph.{behind_code};
ghost use Rattle.ix_signatures.specs.Naming.{HasSmallNames, HaveSmallNames};
ghost use Rattle.ix_labels.specs.Filled.{IsProblemOf, AreRunLabels, IsLabel, IsMade, nodes_of, run_visits};
ghost use Rattle.ix_labels.specs.Problem.{kept_in};
ghost use Rattle.ix_labels.specs.Runs.{AreKept, node_in_turn};

use crate::kept::RunLabels;
use crate::problem::Problem;
use crate::runs::{goes_on, node_before, runs_in};
use ix_core::{Method, Profile, Program};
use ix_graph::{Edge, Graph, Node, graph, sweep_parts};
use ix_landmarks::landmarks;
use ix_solve::{Steps, solve_graph};
use ix_store::Store;
use std::alloc::{AllocError, Global};
use std::sync::ledger::Ledger;

/// From so many nodes on a graph's labels within runs are not kept: fewer take little memory, and labels that are kept are made once less.
const MANY: usize = 128;

impl<'a> RunLabels<'a> {
    /// The nodes of the method's graph.
    pub fn nodes(&self) -> &[Node<'a>]
        ensures { result.now ≡ nodes_of self.now }
    {
        self.problem.graph.nodes.as_slice()
    }

    /// The node whose turn it is, where labels are made one after the other, each by the one before: that of the end of the body last.
    pub fn node_in_turn(&self, turn: usize) -> usize
        requires { turn < length (nodes_of self.now) }
        ensures { record {
          node : result ≡ node_in_turn (length (nodes_of self.now)) turn;
          within : result < length (nodes_of self.now);
        } }
    {
        if turn == 0 {
            0
        } else if turn + 1 == self.problem.graph.nodes.len() {
            1
        } else {
            turn + 1
        }
    }

    /// The label of a node, by that of the node before it in turn.
    pub fn label(&self, alloc: Global, at: usize, before: &Store) -> Result<Store, AllocError>
        requires { at < length (nodes_of self.now) }
        ensures { IfOk result (IsLabel self.now at before.now) }
    {
        if self.problem.runs.kept[at] {
            self.stores[at].share()
        } else {
            self.made(alloc, at, before)
        }
    }

    /// The label of a node that is passed, by that of the node before it in turn, or, where a run begins with it, by what is kept.
    fn made(&self, alloc: Global, at: usize, before: &Store) -> Result<Store, AllocError>
        requires { at < length (nodes_of self.now) }
        ensures { IfOk result (IsMade self.now at before.now) }
    {
        let from = node_before(self.problem.graph.nodes.len(), at);
        if goes_on(from, self.problem.graph.nodes[at].from.as_slice()) {
            self.problem.brought(alloc, (from, Edge::Next), before)
        } else {
            self.problem
                .gathered_first(alloc, at, self.stores.as_slice())
        }
    }

    /// The graph, and what is kept.
    pub(crate) fn into_parts(self) -> (Graph<'a>, Vec<Store>)
        ensures graph { result.0 ≡ self.entry.problem.graph }
        ensures stores { result.1 ≡ self.entry.stores }
    {
        let RunLabels {
            problem,
            stores,
            ..
        } = self;
        let Problem { graph, .. } = problem;
        (graph, stores)
    }
}

/// The method as a problem, whose labels are all kept if no runs are wanted.
fn problem_of<'a>(
    alloc: Global,
    program: &'a Program,
    within: &'a Method,
    profile: Profile,
    passing: bool,
) -> Result<Problem<'a>, AllocError>
    requires { record {
      program : HaveSmallNames program.now;
      method : HasSmallNames within.now;
    } }
    ensures { record {
      problem : IfOk result (IsProblemOf program.now within.now profile);
      all : IfOk result (λ problem. passing ≡ false → AreKept (kept_in problem));
    } }
{
    let marks = landmarks(alloc, program, within)?;
    let graph = graph(alloc, within)?;
    let wanted = passing && graph.nodes.len() >= MANY;
    let runs = runs_in(alloc, graph.nodes.as_slice(), wanted)?;
    Ok(Problem {
        program,
        within,
        profile,
        marks,
        graph,
        runs,
    })
}

/// The least labels of a method in a profile, all of which are kept if no runs are wanted.
pub(crate) fn solved<'a, L: Ledger>(
    alloc: Global,
    program: &'a Program,
    within: &'a Method,
    profile: Profile,
    passing: bool,
    steps: &mut Steps<L>,
) -> Result<RunLabels<'a>, AllocError>
    requires program { HaveSmallNames program.now }
    requires method { HasSmallNames within.now }
    ensures labels { IfOk result (AreRunLabels program.now within.now profile) }
    ensures all { IfOk result (λ labels. passing ≡ false → AreKept (kept_in labels.problem)) }
    ensures at_least { IfOk result (λ labels. steps.old + behind_code (block_code within.now.body) 2 ≤ steps.new) }
    ensures at_most { IfOk result (λ labels. steps.new ≤ steps.old + run_visits labels) }
{
    let problem = problem_of(alloc, program, within, profile, passing)?;
    let parts = sweep_parts(alloc, &problem.graph)?;
    let stores = solve_graph(alloc, &problem, &parts, steps)?;
    Ok(RunLabels { problem, stores })
}

/// The least labels of a method in a profile. The one error is want of memory. Each node is visited at least once, and then only where a label that it reads
/// has risen.
pub fn label_runs<'a, L: Ledger>(
    alloc: Global,
    program: &'a Program,
    within: &'a Method,
    profile: Profile,
    steps: &mut Steps<L>,
) -> Result<RunLabels<'a>, AllocError>
    requires { record {
      program : HaveSmallNames program.now;
      method : HasSmallNames within.now;
    } }
    ensures { record {
      labels : IfOk result (AreRunLabels program.now within.now profile);
      at_least : IfOk result (λ labels. steps.old + behind_code (block_code within.now.body) 2 ≤ steps.new);
      at_most : IfOk result (λ labels. steps.new ≤ steps.old + run_visits labels);
    } }
{
    solved(alloc, program, within, profile, true, steps)
}
