//! Problems on a flow graph, and their least solution by a worklist.

ghost use Rattle.std.specs.Prelude.{◌≡◌, ℕ, ◌+◌, ◌<◌, ◌≤◌, List, length, map, slice_get, Some, IfOk, vec_len};
ghost use Rattle.ix_solve.specs.Solutions.{IsBottom, AreBottom, IsMonotone, IsLeastOf, IsSolution, IsLeast, OrdersBy};
ghost use Rattle.ix_solve.specs.Readers.{AreReadersInRange, DependsOnRead, VisitsAtMost};

use crate::steps::Steps;
use crate::worklist::Worklist;
use ix_lattice::Lattice;
use std::alloc::{AllocError, Global};
use std::sync::ledger::Ledger;

/// A graph whose nodes, numbers from 0 on, read each other's labels. What is asked is asked of what labels say: a solution may say what no value does, and
/// the labels that are found say as much as any.
pub trait FlowProblem {
    type Value: Lattice;

    /// What can be said at a node.
    ghost Meaning: { Type 0 };

    /// What a value says.
    ghost means: { Self.Value → Meaning };

    /// Whether the first says all that the second says.
    ghost SaysAll: { Meaning → Meaning → Type 0 };

    /// Of each node, the nodes that read its label.
    ghost readers_of: { Self → List (List ℕ) };

    /// Whether it is high enough for a node to say this, where labels say those.
    ghost Asks: { Self → ℕ → List Meaning → Meaning → Type 0 };

    /// How many nodes there are.
    fn len(&self) -> usize
        ensures len { result ≡ length (readers_of self.now) }
        ensures readers_in_range { AreReadersInRange (readers_of self.now) };

    /// A value that says everything. It takes no memory.
    fn least(&self) -> Self::Value
        ensures bottom { IsBottom SaysAll (means result) };

    /// The nodes that read the label of node `at`. Each is below `len`.
    fn readers(&self, at: usize) -> &[usize]
        requires at { at < length (readers_of self.now) }
        ensures readers { slice_get (readers_of self.now) at ≡ Some result.now };

    /// The least value that is high enough for node `at`, or want of memory. It ticks once.
    fn visit<L: Ledger>(
        &self,
        alloc: Global,
        at: usize,
        labels: &[Self::Value],
        steps: &mut Steps<L>,
    ) -> Result<Self::Value, AllocError>
        requires at { at < length (readers_of self.now) }
        requires labels { length labels.now ≡ length (readers_of self.now) }
        ensures value { IfOk result (λ value. IsLeastOf SaysAll (Asks self.now at (map means labels.now)) (means value)) }
        ensures step { steps.new ≡ steps.old + 1 };

    /// Values are ordered as what they say.
    ghost order: { OrdersBy Self.Value.Below SaysAll means };

    /// What is high enough at labels is so at lower labels, and so is what is above it.
    ghost monotone: { (problem : Self) → IsMonotone SaysAll (Asks problem) };

    /// What is high enough for a node depends only on labels that have the node among their readers.
    ghost depends: { (problem : Self) → DependsOnRead (readers_of problem) (Asks problem) };
}

/// The least labels, one for each node, that are high enough for all nodes: what they say is a solution, and is below every solution. Each node is visited
/// at least once, and then only where a label that it reads has risen. Sweeps go through the parts, one after another: they say which of the waiting nodes
/// is next, and labels don't depend on them.
pub fn solve_graph<G: FlowProblem, L: Ledger>(
    alloc: Global,
    problem: &G,
    parts: &[Vec<usize>],
    steps: &mut Steps<L>,
) -> Result<Vec<G::Value>, AllocError>
    ensures solution { IfOk result (λ labels.
        IsSolution G.SaysAll (length (G.readers_of problem.now)) (G.Asks problem.now) (map G.means labels.items)) }
    ensures least { IfOk result (λ labels.
        IsLeast G.SaysAll (length (G.readers_of problem.now)) (G.Asks problem.now) (map G.means labels.items)) }

    // Visits: at least one for each node, and at most one more for each reading of a label that rose.
    ensures at_least { IfOk result (λ _. steps.old + length (G.readers_of problem.now) ≤ steps.new) }
    ensures at_most { IfOk result (λ labels. VisitsAtMost G.Value.Below G.Value.rank
        (G.readers_of problem.now) steps.old steps.new labels.items) }
{
    let mut labels = all_least(alloc, problem)?;
    let mut waiting = Worklist::of_all(alloc, labels.len(), parts)?;
    while let Some(at) = waiting.take_next() {
        let value = problem.visit(alloc, at, &labels, steps)?;
        if !value.leq(&labels[at]) {
            waiting.add_all(problem.readers(at));

            // It is above the old label, since the labels that it was made of have only risen.
            labels[at] = value;
        }
    }
    Ok(labels)
}

fn all_least<G: FlowProblem>(alloc: Global, problem: &G) -> Result<Vec<G::Value>, AllocError>
    ensures len { IfOk result (λ labels. vec_len labels ≡ length (G.readers_of problem.now)) }
    ensures bottom { IfOk result (λ labels. AreBottom G.SaysAll (map G.means labels.items)) }
    ensures readers { AreReadersInRange (G.readers_of problem.now) }
{
    let mut labels = Vec::new(alloc);
    for _ in 0..problem.len() {
        labels.push(problem.least())?;
    }
    Ok(labels)
}
