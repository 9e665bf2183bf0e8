//! The visits of a graph's nodes.

ghost use Rattle.std.specs.Prelude.{◌≡◌, ◌<◌, ◌⊎◌, IfOk, length, map};
ghost use Rattle.ix_solve.specs.Solutions.{IsLeastOf};
ghost use Rattle.ix_flow.specs.Flow.{Anything};
ghost use Rattle.ix_graph.specs.GraphSolutions.{Carries};
ghost use Rattle.ix_graph.specs.Brought.{pass_of, IsSettled};
ghost use Rattle.ix_facts.specs.Stores.{IsBelow};
ghost use Rattle.ix_store.specs.StoredFacts.{stored};
ghost use Rattle.ix_labels.specs.Problem.{rules_of, kinds_at, edges_at};
ghost use Rattle.ix_labels.specs.Runs.{Begins};
ghost use Rattle.ix_labels.specs.RunAsks.{BringsOf, EachBrings, KeptTo, FirstTo, RunsTo};

use crate::problem::Problem;
use crate::runs::start_of;
use ix_graph::{Edge, NodeKind, last_op};
use ix_lattice::Lattice;
use ix_refine::branch;
use ix_sign::{after, enter, tell};
use ix_solve::{FlowProblem, Steps};
use ix_store::Store;
use std::alloc::{AllocError, Global};
use std::sync::ledger::Ledger;

impl<'a> Problem<'a> {
    /// What an edge brings of the label of the node that it comes from: the least store above that.
    pub(crate) fn brought(
        &self,
        alloc: Global,
        from: (usize, Edge),
        label: &Store,
    ) -> Result<Store, AllocError>
        requires node { from.0 < length self.now.graph.nodes.items }
        ensures least { IfOk result (λ store. IsLeastOf IsBelow (Carries (rules_of self.now) (Anything (rules_of self.now)) (λ number. stored label.now) (pass_of (kinds_at self.now from.0) from.1) (stored label.now)) (stored store)) }
    {
        match (&self.graph.nodes[from.0].kind, from.1) {
            (NodeKind::Do(op), _) => {
                after(alloc, label, self.program, self.within, self.profile, op)
            }
            (NodeKind::Compare(test), Edge::WhenTrue) => branch(alloc, label, test, true),
            (NodeKind::Compare(test), Edge::WhenFalse) => branch(alloc, label, test, false),
            (NodeKind::Truth(block, slot), Edge::WhenTrue) => {
                tell(alloc, label, self.program, last_op(block), *slot, true)
            }
            (NodeKind::Truth(block, slot), Edge::WhenFalse) => {
                tell(alloc, label, self.program, last_op(block), *slot, false)
            }
            _ => label.share(),
        }
    }

    /// What an edge brings of the label that is kept at the node that it comes from.
    fn kept_brought(
        &self,
        alloc: Global,
        from: (usize, Edge),
        labels: &[Store],
    ) -> Result<Store, AllocError>
        requires { record {
          node : from.0 < length self.now.graph.nodes.items;
          labels : length labels.now ≡ length self.now.graph.nodes.items;
        } }
        ensures least { IfOk result (λ store. IsLeastOf IsBelow (BringsOf (rules_of self.now) (kinds_at self.now) (KeptTo (rules_of self.now) (kinds_at self.now) (map stored labels.now)) from) (stored store)) }
    {
        self.brought(alloc, from, &labels[from.0])
    }

    /// The least store above what all edges to a node bring of labels that are kept.
    fn gathered_kept(&self, alloc: Global, at: usize, labels: &[Store]) -> Result<Store, AllocError>
        requires { record {
          node : at < length self.now.graph.nodes.items;
          labels : length labels.now ≡ length self.now.graph.nodes.items;
        } }
        ensures least { IfOk result (λ store. IsLeastOf IsBelow (EachBrings (rules_of self.now) (kinds_at self.now) (KeptTo (rules_of self.now) (kinds_at self.now) (map stored labels.now)) (edges_at self.now at)) (stored store)) }
    {
        let mut joined = Store::unreachable();
        for from in self.graph.nodes[at].from.as_slice() {
            let carried = self.kept_brought(alloc, *from, labels)?;
            joined = joined.join(alloc, &carried)?;
        }
        Ok(joined)
    }

    /// The least store at a node before the first of a run: its label, if that is kept, else what its edges bring of labels that are.
    fn first(&self, alloc: Global, at: usize, labels: &[Store]) -> Result<Store, AllocError>
        requires { record {
          node : at < length self.now.graph.nodes.items;
          labels : length labels.now ≡ length self.now.graph.nodes.items;
        } }
        ensures least { IfOk result (λ store. IsLeastOf IsBelow (FirstTo (rules_of self.now) (kinds_at self.now) self.now.runs.kept.items (edges_at self.now) (map stored labels.now) at) (stored store)) }
    {
        if self.runs.kept[at] {
            labels[at].share()
        } else {
            self.gathered_kept(alloc, at, labels)
        }
    }

    /// What an edge brings of such a store.
    fn first_brought(
        &self,
        alloc: Global,
        from: (usize, Edge),
        labels: &[Store],
    ) -> Result<Store, AllocError>
        requires { record {
          node : from.0 < length self.now.graph.nodes.items;
          labels : length labels.now ≡ length self.now.graph.nodes.items;
        } }
        ensures least { IfOk result (λ store. IsLeastOf IsBelow (BringsOf (rules_of self.now) (kinds_at self.now) (FirstTo (rules_of self.now) (kinds_at self.now) self.now.runs.kept.items (edges_at self.now) (map stored labels.now)) from) (stored store)) }
    {
        let before = self.first(alloc, from.0, labels)?;
        self.brought(alloc, from, &before)
    }

    /// The least store above what all edges bring to the first node of a run.
    pub(crate) fn gathered_first(
        &self,
        alloc: Global,
        at: usize,
        labels: &[Store],
    ) -> Result<Store, AllocError>
        requires node { at < length self.now.graph.nodes.items }
        requires labels { length labels.now ≡ length self.now.graph.nodes.items }
        ensures least { IfOk result (λ store. IsLeastOf IsBelow (EachBrings (rules_of self.now) (kinds_at self.now) (FirstTo (rules_of self.now) (kinds_at self.now) self.now.runs.kept.items (edges_at self.now) (map stored labels.now)) (edges_at self.now at)) (stored store)) }
    {
        let mut joined = Store::unreachable();
        for from in self.graph.nodes[at].from.as_slice() {
            let first = self.first_brought(alloc, *from, labels)?;
            joined = joined.join(alloc, &first)?;
        }
        Ok(joined)
    }

    /// The least store at a node where a run begins: its label, if that is kept, else what its edges bring.
    fn begun(&self, alloc: Global, at: usize, labels: &[Store]) -> Result<Store, AllocError>
        requires { record {
          node : at < length self.now.graph.nodes.items;
          labels : length labels.now ≡ length self.now.graph.nodes.items;
          begins : (at ≡ 0) ⊎ Begins self.now.graph.nodes.items self.now.runs.kept.items at;
        } }
        ensures least { IfOk result (λ store. IsLeastOf IsBelow (RunsTo (rules_of self.now) (kinds_at self.now) self.now.runs.kept.items (edges_at self.now) (map stored labels.now) at) (stored store)) }
    {
        if self.runs.kept[at] {
            labels[at].share()
        } else {
            self.gathered_first(alloc, at, labels)
        }
    }

    /// The least store at a node by what there is where the run to it begins.
    fn walked(&self, alloc: Global, at: usize, labels: &[Store]) -> Result<Store, AllocError>
        requires { record {
          node : at < length self.now.graph.nodes.items;
          labels : length labels.now ≡ length self.now.graph.nodes.items;
        } }
        ensures least { IfOk result (λ store. IsLeastOf IsBelow (RunsTo (rules_of self.now) (kinds_at self.now) self.now.runs.kept.items (edges_at self.now) (map stored labels.now) at) (stored store)) }
    {
        let start = start_of(self.graph.nodes.as_slice(), self.runs.kept.as_slice(), at);
        let mut store = self.begun(alloc, start, labels)?;
        for before in start..at {
            store = self.brought(alloc, (before, Edge::Next), &store)?;
        }
        Ok(store)
    }

    /// What an edge brings of the least store at the node that it comes from.
    fn run_brought(
        &self,
        alloc: Global,
        from: (usize, Edge),
        labels: &[Store],
    ) -> Result<Store, AllocError>
        requires { record {
          node : from.0 < length self.now.graph.nodes.items;
          labels : length labels.now ≡ length self.now.graph.nodes.items;
        } }
        ensures least { IfOk result (λ store. IsLeastOf IsBelow (BringsOf (rules_of self.now) (kinds_at self.now) (RunsTo (rules_of self.now) (kinds_at self.now) self.now.runs.kept.items (edges_at self.now) (map stored labels.now)) from) (stored store)) }
    {
        let before = self.walked(alloc, from.0, labels)?;
        self.brought(alloc, from, &before)
    }

    /// The least store above what all edges to a node bring, each through its run.
    fn gathered(&self, alloc: Global, at: usize, labels: &[Store]) -> Result<Store, AllocError>
        requires { record {
          node : at < length self.now.graph.nodes.items;
          labels : length labels.now ≡ length self.now.graph.nodes.items;
        } }
        ensures least { IfOk result (λ store. IsLeastOf IsBelow (EachBrings (rules_of self.now) (kinds_at self.now) (RunsTo (rules_of self.now) (kinds_at self.now) self.now.runs.kept.items (edges_at self.now) (map stored labels.now)) (edges_at self.now at)) (stored store)) }
    {
        let mut joined = Store::unreachable();
        for from in self.graph.nodes[at].from.as_slice() {
            let brought = self.run_brought(alloc, *from, labels)?;
            joined = joined.join(alloc, &brought)?;
        }
        Ok(joined)
    }

    /// The label of a node, by the store above what its edges bring.
    fn settled(&self, alloc: Global, at: usize, joined: &Store) -> Result<Store, AllocError>
        requires node { at < length self.now.graph.nodes.items }
        ensures settled { IfOk result (λ store. IsSettled (rules_of self.now) (kinds_at self.now at) (stored joined.now) (stored store)) }
    {
        match self.graph.nodes[at].kind {
            NodeKind::Entry => enter(alloc, self.program, self.within),
            NodeKind::Head(_, scope) => joined.round(alloc, &self.marks, scope),
            _ => joined.share(),
        }
    }
}

impl<'a> FlowProblem for Problem<'a> {
    ghost use Rattle.ix_facts.specs.Stores.{Stored, IsBelow};
    ghost use Rattle.ix_store.specs.StoredFacts.{stored};
    ghost use Rattle.ix_labels.specs.Problem.{readers_of, Asks};
    ghost use Rattle.ix_labels.specs.ProblemLaws.{store_order, problem_monotone, problem_depends};

    type Value = Store;

    ghost Meaning = { Stored };

    ghost means = { stored };

    ghost SaysAll = { IsBelow };

    ghost readers_of = { readers_of };

    ghost Asks = { Asks };

    ghost order = { store_order };

    ghost monotone = { problem_monotone };

    ghost depends = { problem_depends };

    fn len(&self) -> usize {
        self.graph.nodes.len()
    }

    fn least(&self) -> Store {
        Store::unreachable()
    }

    fn readers(&self, at: usize) -> &[usize] {
        self.runs.readers[at].as_slice()
    }

    fn visit<L: Ledger>(
        &self,
        alloc: Global,
        at: usize,
        labels: &[Store],
        steps: &mut Steps<L>,
    ) -> Result<Store, AllocError> {
        steps.tick();
        if !self.runs.kept[at] {
            return Ok(Store::unreachable());
        }
        let joined = self.gathered(alloc, at, labels)?;
        self.settled(alloc, at, &joined)
    }
}
