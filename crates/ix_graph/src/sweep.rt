//! The order in which the labels of a graph can be found, one after another.
//!
//! Kahn's topological order (1962), where a way back to the head of a loop counts as a way to the node behind the loop. So what remains has no circle,
//! and what stands behind a loop stands behind all of its turns. It is an order for speed alone: labels don't depend on it.

use crate::node::{Graph, NodeKind};
use std::alloc::{AllocError, Global};
use std::mem;

/// Nodes that have their places, and the others.
#[derive(Drop)]
struct Order {
    /// Of each node, how many ways to it come from nodes without a place.
    awaited: Vec<usize>,
    /// The nodes without a place to which no such way leads.
    ready: Vec<usize>,
    parts: Vec<Vec<usize>>,
    /// The last part, to which nodes are still added.
    part: Vec<usize>,
    /// The node behind the outermost loop, while its nodes get their places.
    behind: Option<usize>,
}

/// The node behind the loop of a head.
fn behind(head: usize) -> usize {
    head.saturating_add(2)
}

fn is_head<'a>(graph: &Graph<'a>, node: usize) -> bool {
    match graph.nodes.get(node) {
        Some(found) => matches!(found.kind, NodeKind::Head(_, _)),
        None => false,
    }
}

/// The node before which the source of a way has its place: behind the loop, if this is a way back to its head.
fn next<'a>(graph: &Graph<'a>, from: usize, to: usize) -> usize {
    if to < from && is_head(graph, to) {
        behind(to)
    } else {
        to
    }
}

impl Order {
    /// Ends the part to which nodes are added.
    fn end_part(&mut self, alloc: Global) -> Result<(), AllocError> {
        let part = mem::replace(&mut self.part, Vec::new(alloc));
        self.parts.push(part).map_err(AllocError::from)
    }

    /// Counts the ways from a node.
    fn count<'a>(&mut self, graph: &Graph<'a>, node: usize, readers: &[usize]) {
        for reader in readers {
            if let Some(ways) = self.awaited.get_mut(next(graph, node, *reader)) {
                *ways = ways.saturating_add(1);
            }
        }
    }

    /// Gives a node the next place: in a part of its own an outermost loop.
    fn place<'a>(
        &mut self,
        alloc: Global,
        graph: &Graph<'a>,
        node: usize,
    ) -> Result<(), AllocError> {
        let begins = self.behind.is_none() && is_head(graph, node);
        if begins || self.behind == Some(node) {
            self.end_part(alloc)?;
            self.behind = if begins { Some(behind(node)) } else { None };
        }
        self.part.push(node).map_err(AllocError::from)
    }

    /// The ways from a node are no longer awaited.
    fn pass<'a>(
        &mut self,
        graph: &Graph<'a>,
        node: usize,
        readers: &[usize],
    ) -> Result<(), AllocError> {
        for reader in readers {
            let to = next(graph, node, *reader);
            if let Some(ways) = self.awaited.get_mut(to) {
                *ways = ways.saturating_sub(1);
                if *ways == 0 {
                    self.ready.push(to)?;
                }
            }
        }
        Ok(())
    }

    /// Gives each node its place, as soon as no way to it is awaited.
    fn fill<'a>(&mut self, alloc: Global, graph: &Graph<'a>) -> Result<(), AllocError> {
        for node in 0..graph.nodes.len() {
            self.count(graph, node, graph.nodes[node].readers.as_slice());
        }
        for node in 0..graph.nodes.len() {
            if self.awaited.get(node) == Some(&0) {
                self.ready.push(node)?;
            }
        }
        for _ in 0..graph.nodes.len() {
            if let Some(node) = self.ready.pop() {
                self.place(alloc, graph, node)?;
                if let Some(found) = graph.nodes.get(node) {
                    self.pass(graph, node, found.readers.as_slice())?;
                }
            }
        }
        self.end_part(alloc)
    }
}

/// The nodes of a graph in the order in which their labels can be found: each behind those that lead to it, but for the ways back of loops, and what
/// stands behind a loop behind all of its turns. Each outermost loop, with all that is in it, is a part, and so are the nodes before and behind it.
pub fn sweep_parts<'a>(alloc: Global, graph: &Graph<'a>) -> Result<Vec<Vec<usize>>, AllocError> {
    let mut order = Order {
        awaited: vec![in alloc; 0usize; graph.nodes.len()]?,
        ready: Vec::new(alloc),
        parts: Vec::new(alloc),
        part: Vec::new(alloc),
        behind: None,
    };
    order.fill(alloc, graph)?;
    let Order { parts, .. } = order;
    Ok(parts)
}
