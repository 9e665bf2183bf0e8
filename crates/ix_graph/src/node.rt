//! A flow graph: its nodes, by their numbers from 0, and the edges to each.

use ix_core::{Block, Op, Test};
use ix_text::Span;

/// When control goes along an edge: whenever its node is passed, or where its node's test or slot is true, or false.
#[derive(Clone, Copy)]
pub enum Edge {
    Next,
    WhenTrue,
    WhenFalse,
}

/// What a node stands for. Its label is the store before that.
#[derive(Clone, Copy)]
pub enum NodeKind<'a> {
    /// The entry of the method, node 0.
    Entry,
    Do(&'a Op),
    Compare(&'a Test),
    /// A boolean slot, behind the block that computed it.
    Truth(&'a Block, u32),
    /// A place where ways meet. A `throw` is one that leads nowhere.
    Join,
    /// The head of a loop: its number in the method, and its scope.
    Head(u32, u32),
    /// A `return`: the slot of the value, if there is one, the answer that is written out directly before it, if one is, and the place.
    Return(Option<u32>, Option<bool>, Span),
    /// The end of the body, node 1.
    End,
}

/// A node, with the edges to it, each by the node that it comes from, and with the nodes that its own edges lead to, which read its label.
#[derive(Drop)]
pub struct Node<'a> {
    pub kind: NodeKind<'a>,
    pub from: Vec<(usize, Edge)>,
    pub readers: Vec<usize>,
}

/// The flow graph of a method.
#[derive(Drop)]
pub struct Graph<'a> {
    pub nodes: Vec<Node<'a>>,
}
