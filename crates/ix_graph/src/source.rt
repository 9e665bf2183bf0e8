//! Where control comes from, while a graph is made.

ghost use Rattle.std.specs.Prelude.{◌≡◌};
ghost use Rattle.ix_core.specs.Posts.{answer_of, written_answer};
ghost use Rattle.ix_graph.specs.Graph.{done_at};
ghost use Rattle.ix_graph.specs.Built.{source_of};

use ix_core::{Literal, Op, OpKind};

/// From nowhere, or along an edge that has no target yet: from a node as it is, or through the operation of a node.
#[derive(Clone, Copy)]
pub(crate) enum Source<'a> {
    Unreached,
    Onward(usize),
    Through(usize, &'a Op),
}

/// The boolean literal that an operation writes to a slot.
fn answer_of(kind: &OpKind, slot: u32) -> Option<bool>
    ensures { result ≡ answer_of kind.now slot }
{
    match kind {
        OpKind::Const(target, Literal::Bool(answer)) if *target == slot => Some(*answer),
        _ => None,
    }
}

impl<'a> Source<'a> {
    /// The answer that a `return` of this slot writes out, where control comes to it from here.
    pub fn written_answer(&self, value: Option<u32>) -> Option<bool>
        ensures { result ≡ written_answer (done_at (source_of self.now)) value }
    {
        match (self, value) {
            (Source::Through(_, op), Some(slot)) => answer_of(&op.kind, slot),
            _ => None,
        }
    }
}
