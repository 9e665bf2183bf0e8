//! The labels of a method that are kept.

ghost use Rattle.std.specs.Prelude.{◌≡◌, length};

use crate::problem::Problem;
use ix_store::Store;

/// The labels of a method that are kept, and what the others are made of.
#[derive(Drop)]
pub struct RunLabels<'a> {
    pub(crate) problem: Problem<'a>,
    pub(crate) stores: Vec<Store>,
    ghost all: { length stores.items ≡ length problem.graph.nodes.items },
}
