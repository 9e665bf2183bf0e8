//! The facts that name one path, in the order in which they were put.

ghost use Rattle.std.specs.Prelude.{◌≡◌, List, [], ◌∷◌, ◌++◌, OnOk};
ghost use Rattle.ix_core.specs.declared.fact.Fact.{Fact};

use ix_core::Fact;
use std::alloc::{AllocError, Global};
use std::marker::Model;

/// For how many facts room is asked at once: mostly no more are put.
const ROOM: usize = 16;

#[derive(Drop)]
pub(crate) struct PathFacts {
    facts: Vec<Fact>,
}

impl Model for PathFacts {
    ghost Value = { List Fact };

    ghost view = { λ of. of.facts.items };
}

impl PathFacts {
    /// No facts. It takes no memory.
    pub(crate) fn new(alloc: Global) -> PathFacts
        ensures { result ≡ [] }
    {
        PathFacts {
            facts: Vec::new(alloc),
        }
    }

    /// Puts the fact behind the others.
    #[inline]
    pub(crate) fn push(&mut self, fact: Fact) -> Result<(), AllocError>
        ensures { OnOk result (self.new ≡ self.old ++ fact ∷ []) }
    {
        if self.facts.len() >= self.facts.capacity() {
            self.facts.reserve(ROOM)?;
        }
        self.facts.push_reserved(fact);
        Ok(())
    }

    pub(crate) fn as_slice(&self) -> &[Fact]
        ensures { result.now ≡ self.now }
    {
        self.facts.as_slice()
    }
}
