//! The facts on each path: of few facts all, of many those that name it.

ghost use Rattle.std.specs.Prelude.{◌≡◌, IfOk};
ghost use Rattle.ix_core.specs.declared.fact.Path.{Path};
ghost use Rattle.ix_fact_paths.specs.Grouped.{on_grouped, on_list};

use crate::path_index::PathIndex;
use ix_core::{Fact, Path};
use std::alloc::{AllocError, Global};

/// Up to how many facts are few: to go over them costs less than an index of them.
const FEW: usize = 8;

/// Facts with those on each path at hand.
pub enum Grouped {
    /// Few facts: all are on each path.
    Few(Vec<Fact>),
    /// Many facts, by the paths that they name.
    ByPath(PathIndex),
}

impl Drop for Grouped {
    fn drop(self) {
        match self {
            Grouped::Few(facts) => drop(facts),
            Grouped::ByPath(index) => drop(index),
        }
    }
}

impl Grouped {
    /// The facts, of which many are put by the paths that they name, in time near linear in their number. The only error is want of memory.
    pub fn of(alloc: Global, facts: Vec<Fact>) -> Result<Grouped, AllocError>
        ensures { IfOk result (λ grouped. (p : Path) → on_grouped grouped p ≡ on_list facts.items p) }
    {
        if facts.len() <= FEW {
            return Ok(Grouped::Few(facts));
        }
        let index = PathIndex::of(alloc, &facts)?;
        Ok(Grouped::ByPath(index))
    }

    /// The facts on the path: all that name it, and of few facts all others too. It takes no memory.
    // Facts are few mostly: at the caller that is a look and no call.
    #[inline]
    pub fn on(&self, p: &Path) -> &[Fact]
        ensures { result.now ≡ on_grouped self.now p.now }
    {
        match self {
            Grouped::Few(facts) => facts,
            Grouped::ByPath(index) => index.on(p),
        }
    }
}
