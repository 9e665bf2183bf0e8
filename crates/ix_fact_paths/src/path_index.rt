//! Facts beside the paths that they name, found by binary search.

ghost use Rattle.std.specs.Prelude.{◌≡◌, length, get_or, List, [], IfOk};
ghost use Rattle.ix_core.specs.declared.fact.Path.{Path};
ghost use Rattle.ix_core.specs.declared.fact.Fact.{Fact};
ghost use Rattle.ix_fact_paths.specs.ByPath.{IsSorted, on_index, on_it};

use crate::by_path::{facts_beside, in_order, paths_and_facts};
use crate::by_slot::{Places, near_place};
use crate::path_facts::PathFacts;
use ix_core::{Fact, Path};
use std::alloc::{AllocError, Global};
use std::marker::Model;

/// Of each path the facts that name it.
#[derive(Drop)]
pub struct PathIndex {
    /// Those that name a near path, by its place.
    near: Vec<PathFacts>,
    /// The other paths that the facts name, in order, each as often as facts name it.
    paths: Vec<Path>,
    /// Beside each path a fact that names it.
    facts: Vec<Fact>,
}

impl Model for PathIndex {
    ghost Value = { List (List Fact) × (List Path × List Fact) };

    ghost view = { λ index. (index.near.items, (index.paths.items, index.facts.items)) };

    ghost invariant = { λ index. IsSorted index.paths.items × (length index.facts.items ≡ length index.paths.items) };
}

/// The facts at the place.
fn at_place(near: &[PathFacts], place: usize) -> &[Fact]
    ensures { result.now ≡ get_or near.now place [] }
{
    match near.get(place) {
        Some(facts) => facts.as_slice(),
        None => &[],
    }
}

impl PathIndex {
    /// Of each path those of the facts that name it, in time near linear in their number. The only error is want of memory.
    pub fn of(alloc: Global, facts: &[Fact]) -> Result<PathIndex, AllocError>
        ensures { IfOk result (λ index. (p : Path) → on_index index p ≡ on_it p facts.now) }
    {
        let places = Places::of(alloc, facts)?;
        let others = in_order(places.others)?;
        let (paths, facts) = paths_and_facts(alloc, &others)?;
        Ok(PathIndex {
            near: places.near,
            paths,
            facts,
        })
    }

    /// The facts that name the path. It takes no memory.
    #[inline(never)]
    pub fn on(&self, p: &Path) -> &[Fact]
        ensures { result.now ≡ on_index self.now p.now }
    {
        match near_place(p) {
            Some(place) => at_place(&self.near, place),
            None => facts_beside(&self.paths, &self.facts, p),
        }
    }
}
