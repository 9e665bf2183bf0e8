//! A set of paths in order.

ghost use Rattle.std.specs.Prelude.{◌≡◌, length, [], ◌∷◌, ◌++◌, List, IsTrue, IfOk, OnOk, OnErr};
ghost use Rattle.std.specs.BTreeSet.{insert_key};
ghost use Rattle.ix_core.specs.declared.fact.Path.{Path};
ghost use Rattle.ix_facts.specs.PathOrder.{path_cmp};
ghost use Rattle.ix_fact_paths.specs.Marks.{AreMarked};
ghost use Rattle.ix_fact_paths.specs.PutLaws.{IsRising};

use crate::by_path::is_before;
use crate::marks::Marks;
use crate::path_order::compare_paths;
use ix_core::Path;
use std::alloc::{AllocError, Global};
use std::marker::Model;

/// Paths in order, each once.
#[derive(Drop)]
pub struct PathSet {
    paths: Vec<Path>,
    /// Of near paths, that they are among them: so that no place is sought for them again.
    marks: Marks,
}

impl Model for PathSet {
    ghost Value = { List Path };

    ghost view = { λ set. set.paths.items };

    ghost invariant = { λ set. IsRising set.paths.items × AreMarked set.marks set.paths.items };
}

/// Whether the path's place is behind all others. Mostly it is, since facts come in the order of their first paths.
fn is_behind(paths: &[Path], p: &Path) -> bool
    requires rising { IsRising paths.now }
    ensures { IsTrue result → insert_key path_cmp paths.now p.now ≡ paths.now ++ p.now ∷ [] }
{
    match paths.last() {
        Some(last) => is_before(last, p),
        None => true,
    }
}

fn push_path(paths: &mut Vec<Path>, p: &Path) -> Result<(), AllocError>
    ensures { record {
      put : OnOk result (paths.new.items ≡ paths.old.items ++ p.now ∷ []);
      unchanged : OnErr result (paths.new.items ≡ paths.old.items);
    } }
{
    if paths.len() >= paths.capacity() {
        paths.reserve(1)?;
    }
    paths.push_reserved(*p);
    Ok(())
}

fn put_path(paths: &mut Vec<Path>, p: &Path) -> Result<(), AllocError>
    requires rising { IsRising paths.old.items }
    ensures put { OnOk result (paths.new.items ≡ insert_key path_cmp paths.old.items p.now) }
    ensures unchanged { OnErr result (paths.new.items ≡ paths.old.items) }
{
    if is_behind(paths, p) {
        return push_path(paths, p);
    }
    match paths.binary_search_by(|path| compare_paths(path, p)) {
        Ok(_) => Ok(()),
        Err(place) => {
            paths.insert(place, *p)?;
            Ok(())
        }
    }
}

impl PathSet {
    /// No paths. It takes no memory.
    pub fn new(alloc: Global) -> PathSet
        ensures { result ≡ [] }
    {
        PathSet {
            paths: Vec::new(alloc),
            marks: Marks::new(alloc),
        }
    }

    /// Paths that are in order, each once. It takes no memory.
    pub(crate) fn of(alloc: Global, paths: Vec<Path>) -> PathSet
        requires rising { IsRising paths.items }
        ensures { result ≡ paths.items }
    {
        PathSet {
            paths,
            marks: Marks::new(alloc),
        }
    }

    /// No paths, with room for so many.
    pub(crate) fn with_room(alloc: Global, room: usize) -> Result<PathSet, AllocError>
        ensures { IfOk result (λ paths. paths ≡ []) }
    {
        let paths = Vec::with_capacity(alloc, room)?;
        Ok(PathSet {
            paths,
            marks: Marks::new(alloc),
        })
    }

    /// Puts the path at its place, unless it is there. The only error is want of memory.
    // Most paths that are put are marked: at the caller that is a look and no call.
    #[inline]
    pub fn put(&mut self, p: Path) -> Result<(), AllocError>
        ensures { OnOk result (self.new ≡ insert_key path_cmp self.old p) }
    {
        if self.is_marked(&p) {
            return Ok(());
        }
        self.put_unmarked(&p)
    }

    /// Puts a copy of the path, which is made only where it isn't marked.
    #[inline]
    pub(crate) fn put_copy(&mut self, p: &Path) -> Result<(), AllocError>
        ensures { OnOk result (self.new ≡ insert_key path_cmp self.old p.now) }
    {
        if self.is_marked(p) {
            return Ok(());
        }
        self.put_unmarked(p)
    }

    /// Whether the path is marked as standing there: then to put it changes nothing. It takes no memory.
    #[inline]
    fn is_marked(&self, p: &Path) -> bool
        ensures { IsTrue result → insert_key path_cmp self.now p.now ≡ self.now }
    {
        self.marks.has(p)
    }

    #[inline(never)]
    fn put_unmarked(&mut self, p: &Path) -> Result<(), AllocError>
        ensures { OnOk result (self.new ≡ insert_key path_cmp self.old p.now) }
    {
        if self.marks.has_far(p) {
            return Ok(());
        }
        put_path(&mut self.paths, p)?;
        self.marks.put(p)
    }

    /// How many paths there are. It takes no memory.
    pub fn len(&self) -> usize
        ensures { result ≡ length self.now }
    {
        self.paths.len()
    }

    /// The paths, in order.
    pub fn into_paths(self) -> Vec<Path>
        ensures { result.items ≡ self }
    {
        self.paths
    }
}
