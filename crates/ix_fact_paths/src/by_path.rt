//! Facts by the paths that they name, found by binary search.

ghost use Rattle.std.specs.Prelude.{◌≡◌, length, IfOk};
ghost use Rattle.std.specs.List.Sorted.{IsSortedByKey};
ghost use Rattle.std.specs.Ordering.{is_lt};
ghost use Rattle.ix_core.specs.declared.fact.Path.{Path};
ghost use Rattle.ix_facts.specs.PathOrder.{path_cmp};
ghost use Rattle.ix_fact_paths.specs.ByPath.{about, paths_in, facts_in, beside, IsSorted};

use crate::path_order::{compare_paths, path_order_laws};
use ix_core::{Fact, Path};
use ix_facts::is_same_path;
use std::alloc::{AllocError, Global};
use std::cmp::Ordering;

/// The entries in the order of their paths; those of one path stay as they stood.
pub(crate) fn in_order(entries: Vec<(Path, Fact)>) -> Result<Vec<(Path, Fact)>, AllocError>
    ensures about { IfOk result (λ sorted. (p : Path) → about p sorted.items ≡ about p entries.items) }
    ensures sorted { IfOk result (λ sorted. IsSortedByKey (λ entry. entry.0) path_cmp sorted.items) }
{
    path_order_laws();
    let mut sorted = entries;
    sorted.sort_by_key(|entry| entry.0)?;
    Ok(sorted)
}

/// The paths of the entries, and the facts.
pub(crate) fn paths_and_facts(
    alloc: Global,
    entries: &[(Path, Fact)],
) -> Result<(Vec<Path>, Vec<Fact>), AllocError>
    ensures { record {
      paths : IfOk result (λ both. both.0.items ≡ paths_in entries.now);
      facts : IfOk result (λ both. both.1.items ≡ facts_in entries.now);
    } }
{
    let mut paths = Vec::with_capacity(alloc, entries.len())?;
    let mut facts = Vec::with_capacity(alloc, entries.len())?;
    for entry in entries {
        paths.push_reserved(entry.0);
        facts.push_reserved(entry.1);
    }
    Ok((paths, facts))
}

/// Whether the first path comes before the second in the order of paths.
#[inline]
pub(crate) fn is_before(path: &Path, p: &Path) -> bool
    ensures { result ≡ is_lt (path_cmp path.now p.now) }
{
    match compare_paths(path, p) {
        Ordering::Less => true,
        Ordering::Equal => false,
        Ordering::Greater => false,
    }
}

/// The facts that stand beside the path, where paths are in order.
// Apart from the look at a near path's place, which so saves no registers.
#[inline(never)]
pub(crate) fn facts_beside<'a>(paths: &[Path], facts: &'a [Fact], p: &Path) -> &'a [Fact]
    requires sorted { IsSorted paths.now }
    requires lengths { length facts.now ≡ length paths.now }
    ensures { result.now ≡ beside p.now paths.now facts.now }
{
    let start = paths.partition_point(|path| is_before(path, p));
    let (_, rest) = paths.split_at(start);
    let count = rest.partition_point(|path| is_same_path(p, path));
    let (_, beside_rest) = facts.split_at(start);
    let (found, _) = beside_rest.split_at(count);
    found
}
