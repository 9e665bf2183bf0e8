//! Classes of arrays that have the same length.

ghost use Rattle.std.specs.Prelude.{◌≡◌, ◌<◌, cond, [], List, IfOk, OnOk, Some, length};
ghost use Rattle.ix_core.specs.declared.fact.Path.{Path};
ghost use Rattle.ix_core.specs.declared.fact.Fact.{Fact};
ghost use Rattle.ix_core.specs.declared.fact.Fact.TheVariants.{Same, IsLen};
ghost use Rattle.ix_facts.specs.Facts.{IsIn};
ghost use Rattle.ix_facts.specs.Closure.{Follows};
ghost use Rattle.ix_fact_table.specs.Classes.{Roots, root_of, replaced, relabelled, AreRoots, AreSound, AreClasses, Coarser};

use crate::links::length_links;
use ix_core::{Fact, Path};
use ix_fact_paths::path_order_laws;
use ix_facts::is_same_path;
use std::alloc::{AllocError, Global};
use std::marker::Model;

/// Classes of arrays, each by one of its arrays, which stands for it. An array that is not listed is a class of its own.
#[derive(Drop)]
pub(crate) struct Classes {
    roots: Vec<(Path, Path)>,
}

impl Model for Classes {
    ghost Value = { List (Path × Path) };

    ghost view = { λ classes. classes.roots.items };
}

fn found(roots: &[(Path, Path)], a: &Path) -> Path
    ensures { result ≡ root_of roots.now a.now }
{
    for entry in roots {
        if is_same_path(&entry.0, a) {
            return entry.1;
        }
    }
    *a
}

fn in_place(old: &Path, new: &Path, a: &Path) -> Path
    ensures { result ≡ replaced old.now new.now a.now }
{
    if is_same_path(old, a) { *new } else { *a }
}

/// Puts one array into another's place.
fn relabel(
    roots: &[(Path, Path)],
    alloc: Global,
    old: &Path,
    new: &Path,
) -> Result<Vec<(Path, Path)>, AllocError>
    ensures { IfOk result (λ moved. moved.items ≡ relabelled old.now new.now roots.now) }
{
    let mut moved = Vec::new(alloc);
    for entry in roots {
        moved.push((entry.0, in_place(old, new, &entry.1)))?;
    }
    moved
        .push((*old, *new))
        .map_err(AllocError::from)
        .and(Ok(moved))
}

/// The classes with those of two arrays made one.
fn joined(
    alloc: Global,
    roots: Vec<(Path, Path)>,
    a: &Path,
    b: &Path,
) -> Result<Vec<(Path, Path)>, AllocError>
    requires roots { AreRoots roots.items }
    ensures roots { IfOk result (λ next. AreRoots next.items) }
    ensures joined { IfOk result (λ next. (x : Path) → root_of next.items x ≡ replaced (root_of roots.items b.now) (root_of roots.items a.now) (root_of roots.items x)) }
{
    path_order_laws();
    let new = found(&roots, a);
    let old = found(&roots, b);
    if is_same_path(&old, &new) {
        return Ok(roots);
    }
    relabel(&roots, alloc, &old, &new)
}

/// The classes by one more fact that two arrays have the same length.
fn with_same(
    alloc: Global,
    roots: Vec<(Path, Path)>,
    fact: &Fact,
) -> Result<Vec<(Path, Path)>, AllocError>
    requires roots { AreRoots roots.items }
    ensures roots { IfOk result (λ next. AreRoots next.items) }
    ensures coarser { IfOk result (λ next. Coarser roots.items next.items) }
    ensures sound { IfOk result (λ next. (facts : List Fact) → Follows facts fact.now → AreSound facts roots.items → AreSound facts next.items) }
    ensures same { IfOk result (λ next. (a b : Path) → fact.now ≡ Same a b → root_of next.items a ≡ root_of next.items b) }
{
    path_order_laws();
    match *fact {
        Fact::Same(a, b) => joined(alloc, roots, &a, &b),
        _ => Ok(roots),
    }
}

/// The classes by more facts that two arrays have the same length.
fn by_same(
    alloc: Global,
    first: Vec<(Path, Path)>,
    links: &[Fact],
) -> Result<Vec<(Path, Path)>, AllocError>
    requires roots { AreRoots first.items }
    ensures { record {
      roots : IfOk result (λ roots. AreRoots roots.items);
      coarser : IfOk result (λ roots. Coarser first.items roots.items);
      sound : IfOk result (λ roots. (facts : List Fact) → ((f : Fact) → IsIn f links.now → Follows facts f) → AreSound facts first.items → AreSound facts roots.items);
      same : IfOk result (λ roots. (a b : Path) → IsIn (Same a b) links.now → root_of roots.items a ≡ root_of roots.items b);
    } }
{
    let mut roots = first;
    for link in links {
        roots = with_same(alloc, roots, link)?;
    }
    Ok(roots)
}

/// The classes of the arrays of which the facts say that they have the same length, by what they say of two arrays and of ints that are lengths.
pub(crate) fn same_classes(alloc: Global, facts: &[Fact]) -> Result<Classes, AllocError>
    ensures classes { IfOk result (λ classes. AreClasses facts.now classes) }
{
    path_order_laws();
    let told = by_same(alloc, Vec::new(alloc), facts)?;
    let roots = by_same(alloc, told, &length_links(alloc, facts)?)?;
    Ok(Classes { roots })
}

impl Classes {
    /// The array that stands for the class of the array.
    pub(crate) fn root(&self, a: &Path) -> Path
        ensures { result ≡ root_of self.now a.now }
    {
        found(&self.roots, a)
    }
}
