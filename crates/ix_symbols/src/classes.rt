//! Classes by their names, and their superclasses.

ghost use Rattle.std.specs.Prelude.{◌≡◌, ◌∷◌, ◌<◌, ◌^◌, length, IfOk, OnOk, ℕ, List as Elements};
ghost use Rattle.std.specs.List.{AllZip};
ghost use Rattle.std.specs.HashMap.{get_by_text};
ghost use Rattle.ix_meaning.specs.Classes as spec;

use indexmap::IndexMap;
use ix_text::List;
use ix_tree::{ClassDecl, Ident};
use std::alloc::{AllocError, Global};

/// The classes by their names.
pub type ClassTable = IndexMap<String, u32>;

/// Notes that the name means that number, unless it means one already.
pub fn note_first(
    alloc: Global,
    classes: &mut IndexMap<String, u32>,
    name: &str,
    number: u32,
) -> Result<(), AllocError>
    ensures { OnOk result ((n : Elements ℕ) → get_by_text classes.new n ≡ spec.first_or (get_by_text classes.old n) n name.now number) }
{
    if classes.get(name).is_some() {
        return Ok(());
    }
    let key = String::from_str(alloc, name)?;
    classes.insert(key, number)?;
    Ok(())
}

fn noted_classes(alloc: Global, classes: &[ClassDecl]) -> Result<IndexMap<String, u32>, AllocError>
    requires { length classes.now < 2 ^ 32 }
    ensures { IfOk result (λ table. (n : Elements ℕ) → get_by_text table n ≡ spec.class_named classes.now n) }
{
    let mut table = IndexMap::new(alloc);
    for (i, class) in classes.iter().enumerate() {
        note_first(alloc, &mut table, class.name.text.as_str(), i as u32)?;
    }
    Ok(table)
}

/// The class that each name means.
pub fn class_table(
    alloc: Global,
    classes: &[ClassDecl],
) -> Result<IndexMap<String, u32>, AllocError>
    requires { length classes.now < 2 ^ 32 }
    ensures { IfOk result (λ table. get_by_text table ≡ spec.class_named classes.now) }
{
    noted_classes(alloc, classes)
}

fn parent_named(table: &IndexMap<String, u32>, parent: &Option<Ident>) -> Option<u32>
    ensures { result ≡ spec.parent_in_table (get_by_text table.now) parent.now }
{
    match parent {
        None => None,
        Some(name) => table.get(name.text.as_str()).copied(),
    }
}

/// Of each class the class that it extends.
pub fn parents(
    alloc: Global,
    table: &IndexMap<String, u32>,
    classes: &[ClassDecl],
) -> Result<List<Option<u32>>, AllocError>
    ensures { IfOk result (λ parents. parents ≡ spec.parents_by (get_by_text table.now) classes.now) }
{
    let mut parents = List::new(alloc);
    for class in classes {
        parents.push(parent_named(table, &class.parent))?;
    }
    Ok(parents)
}

/// The class that a class extends.
pub fn parent(parents: &[Option<u32>], class: u32) -> Option<u32>
    ensures { result ≡ spec.parent parents.now class }
{
    match parents.get(class as usize) {
        None => None,
        Some(parent) => *parent,
    }
}

/// RULE cyclic.class: a class is its own superclass.
#[tactic(auto, using(crate::proofs::Climbing::cyclic_none, crate::proofs::Climbing::cyclic_found, crate::proofs::Climbing::cyclic_on))]
pub fn is_cyclic(parents: &[Option<u32>], class: u32) -> bool
    ensures { result ≡ spec.is_cyclic parents.now class }
{
    let mut here = class;
    for turn in parents {
        match parent(parents, here) {
            None => return false,
            Some(next) => {
                if next == class {
                    return true;
                }
                here = next;
            }
        }
    }
    false
}

pub fn is_among(class: u32, classes: &[u32]) -> bool
    ensures { result ≡ spec.is_among class classes.now }
{
    for other in classes {
        if *other == class {
            return true;
        }
    }
    false
}

fn is_seen(class: u32, first: u32, others: &[u32]) -> bool
    ensures { result ≡ spec.is_among class (first ∷ others.now) }
{
    first == class || is_among(class, others)
}

/// The superclasses of a class, the direct one first, without the class itself.
#[tactic(auto, using(crate::proofs::Climbing::unseen_none, crate::proofs::Climbing::unseen_stop, crate::proofs::Climbing::unseen_on))]
pub fn supers(alloc: Global, parents: &[Option<u32>], class: u32) -> Result<List<u32>, AllocError>
    ensures { IfOk result (λ supers. supers ≡ spec.supers parents.now class) }
{
    let mut supers = List::new(alloc);
    let mut here = class;
    for turn in parents {
        match parent(parents, here) {
            None => return Ok(supers),
            Some(next) => {
                if is_seen(next, class, supers.as_slice()) {
                    return Ok(supers);
                }
                supers.push(next)?;
                here = next;
            }
        }
    }
    Ok(supers)
}
