//! What follows from new facts beside closed ones, where nothing follows along arrays of one length.

ghost use Rattle.std.specs.Prelude.{◌≡◌, ◌++◌, [], List, IfOk, OnOk};
ghost use Rattle.ix_core.specs.declared.fact.Fact.{Fact};
ghost use Rattle.ix_facts.specs.declared.kind.Kind.TheVariants as kind;
ghost use Rattle.ix_facts.specs.Exact.{each};
ghost use Rattle.ix_facts.specs.Kinds.{of_kind};
ghost use Rattle.ix_facts.specs.Systems.{HaveClasses};
ghost use Rattle.ix_fact_table.specs.Beside as spec;
ghost use Rattle.ix_fact_table.specs.Beside.{AreBeside, new_class_of};
ghost use Rattle.ix_fact_table.specs.Saturated.{IsSaturated};

use crate::searches::{push_class_of, push_negatives};
use ix_core::{Fact, Path};
use ix_facts::is_same_path;
use std::alloc::{AllocError, Global};

fn is_plain(fact: &Fact) -> bool
    ensures { result ≡ spec.is_plain fact.now }
{
    match *fact {
        Fact::Rng(_, _, _) => true,
        Fact::Low(_, _) => true,
        Fact::Less(_, _, _) => true,
        Fact::Sum(_, _, _) => true,
        Fact::Upper(_, _, _, _) => true,
        _ => false,
    }
}

/// Whether each fact is a range of an int, a class, a difference, a sum or a bound from an array's end: of these nothing follows along arrays of one length.
/// It takes no memory.
pub fn are_plain(facts: &[Fact]) -> bool
    ensures plain { result ≡ spec.are_plain facts.now }
{
    for fact in facts {
        if !is_plain(fact) {
            return false;
        }
    }
    true
}

fn is_range_of(p: &Path, fact: &Fact) -> bool
    ensures { result ≡ spec.is_range_of p.now fact.now }
{
    match *fact {
        Fact::Rng(q, _, _) => is_same_path(&q, p),
        _ => false,
    }
}

fn has_range(facts: &[Fact], p: &Path) -> bool
    ensures { result ≡ spec.has_range facts.now p.now }
{
    for fact in facts {
        if is_range_of(p, fact) {
            return true;
        }
    }
    false
}

fn push_new_class(out: &mut Vec<Fact>, new: &[Fact], fact: &Fact) -> Result<(), AllocError>
    ensures { OnOk result (out.new.items ≡ out.old.items ++ new_class_of new.now fact.now) }
{
    match fact {
        Fact::Rng(p, _, _) if has_range(new, p) => push_class_of(out, fact),
        _ => Ok(()),
    }
}

/// The class of each int of which a new fact is a range, by the low end of all its ranges.
fn push_new_classes(out: &mut Vec<Fact>, new: &[Fact], ranges: &[Fact]) -> Result<(), AllocError>
    ensures { OnOk result (out.new.items ≡ out.old.items ++ each (new_class_of new.now) ranges.now) }
{
    for fact in ranges {
        push_new_class(out, new, fact)?;
    }
    Ok(())
}

/// What follows from closed facts and new plain ones beside both, but for what tables say by themselves: weaker facts, ranges met and other orders. The closed
/// facts are told by the ranges of all, met, and by the answers of searches among them. The only error is want of memory.
pub fn more_beside(
    alloc: Global,
    new: &[Fact],
    ranges: &[Fact],
    searches: &[Fact],
) -> Result<Vec<Fact>, AllocError>
    ensures saturated { IfOk result (λ more. (known : List Fact) → AreBeside known new.now ranges.now searches.now → IsSaturated (known ++ new.now) (known ++ (new.now ++ more.items))) }
    ensures classes { IfOk result (λ more. HaveClasses more.items) }
    ensures ranges { IfOk result (λ more. of_kind kind.Range more.items ≡ []) }
{
    let mut more = Vec::with_capacity(alloc, ranges.len())?;
    push_negatives(&mut more, ranges, searches)
        .and(push_new_classes(&mut more, new, ranges))
        .and(Ok(more))
}
