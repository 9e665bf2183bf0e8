//! What follows from facts beside themselves, as a list.

ghost use Rattle.std.specs.Prelude.{◌≡◌, ◌++◌, IfOk, OnOk};
ghost use Rattle.ix_facts.specs.Systems.{HaveClasses};
ghost use Rattle.ix_fact_table.specs.Listed.{labels_of};
ghost use Rattle.ix_fact_table.specs.Saturated as spec;
ghost use Rattle.ix_fact_table.specs.Saturated.{IsSaturated};

use crate::classes::{Classes, same_classes};
use crate::fact_table::FactTable;
use crate::labels::{labelled, push_along, push_pairs};
use crate::listed::listed_arrays;
use crate::searches::{push_classes, push_negatives, push_searches};
use ix_core::{Fact, Path};
use ix_facts::Kind;
use std::alloc::{AllocError, Global};

fn copied(alloc: Global, facts: &[Fact]) -> Result<Vec<Fact>, AllocError>
    ensures { IfOk result (λ more. more.items ≡ facts.now) }
{
    let mut more = Vec::new(alloc);
    more.extend_from_slice(facts).and(Ok(more))
}

/// What the facts say along arrays of one length.
fn alike(
    alloc: Global,
    facts: &[Fact],
    classes: &Classes,
    arrays: &[Path],
) -> Result<Vec<Fact>, AllocError>
    ensures { IfOk result (λ more. facts.now ++ more.items ≡ spec.alike facts.now classes.now arrays.now) }
{
    let labels = labelled(alloc, classes, arrays)?;
    let mut more = Vec::new(alloc);
    push_pairs(&mut more, classes, arrays, &labels, arrays)
        .and(push_along(&mut more, classes, arrays, &labels, facts))
        .and(Ok(more))
}

/// The same with the answers of searches, which the facts tell too.
fn searched(
    alloc: Global,
    facts: &[Fact],
    classes: &Classes,
    arrays: &[Path],
) -> Result<Vec<Fact>, AllocError>
    ensures { IfOk result (λ more. facts.now ++ more.items ≡ spec.searched facts.now classes.now arrays.now) }
{
    let alike = alike(alloc, facts, classes, arrays)?;
    let mut more = copied(alloc, &alike)?;
    push_searches(&mut more, facts)
        .and(push_searches(&mut more, &alike))
        .and(Ok(more))
}

fn all_more(
    alloc: Global,
    facts: &[Fact],
    classes: &Classes,
    arrays: &[Path],
    ranges: &[Fact],
) -> Result<Vec<Fact>, AllocError>
    ensures { IfOk result (λ more. facts.now ++ more.items ≡ spec.saturated facts.now classes.now arrays.now ranges.now) }
{
    let searched = searched(alloc, facts, classes, arrays)?;
    let mut more = copied(alloc, &searched)?;
    push_negatives(&mut more, ranges, facts)
        .and(push_negatives(&mut more, ranges, &searched))
        .and(push_classes(&mut more, ranges))
        .and(Ok(more))
}

/// What follows from the facts beside themselves, but for what tables say by themselves: weaker facts, ranges met and other orders. The only error is want
/// of memory.
pub fn more_that_follows(alloc: Global, facts: &[Fact]) -> Result<Vec<Fact>, AllocError>
    requires classes { HaveClasses facts.now }
    ensures saturated { IfOk result (λ more. IsSaturated facts.now (facts.now ++ more.items)) }
    ensures classes { IfOk result (λ more. HaveClasses more.items) }
{
    let classes = same_classes(alloc, facts)?;
    let arrays = listed_arrays(alloc, facts)?;
    let ranges = FactTable::of_facts(alloc, Kind::Range, facts)?;
    all_more(alloc, facts, &classes, &arrays, ranges.as_slice())
}
