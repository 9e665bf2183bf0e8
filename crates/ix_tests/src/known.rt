//! What is known, within the bounds that the calls ask for.

ghost use Rattle.std.specs.Prelude.{◌≡◌, All, IfOk, IsTrue, ◌++◌};
ghost use Rattle.ix_facts.specs.Closure.{SaysAll};
ghost use Rattle.ix_facts.specs.Forget.{of_path, without};
ghost use Rattle.ix_facts.specs.After.{of_target};
ghost use Rattle.ix_facts.specs.Small.{HasSmallNumbers};
ghost use Rattle.ix_facts.specs.Round.{Rises};

use ix_core::{Fact, OpKind, Path};
use ix_fact_list::FactList;
use ix_fact_rows::is_small;
use ix_facts::Landmarks;
use ix_text::List;
use std::alloc::{AllocError, Global};
use std::process::Abort;

/// Whether all numbers of the facts are small.
pub fn are_small(facts: &[Fact]) -> bool
    ensures { IsTrue result → All HasSmallNumbers facts.now }
{
    for fact in facts {
        if !is_small(fact) {
            return false;
        }
    }
    true
}

fn all_facts(alloc: Global, own: &[Fact], others: &[Fact]) -> Result<Vec<Fact>, AllocError>
    ensures { IfOk result (λ facts. facts.items ≡ own.now ++ others.now) }
{
    let mut facts = Vec::new(alloc);
    facts
        .extend_from_slice(own)
        .and(facts.extend_from_slice(others))
        .and(Ok(facts))
}

/// A table's facts and others, as what is known. Their numbers have to be small.
pub fn told<R: Abort>(
    rt: &R,
    alloc: Global,
    own: &[Fact],
    others: &[Fact],
) -> Result<FactList, AllocError>
    ensures facts { IfOk result (λ list. list ≡ own.now ++ others.now) }
{
    let facts = all_facts(alloc, own, others)?;
    assert!(rt; are_small(&facts), "a number is too large");
    FactList::new(alloc, facts)
}

/// What is known beside the target of an operation: what a table says, and others.
pub fn known_beside_target<R: Abort>(
    rt: &R,
    alloc: Global,
    own: &[Fact],
    others: &[Fact],
    kind: &OpKind,
) -> Result<FactList, AllocError>
    ensures { record {
      known : IfOk result (λ know. SaysAll know (without (of_target kind.now) own.now));
      beside : IfOk result (λ know. without (of_target kind.now) know ≡ know);
    } }
{
    let list = told(rt, alloc, own, others)?;
    let know = FactList::beside_target(alloc, &list, kind)?;
    Ok(know)
}

/// The same beside the path that a copy is made to.
pub fn known_beside_path<R: Abort>(
    rt: &R,
    alloc: Global,
    own: &[Fact],
    others: &[Fact],
    path: &Path,
) -> Result<FactList, AllocError>
    ensures { record {
      known : IfOk result (λ know. SaysAll know (without (of_path path.now) own.now));
      beside : IfOk result (λ know. without (of_path path.now) know ≡ know);
    } }
{
    let list = told(rt, alloc, own, others)?;
    let know = FactList::beside_path(alloc, &list, path)?;
    Ok(know)
}

/// Four landmarks, which have to rise.
pub fn landmarks<R: Abort>(
    rt: &R,
    alloc: Global,
    first: i32,
    second: i32,
    third: i32,
    fourth: i32,
) -> Landmarks
    ensures { Rises result.ints }
{
    assert!(rt;
        first < second && second < third && third < fourth,
        "landmarks don't rise"
    );
    let mut ints = List::new(alloc);
    ints.push(first).expect(rt, "memory");
    ints.push(second).expect(rt, "memory");
    ints.push(third).expect(rt, "memory");
    ints.push(fourth).expect(rt, "memory");
    Landmarks { ints }
}
