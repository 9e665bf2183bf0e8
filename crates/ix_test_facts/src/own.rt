//! An int among those below it and among those above it, in the order of paths: so that new differences come in the order in which a table keeps them, and no place is sought
//! for each.

ghost use Rattle.std.specs.Prelude.{◌≡◌, ◌≤◌, ◌++◌, ◌∷◌, length, take, drop, IfOk};
ghost use Rattle.std.specs.Ordering.{is_gt};
ghost use Rattle.ix_core.specs.declared.fact.Fact.{Fact};
ghost use Rattle.ix_facts.specs.PathOrder.{path_cmp};
ghost use Rattle.ix_test_facts.specs.OverGroups as over;

use ix_core::{Fact, Path};
use std::alloc::{AllocError, Global};
use std::cmp::Ordering;

/// Whether the first path comes after the second in the order of paths.
fn is_after(p: &Path, q: &Path) -> bool
    ensures { result ≡ is_gt (path_cmp p.now q.now) }
{
    match p.cmp(q) {
        Ordering::Greater => true,
        _ => false,
    }
}

fn is_of_greater(p: &Path, fact: &Fact) -> bool
    ensures { result ≡ over.is_of_greater p.now fact.now }
{
    match fact {
        Fact::Less(r, _, _) => is_after(r, p),
        _ => false,
    }
}

fn is_to_greater(q: &Path, fact: &Fact) -> bool
    ensures { result ≡ over.is_to_greater q.now fact.now }
{
    match fact {
        Fact::Less(_, s, _) => is_after(s, q),
        _ => false,
    }
}

/// How many facts stand before the first difference of a path behind p.
fn before_greater(p: &Path, on_p: &[Fact]) -> usize
    ensures { record {
      within : result ≤ length on_p.now;
      own : (own : Fact) → over.put_before (over.is_of_greater p.now) own on_p.now ≡ take result on_p.now ++ own ∷ drop result on_p.now;
    } }
{
    let mut count = 0;
    for fact in on_p {
        if is_of_greater(p, fact) {
            return count;
        }
        count += 1;
    }
    count
}

/// How many facts stand before the first difference to a path behind q.
fn before_to_greater(q: &Path, on_q: &[Fact]) -> usize
    ensures { record {
      within : result ≤ length on_q.now;
      own : (own : Fact) → over.put_before (over.is_to_greater q.now) own on_q.now ≡ take result on_q.now ++ own ∷ drop result on_q.now;
    } }
{
    let mut count = 0;
    for fact in on_q {
        if is_to_greater(q, fact) {
            return count;
        }
        count += 1;
    }
    count
}

/// The facts, and one more behind so many of them.
fn with_own(alloc: Global, own: Fact, facts: &[Fact], count: usize) -> Result<Vec<Fact>, AllocError>
    requires within { count ≤ length facts.now }
    ensures { IfOk result (λ all. all.items ≡ take count facts.now ++ own ∷ drop count facts.now) }
{
    let (lesser, rest) = facts.split_at(count);
    let mut all = Vec::with_capacity(alloc, facts.len().saturating_add(1))?;
    all.extend_from_slice(lesser)
        .and(all.push(own).map_err(AllocError::from))
        .and(all.extend_from_slice(rest))
        .and(Ok(all))
}

/// The facts on p, and that p is below p + 1.
pub(crate) fn with_own_below(
    alloc: Global,
    p: &Path,
    on_p: &[Fact],
) -> Result<Vec<Fact>, AllocError>
    ensures { IfOk result (λ all. all.items ≡ over.with_own_below p.now on_p.now) }
{
    with_own(alloc, Fact::Less(*p, *p, 1), on_p, before_greater(p, on_p))
}

/// The facts on q, and that q is below q + 1.
pub(crate) fn with_own_above(
    alloc: Global,
    q: &Path,
    on_q: &[Fact],
) -> Result<Vec<Fact>, AllocError>
    ensures { IfOk result (λ all. all.items ≡ over.with_own_above q.now on_q.now) }
{
    with_own(
        alloc,
        Fact::Less(*q, *q, 1),
        on_q,
        before_to_greater(q, on_q),
    )
}
