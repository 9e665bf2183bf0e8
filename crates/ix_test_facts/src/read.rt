//! The facts that are read where `p < q + k` is told: all others on p and on q give nothing. They are gathered once, since what is below p meets all that q is below
//! and all bounds of q, and the facts on a path may be all facts there are.

ghost use Rattle.std.specs.Prelude.{◌≡◌, filter, IfOk};
ghost use Rattle.ix_test_facts.specs.OverGroups as over;

use ix_core::{Fact, Path};
use ix_facts::is_same_path;
use ix_intervals::push_if;
use std::alloc::{AllocError, Global};

fn is_read_below(p: &Path, fact: &Fact) -> bool
    ensures { result ≡ over.is_read_below p.now fact.now }
{
    match fact {
        Fact::Less(_, x, _) => is_same_path(x, p),
        Fact::Rng(x, _, _) => is_same_path(x, p),
        Fact::IsLen(x, _) => is_same_path(x, p),
        Fact::Sum(x, _, _) => is_same_path(x, p),
        _ => false,
    }
}

fn is_read_above(q: &Path, fact: &Fact) -> bool
    ensures { result ≡ over.is_read_above q.now fact.now }
{
    match fact {
        Fact::Less(x, _, _) => is_same_path(x, q),
        Fact::Rng(x, _, _) => is_same_path(x, q),
        Fact::IsLen(x, _) => is_same_path(x, q),
        Fact::Upper(x, _, _, _) => is_same_path(x, q),
        _ => false,
    }
}

/// For how many facts there is room from the start. It is for speed alone.
const ROOM: usize = 16;

/// Those on p.
pub(crate) fn read_below(alloc: Global, p: &Path, on_p: &[Fact]) -> Result<Vec<Fact>, AllocError>
    ensures { IfOk result (λ read. read.items ≡ filter (over.is_read_below p.now) on_p.now) }
{
    let mut read = Vec::with_capacity(alloc, ROOM)?;
    for fact in on_p {
        push_if(&mut read, is_read_below(p, fact), *fact)?;
    }
    Ok(read)
}

/// Those on q.
pub(crate) fn read_above(alloc: Global, q: &Path, on_q: &[Fact]) -> Result<Vec<Fact>, AllocError>
    ensures { IfOk result (λ read. read.items ≡ filter (over.is_read_above q.now) on_q.now) }
{
    let mut read = Vec::with_capacity(alloc, ROOM)?;
    for fact in on_q {
        push_if(&mut read, is_read_above(q, fact), *fact)?;
    }
    Ok(read)
}
