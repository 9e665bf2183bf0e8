//! Equal ints are lengths of the same arrays and answers of the same searches.

ghost use Rattle.std.specs.Prelude.{◌≡◌, ◌++◌, OnOk};
ghost use Rattle.ix_facts.specs.Closure.{kept};
ghost use Rattle.ix_facts.specs.Exact.{each};
ghost use Rattle.ix_test_facts.specs.OverGroups.{passed_by};

use ix_core::{Fact, Path};
use ix_facts::is_same_path;
use ix_intervals::push_if;
use std::alloc::AllocError;

fn push_passed_by(
    out: &mut Vec<Fact>,
    from: &Path,
    to: &Path,
    fact: &Fact,
) -> Result<(), AllocError>
    ensures { OnOk result (out.new.items ≡ out.old.items ++ kept (passed_by from.now to.now fact.now)) }
{
    match fact {
        Fact::IsLen(p, a) => push_if(out, is_same_path(p, from), Fact::IsLen(*to, *a)),
        Fact::Search(p, a) => push_if(out, is_same_path(p, from), Fact::Search(*to, *a)),
        Fact::Neg(p, a) => push_if(out, is_same_path(p, from), Fact::Neg(*to, *a)),
        _ => Ok(()),
    }
}

/// What the facts say of the first int that is so of every int equal to it, said of the other.
pub(crate) fn push_passed(
    out: &mut Vec<Fact>,
    from: &Path,
    to: &Path,
    on_from: &[Fact],
) -> Result<(), AllocError>
    ensures { OnOk result (out.new.items ≡ out.old.items ++ kept (each (passed_by from.now to.now) on_from.now)) }
{
    for fact in on_from {
        push_passed_by(out, from, to, fact)?;
    }
    Ok(())
}
