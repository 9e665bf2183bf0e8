//! The ranges that `p < q + k` gives: what is below p is below q's limit, and what q is below is above p's lower bound.

ghost use Rattle.std.specs.Prelude.{◌≡◌, ◌++◌, ◌∷◌, [], pos, ◌+ℤ◌, ◌-ℤ◌, OnOk};
ghost use Rattle.ix_core.specs.declared.fact.Fact.TheVariants.{Rng};
ghost use Rattle.ix_facts.specs.Closure.{kept};
ghost use Rattle.ix_facts.specs.Exact.{if_so, each};
ghost use Rattle.ix_facts.specs.Bounds.{is_path};
ghost use Rattle.ix_facts.specs.Small.{IsBound};
ghost use Rattle.ix_facts.specs.AfterTest.{below_by, above_by};
ghost use Rattle.ix_test_facts.specs.OverGroups.{range_to, range_from};

use crate::bounds::apart;
use ix_core::{Fact, Path};
use ix_facts::is_same_path;
use ix_intervals::push_if;
use std::alloc::AllocError;

/// What is below `p + c` is at most this, where `p < q + k` and q is at most the limit.
fn greatest_below(limit: &i64, k: &i32, c: &i32) -> i64
    requires limit { IsBound limit.now }
    ensures value { result ≡ limit.now +ℤ k.now +ℤ c.now -ℤ pos 2 }
{
    *limit + apart(k, c)
}

/// What q is below with the constant d is at least this, where `p < q + k` and p is at least the bound.
fn least_above(bound: &i64, k: &i32, d: &i32) -> i64
    requires bound { IsBound bound.now }
    ensures value { result ≡ bound.now -ℤ k.now -ℤ d.now +ℤ pos 2 }
{
    *bound - apart(k, d)
}

fn push_range_to_by(
    out: &mut Vec<Fact>,
    limit: &i64,
    k: &i32,
    p: &Path,
    fact: &Fact,
) -> Result<(), AllocError>
    requires limit { IsBound limit.now }
    ensures { OnOk result (out.new.items ≡ out.old.items ++ kept (below_by (range_to limit.now k.now) p.now fact.now)) }
{
    match fact {
        Fact::Less(r, x, c) => {
            let range = Fact::Rng(*r, -2147483648, greatest_below(limit, k, c));
            push_if(out, is_same_path(x, p), range)
        }
        _ => Ok(()),
    }
}

/// Of what is below p, p being one of these, what it is at most.
pub(crate) fn push_ranges_to(
    out: &mut Vec<Fact>,
    limit: &i64,
    k: &i32,
    p: &Path,
    below: &[Fact],
) -> Result<(), AllocError>
    requires limit { IsBound limit.now }
    ensures { OnOk result (out.new.items ≡ out.old.items ++ kept (each (below_by (range_to limit.now k.now) p.now) below.now)) }
{
    for fact in below {
        push_range_to_by(out, limit, k, p, fact)?;
    }
    Ok(())
}

fn push_range_from_by(
    out: &mut Vec<Fact>,
    bound: &i64,
    k: &i32,
    q: &Path,
    fact: &Fact,
) -> Result<(), AllocError>
    requires bound { IsBound bound.now }
    ensures { OnOk result (out.new.items ≡ out.old.items ++ kept (above_by (range_from bound.now k.now) q.now fact.now)) }
{
    match fact {
        Fact::Less(x, s, d) => {
            let range = Fact::Rng(*s, least_above(bound, k, d), 2147483647);
            push_if(out, is_same_path(x, q), range)
        }
        _ => Ok(()),
    }
}

/// Of what q is below, q being one of these, what it is at least.
pub(crate) fn push_ranges_from(
    out: &mut Vec<Fact>,
    bound: &i64,
    k: &i32,
    q: &Path,
    above: &[Fact],
) -> Result<(), AllocError>
    requires bound { IsBound bound.now }
    ensures { OnOk result (out.new.items ≡ out.old.items ++ kept (each (above_by (range_from bound.now k.now) q.now) above.now)) }
{
    for fact in above {
        push_range_from_by(out, bound, k, q, fact)?;
    }
    Ok(())
}
