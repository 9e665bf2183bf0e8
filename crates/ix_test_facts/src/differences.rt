//! The differences that `p < q + k` gives: what is below p is below what q is below.

ghost use Rattle.std.specs.Prelude.{◌≡◌, ◌++◌, pos, ◌+ℤ◌, ◌-ℤ◌, OnOk};
ghost use Rattle.ix_facts.specs.Closure.{kept};
ghost use Rattle.ix_facts.specs.Exact.{if_so, each};
ghost use Rattle.ix_facts.specs.AfterTest.{below_by, above_by};
ghost use Rattle.ix_test_facts.specs.OverGroups.{between, differences_in_turn};

use crate::bounds::apart;
use ix_core::{Fact, Path};
use ix_facts::is_same_path;
use ix_intervals::push_less_if;
use std::alloc::AllocError;

/// The constant of the difference of r and s, where `r < p + c`, `p < q + k` and `q < s + d`.
fn joined(c: &i32, k: &i32, d: &i32) -> i64
    ensures value { result ≡ c.now +ℤ k.now +ℤ d.now -ℤ pos 2 }
{
    apart(k, c) + *d as i64
}

fn push_between(
    out: &mut Vec<Fact>,
    k: &i32,
    r: &Path,
    c: &i32,
    s: &Path,
    d: &i32,
) -> Result<(), AllocError>
    ensures { OnOk result (out.new.items ≡ out.old.items ++ kept (between k.now r.now c.now s.now d.now)) }
{
    push_less_if(out, !is_same_path(r, s), r, s, joined(c, k, d))
}

fn push_between_by(
    out: &mut Vec<Fact>,
    k: &i32,
    q: &Path,
    r: &Path,
    c: &i32,
    fact: &Fact,
) -> Result<(), AllocError>
    ensures { OnOk result (out.new.items ≡ out.old.items ++ kept (above_by (between k.now r.now c.now) q.now fact.now)) }
{
    match fact {
        Fact::Less(x, s, d) if is_same_path(x, q) => push_between(out, k, r, c, s, d),
        _ => Ok(()),
    }
}

/// r is below what q is below.
fn push_from(
    out: &mut Vec<Fact>,
    k: &i32,
    q: &Path,
    above: &[Fact],
    r: &Path,
    c: &i32,
) -> Result<(), AllocError>
    ensures { OnOk result (out.new.items ≡ out.old.items ++ kept (each (above_by (between k.now r.now c.now) q.now) above.now)) }
{
    for fact in above {
        push_between_by(out, k, q, r, c, fact)?;
    }
    Ok(())
}

fn push_from_by(
    out: &mut Vec<Fact>,
    k: &i32,
    p: &Path,
    q: &Path,
    above: &[Fact],
    fact: &Fact,
) -> Result<(), AllocError>
    ensures { OnOk result (out.new.items ≡ out.old.items ++ kept (below_by (λ r c. each (above_by (between k.now r c) q.now) above.now) p.now fact.now)) }
{
    match fact {
        Fact::Less(r, x, c) if is_same_path(x, p) => push_from(out, k, q, above, r, c),
        _ => Ok(()),
    }
}

/// For how many differences room is asked at once, at most.
const MANY: usize = 4096;

/// Room for the differences of each path below p and each above q. It is for speed alone.
fn room(below: &[Fact], above: &[Fact]) -> usize {
    below.len().saturating_mul(above.len()).min(MANY)
}

/// What is below p is below what q is below, p and q being among these: in the order of paths, where they are.
pub(crate) fn push_differences(
    out: &mut Vec<Fact>,
    k: &i32,
    p: &Path,
    below: &[Fact],
    q: &Path,
    above: &[Fact],
) -> Result<(), AllocError>
    ensures { OnOk result (out.new.items ≡ out.old.items ++ kept (differences_in_turn below.now above.now p.now q.now k.now)) }
{
    out.reserve(room(below, above))?;
    for fact in below {
        push_from_by(out, k, p, q, above, fact)?;
    }
    Ok(())
}
