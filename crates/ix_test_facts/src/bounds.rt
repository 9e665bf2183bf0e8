//! The bounds from an array's end that `p < q + k` gives: those of q are bounds of p and of what is below p.

ghost use Rattle.std.specs.Prelude.{◌≡◌, ◌++◌, pos, negsuc, ◌+ℤ◌, ◌-ℤ◌, OnOk};
ghost use Rattle.ix_facts.specs.Closure.{kept};
ghost use Rattle.ix_facts.specs.Exact.{if_so, each};
ghost use Rattle.ix_facts.specs.Small.{IsLimit};
ghost use Rattle.ix_facts.specs.AfterTest.{at_below, below_by, bound_moved};

use ix_core::{Fact, Path, PathOff};
use ix_facts::is_same_path;
use ix_intervals::push_upper_if;
use std::alloc::AllocError;

/// By how much r is at most greater than q, where `r < p + c` and `p < q + k`: each says that an int is at most one less.
pub(crate) fn apart(k: &i32, c: &i32) -> i64
    ensures { record {
      value : result ≡ c.now +ℤ k.now -ℤ pos 2;
      small : IsLimit result;
    } }
{
    *c as i64 + *k as i64 - 2
}

/// A bound e of q as one of r, which is at most n greater.
fn moved(e: &i32, n: i64) -> i64
    requires small { IsLimit n }
    ensures value { result ≡ e.now -ℤ n }
{
    *e as i64 - n
}

/// The same of a q that is the length.
fn moved_length(n: i64) -> i64
    requires small { IsLimit n }
    ensures value { result ≡ negsuc 0 -ℤ n }
{
    -1 - n
}

fn push_bound_moved(
    out: &mut Vec<Fact>,
    r: &Path,
    k: &i32,
    c: &i32,
    q: &Path,
    fact: &Fact,
) -> Result<(), AllocError>
    ensures { OnOk result (out.new.items ≡ out.old.items ++ kept (bound_moved r.now (c.now +ℤ k.now -ℤ pos 2) q.now fact.now)) }
{
    match fact {
        Fact::Upper(x, a, offset, e) => {
            push_upper_if(out, is_same_path(x, q), r, a, offset, moved(e, apart(k, c)))
        }
        Fact::IsLen(x, a) => {
            push_upper_if(
                out,
                is_same_path(x, q),
                r,
                a,
                &PathOff::Nothing,
                moved_length(apart(k, c)),
            )
        }
        _ => Ok(()),
    }
}

fn push_bounds_moved(
    out: &mut Vec<Fact>,
    r: &Path,
    k: &i32,
    c: &i32,
    q: &Path,
    on_q: &[Fact],
) -> Result<(), AllocError>
    ensures { OnOk result (out.new.items ≡ out.old.items ++ kept (each (bound_moved r.now (c.now +ℤ k.now -ℤ pos 2) q.now) on_q.now)) }
{
    for fact in on_q {
        push_bound_moved(out, r, k, c, q, fact)?;
    }
    Ok(())
}

fn push_bounds_by(
    out: &mut Vec<Fact>,
    k: &i32,
    p: &Path,
    q: &Path,
    on_q: &[Fact],
    fact: &Fact,
) -> Result<(), AllocError>
    ensures { OnOk result (out.new.items ≡ out.old.items ++ kept (below_by (λ r c. each (bound_moved r (c +ℤ k.now -ℤ pos 2) q.now) on_q.now) p.now fact.now)) }
{
    match fact {
        Fact::Less(r, x, c) if is_same_path(x, p) => push_bounds_moved(out, r, k, c, q, on_q),
        _ => Ok(()),
    }
}

/// The bounds of q, of p and of what is stored to be below p.
pub(crate) fn push_bounds(
    out: &mut Vec<Fact>,
    k: &i32,
    p: &Path,
    on_p: &[Fact],
    q: &Path,
    on_q: &[Fact],
) -> Result<(), AllocError>
    ensures { OnOk result (out.new.items ≡ out.old.items ++ kept (at_below (λ r c. each (bound_moved r (c +ℤ k.now -ℤ pos 2) q.now) on_q.now) on_p.now p.now)) }
{
    push_bounds_moved(out, p, k, &1, q, on_q)?;
    for fact in on_p {
        push_bounds_by(out, k, p, q, on_q, fact)?;
    }
    Ok(())
}
