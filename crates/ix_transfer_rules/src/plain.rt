//! What the other operators give.

ghost use Rattle.std.specs.Prelude.{◌≡◌, ◌++◌, int_le, ◌&&◌, pos, OnOk};
ghost use Rattle.ix_facts.specs.Bounds as spec;
ghost use Rattle.ix_facts.specs.Closure.{kept};
ghost use Rattle.ix_facts.specs.Exact.{if_so, each};
ghost use Rattle.ix_facts.specs.Facts.{in_orders};
ghost use Rattle.ix_facts.specs.AfterOperation as after;
ghost use Rattle.ix_core.specs.declared.fact.Fact.TheVariants.{Sum};

use ix_core::{Fact, Path};
use ix_facts::{Know, is_same_path};
use ix_intervals::{push_less, push_less_if};
use std::alloc::AllocError;

pub(crate) fn is_from<K: Know>(know: &K, p: &Path, n: i64) -> bool
    ensures { result ≡ after.is_from (in_orders (K.known know.now)) p.now n }
{
    n <= know.lo(p)
}

/// `t = y * z`.
pub(crate) fn push_product<K: Know>(
    out: &mut Vec<Fact>,
    know: &K,
    t: &Path,
    y: &Path,
    z: &Path,
) -> Result<(), AllocError>
    ensures { OnOk result (out.new.items ≡ out.old.items ++ kept (after.product_facts (in_orders (K.known know.now)) t.now y.now z.now)) }
{
    push_less_if(out, is_from(know, y, 0) && is_from(know, z, 1), y, t, 1).and(push_less_if(
        out,
        is_from(know, z, 0) && is_from(know, y, 1),
        z,
        t,
        1,
    ))
}

/// `t = y / z`.
pub(crate) fn push_quotient<K: Know>(
    out: &mut Vec<Fact>,
    know: &K,
    t: &Path,
    y: &Path,
    z: &Path,
) -> Result<(), AllocError>
    ensures { OnOk result (out.new.items ≡ out.old.items ++ kept (after.quotient_facts (in_orders (K.known know.now)) t.now y.now z.now)) }
{
    push_less_if(out, is_from(know, y, 0) && is_from(know, z, 0), t, y, 1).and(push_less_if(
        out,
        is_from(know, y, 1) && is_from(know, z, 2),
        t,
        y,
        0,
    ))
}

/// `t = y % z`.
pub(crate) fn push_remainder<K: Know>(
    out: &mut Vec<Fact>,
    know: &K,
    t: &Path,
    y: &Path,
    z: &Path,
) -> Result<(), AllocError>
    ensures { OnOk result (out.new.items ≡ out.old.items ++ kept (after.remainder_facts (in_orders (K.known know.now)) t.now y.now z.now)) }
{
    push_less_if(out, is_from(know, z, 0), t, z, 0).and(push_less_if(
        out,
        is_from(know, y, 0),
        t,
        y,
        1,
    ))
}

/// `t = y & z`.
pub(crate) fn push_and<K: Know>(
    out: &mut Vec<Fact>,
    know: &K,
    t: &Path,
    y: &Path,
    z: &Path,
) -> Result<(), AllocError>
    ensures { OnOk result (out.new.items ≡ out.old.items ++ kept (after.and_facts (in_orders (K.known know.now)) t.now y.now z.now)) }
{
    push_less_if(out, is_from(know, z, 0), t, z, 1).and(push_less_if(
        out,
        is_from(know, y, 0),
        t,
        y,
        1,
    ))
}

/// `t = y >> z` and `t = y >>> z`.
pub(crate) fn push_shift<K: Know>(
    out: &mut Vec<Fact>,
    know: &K,
    t: &Path,
    y: &Path,
) -> Result<(), AllocError>
    ensures { OnOk result (out.new.items ≡ out.old.items ++ kept (after.shift_facts (in_orders (K.known know.now)) t.now y.now)) }
{
    push_less_if(out, is_from(know, y, 0), t, y, 1)
}

fn is_less<K: Know>(know: &K, y: &Path, z: &Path, c: i64) -> bool
    ensures { result ≡ int_le (spec.less_bound (in_orders (K.known know.now)) y.now z.now) c }
{
    match know.less(y, z) {
        Some(n) => n <= c,
        None => false,
    }
}

/// Half of a stored sum of y and z.
fn push_half_between<K: Know>(
    out: &mut Vec<Fact>,
    know: &K,
    t: &Path,
    y: &Path,
    z: &Path,
) -> Result<(), AllocError>
    ensures { OnOk result (out.new.items ≡ out.old.items ++ kept (after.half_between (in_orders (K.known know.now)) t.now y.now z.now)) }
{
    if is_less(know, y, z, 1) {
        push_less(out, y, t, 1).and(push_less(out, t, z, 1))?;
    }
    push_less_if(out, is_less(know, y, z, 0), t, z, 0)
}

fn push_half_by<K: Know>(
    out: &mut Vec<Fact>,
    know: &K,
    t: &Path,
    s: &Path,
    fact: &Fact,
) -> Result<(), AllocError>
    ensures { OnOk result (out.new.items ≡ out.old.items ++ kept (after.half_by (in_orders (K.known know.now)) t.now s.now fact.now)) }
{
    match fact {
        Fact::Sum(x, y, z) if is_same_path(x, s) => push_half_between(out, know, t, y, z),
        _ => Ok(()),
    }
}

fn push_halves<K: Know>(
    out: &mut Vec<Fact>,
    know: &K,
    t: &Path,
    s: &Path,
    on_left: &[Fact],
) -> Result<(), AllocError>
    ensures { OnOk result (out.new.items ≡ out.old.items ++ kept (each (after.half_by (in_orders (K.known know.now)) t.now s.now) on_left.now)) }
{
    for fact in on_left {
        push_half_by(out, know, t, s, fact)?;
    }
    Ok(())
}

fn is_half<K: Know>(know: &K, n: i64, s: &Path, z: &Path) -> bool
    ensures { result ≡ after.is_from (in_orders (K.known know.now)) z.now n && (int_le (spec.upper_limit (in_orders (K.known know.now)) z.now) n && after.is_from (in_orders (K.known know.now)) s.now (pos 0)) }
{
    is_from(know, z, n) && know.hi(z) <= n && is_from(know, s, 0)
}

/// `t = s / 2`, `s >> 1` or `s >>> 1`.
pub(crate) fn push_half<K: Know>(
    out: &mut Vec<Fact>,
    know: &K,
    on_left: &[Fact],
    n: i64,
    t: &Path,
    s: &Path,
    z: &Path,
) -> Result<(), AllocError>
    ensures { OnOk result (out.new.items ≡ out.old.items ++ kept (if_so (after.is_from (in_orders (K.known know.now)) z.now n && (int_le (spec.upper_limit (in_orders (K.known know.now)) z.now) n && after.is_from (in_orders (K.known know.now)) s.now (pos 0))) (each (after.half_by (in_orders (K.known know.now)) t.now s.now) on_left.now))) }
{
    if is_half(know, n, s, z) {
        push_halves(out, know, t, s, on_left)
    } else {
        Ok(())
    }
}
