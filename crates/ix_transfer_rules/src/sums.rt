//! What a sum and a difference give.

ghost use Rattle.std.specs.Prelude.{◌≡◌, ◌++◌, ◌∷◌, [], pos, ◌+ℤ◌, ◌-ℤ◌, OnOk};
ghost use Rattle.ix_facts.specs.Bounds as spec;
ghost use Rattle.ix_facts.specs.Closure.{kept};
ghost use Rattle.ix_facts.specs.Exact.{if_some, each, each_path};
ghost use Rattle.ix_facts.specs.Facts.{in_orders};
ghost use Rattle.ix_facts.specs.AfterOperation as after;
ghost use Rattle.ix_transfer_rules.specs.OverParts as over;
ghost use Rattle.ix_core.specs.declared.fact.PathOff.TheVariants.{Nothing, Plus, Minus};
ghost use Rattle.ix_core.specs.declared.fact.Fact.TheVariants.{Less, Sum};

use ix_core::{Fact, Path, PathOff};
use ix_facts::{Know, is_same_path};
use ix_intervals::{push_fact, push_less, push_some_less, push_some_upper};
use std::alloc::AllocError;

/// `p` is less than `q` by the greatest number that z can be.
fn push_below_limit<K: Know>(
    out: &mut Vec<Fact>,
    know: &K,
    p: &Path,
    q: &Path,
    z: &Path,
) -> Result<(), AllocError>
    ensures { OnOk result (out.new.items ≡ out.old.items ++ kept (Less p.now q.now (spec.upper_limit (in_orders (K.known know.now)) z.now +ℤ pos 1) ∷ [])) }
{
    push_less(out, p, q, know.hi(z) + 1)
}

/// `p` is less than `q` by the least number that z can be.
fn push_below_bound<K: Know>(
    out: &mut Vec<Fact>,
    know: &K,
    p: &Path,
    q: &Path,
    z: &Path,
) -> Result<(), AllocError>
    ensures { OnOk result (out.new.items ≡ out.old.items ++ kept (Less p.now q.now (pos 1 -ℤ spec.lower_bound (in_orders (K.known know.now)) z.now) ∷ [])) }
{
    push_less(out, p, q, 1 - know.lo(z))
}

/// `t = y + z`, of an array.
fn push_sum_array<K: Know>(
    out: &mut Vec<Fact>,
    know: &K,
    t: &Path,
    y: &Path,
    z: &Path,
    a: &Path,
) -> Result<(), AllocError>
    ensures { OnOk result (out.new.items ≡ out.old.items ++ kept (after.sum_array (in_orders (K.known know.now)) t.now y.now z.now a.now)) }
{
    push_some_upper(
        out,
        t,
        a,
        &PathOff::Nothing,
        know.upper(y, a, &PathOff::Plus(*z)),
    )
    .and(push_some_upper(
        out,
        t,
        a,
        &PathOff::Minus(*z),
        know.upper(y, a, &PathOff::Nothing),
    ))
    .and(push_some_upper(
        out,
        t,
        a,
        &PathOff::Minus(*y),
        know.upper(z, a, &PathOff::Nothing),
    ))
}

fn push_sum_arrays<K: Know>(
    out: &mut Vec<Fact>,
    know: &K,
    t: &Path,
    y: &Path,
    z: &Path,
    arrays: &[Path],
) -> Result<(), AllocError>
    ensures { OnOk result (out.new.items ≡ out.old.items ++ kept (each_path (after.sum_array (in_orders (K.known know.now)) t.now y.now z.now) arrays.now)) }
{
    for a in arrays {
        push_sum_array(out, know, t, y, z, a)?;
    }
    Ok(())
}

fn push_apart<K: Know>(
    out: &mut Vec<Fact>,
    know: &K,
    t: &Path,
    r: &Path,
    z: &Path,
    q: &Path,
) -> Result<(), AllocError>
    ensures { OnOk result (out.new.items ≡ out.old.items ++ kept (if_some (Less t.now r.now) (spec.fact_less (in_orders (K.known know.now)) z.now q.now) ++ if_some (Less r.now t.now) (spec.fact_less (in_orders (K.known know.now)) q.now z.now))) }
{
    push_some_less(out, t, r, know.difference(z, q)).and(push_some_less(
        out,
        r,
        t,
        know.difference(q, z),
    ))
}

/// `t = y + z` and stored `r = y + q`: t and r differ as z and q do.
fn push_sum_beside<K: Know>(
    out: &mut Vec<Fact>,
    know: &K,
    t: &Path,
    y: &Path,
    z: &Path,
    fact: &Fact,
) -> Result<(), AllocError>
    ensures { OnOk result (out.new.items ≡ out.old.items ++ kept (after.sum_beside (in_orders (K.known know.now)) t.now y.now z.now fact.now)) }
{
    match fact {
        Fact::Sum(r, x, q) if is_same_path(x, y) => push_apart(out, know, t, r, z, q),
        _ => Ok(()),
    }
}

fn push_sums_beside<K: Know>(
    out: &mut Vec<Fact>,
    know: &K,
    t: &Path,
    y: &Path,
    z: &Path,
    on_left: &[Fact],
) -> Result<(), AllocError>
    ensures { OnOk result (out.new.items ≡ out.old.items ++ kept (each (after.sum_beside (in_orders (K.known know.now)) t.now y.now z.now) on_left.now)) }
{
    for fact in on_left {
        push_sum_beside(out, know, t, y, z, fact)?;
    }
    Ok(())
}

/// `t = y - z`, of an array.
fn push_difference_array<K: Know>(
    out: &mut Vec<Fact>,
    know: &K,
    t: &Path,
    y: &Path,
    z: &Path,
    a: &Path,
) -> Result<(), AllocError>
    ensures { OnOk result (out.new.items ≡ out.old.items ++ kept (after.difference_array (in_orders (K.known know.now)) t.now y.now z.now a.now)) }
{
    push_some_upper(
        out,
        t,
        a,
        &PathOff::Plus(*z),
        know.upper(y, a, &PathOff::Nothing),
    )
    .and(push_some_upper(
        out,
        t,
        a,
        &PathOff::Nothing,
        know.upper(y, a, &PathOff::Minus(*z)),
    ))
}

fn push_difference_arrays<K: Know>(
    out: &mut Vec<Fact>,
    know: &K,
    t: &Path,
    y: &Path,
    z: &Path,
    arrays: &[Path],
) -> Result<(), AllocError>
    ensures { OnOk result (out.new.items ≡ out.old.items ++ kept (each_path (after.difference_array (in_orders (K.known know.now)) t.now y.now z.now) arrays.now)) }
{
    for a in arrays {
        push_difference_array(out, know, t, y, z, a)?;
    }
    Ok(())
}

/// The ends of a sum: t is above y by at least the lower bound of z and at most its limit.
fn push_sum_ends<K: Know>(
    out: &mut Vec<Fact>,
    know: &K,
    t: &Path,
    y: &Path,
    z: &Path,
) -> Result<(), AllocError>
    ensures { OnOk result (out.new.items ≡ out.old.items ++ (kept (Less t.now y.now (spec.upper_limit (in_orders (K.known know.now)) z.now +ℤ pos 1) ∷ []) ++ kept (Less y.now t.now (pos 1 -ℤ spec.lower_bound (in_orders (K.known know.now)) z.now) ∷ []))) }
{
    push_below_limit(out, know, t, y, z).and(push_below_bound(out, know, y, t, z))
}

/// `t = y + z`.
pub(crate) fn push_sum<K: Know>(
    out: &mut Vec<Fact>,
    know: &K,
    on_left: &[Fact],
    on_right: &[Fact],
    arrays: &[Path],
    t: &Path,
    y: &Path,
    z: &Path,
) -> Result<(), AllocError>
    ensures { OnOk result (out.new.items ≡ out.old.items ++ kept (over.sum_facts (in_orders (K.known know.now)) on_left.now on_right.now arrays.now t.now y.now z.now)) }
{
    push_fact(out, Fact::Sum(*t, *y, *z))
        .and(push_sum_ends(out, know, t, y, z))
        .and(push_sum_ends(out, know, t, z, y))
        .and(push_sum_arrays(out, know, t, y, z, arrays))
        .and(push_sums_beside(out, know, t, y, z, on_left))
        .and(push_sums_beside(out, know, t, z, y, on_right))
}

/// `t = y - z`.
pub(crate) fn push_difference<K: Know>(
    out: &mut Vec<Fact>,
    know: &K,
    arrays: &[Path],
    t: &Path,
    y: &Path,
    z: &Path,
) -> Result<(), AllocError>
    ensures { OnOk result (out.new.items ≡ out.old.items ++ kept (over.difference_facts (in_orders (K.known know.now)) [] [] arrays.now t.now y.now z.now)) }
{
    push_fact(out, Fact::Sum(*y, *t, *z))
        .and(push_below_bound(out, know, t, y, z))
        .and(push_below_limit(out, know, y, t, z))
        .and(push_difference_arrays(out, know, t, y, z, arrays))
}
