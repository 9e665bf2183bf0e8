//! An int or an array beside each named path, by their ranges.

ghost use Rattle.std.specs.Prelude.{◌≡◌, ◌++◌, ◌∷◌, [], int_le, pos, negsuc, ◌+ℤ◌, ◌-ℤ◌, OnOk};
ghost use Rattle.ix_facts.specs.Bounds as spec;
ghost use Rattle.ix_facts.specs.Closure.{kept};
ghost use Rattle.ix_facts.specs.Exact.{if_so, each, each_path};
ghost use Rattle.ix_facts.specs.Facts.{in_orders};
ghost use Rattle.ix_facts.specs.Finish as rule;
ghost use Rattle.ix_core.specs.declared.fact.PathOff.TheVariants.{Nothing};
ghost use Rattle.ix_core.specs.declared.fact.Fact.TheVariants.{Less, Upper};

use ix_core::{Fact, Path, PathOff};
use ix_facts::Know;
use ix_intervals::push_fact;
use std::alloc::AllocError;

/// The least c with `t < r + c`, for an int t that is at most `high`.
fn above<K: Know>(know: &K, high: i64, r: &Path) -> i128
    ensures value { result ≡ high -ℤ spec.lower_bound (in_orders (K.known know.now)) r.now +ℤ pos 1 }
{
    high as i128 - know.lo(r) as i128 + 1
}

/// The least c with `r < t + c`, for an int t that is at least `low`.
fn below<K: Know>(know: &K, low: i64, r: &Path) -> i128
    ensures value { result ≡ spec.upper_limit (in_orders (K.known know.now)) r.now -ℤ low +ℤ pos 1 }
{
    know.hi(r) as i128 - low as i128 + 1
}

/// Adds `p < q + c`, where c is at most 1.
fn push_near(out: &mut Vec<Fact>, p: &Path, q: &Path, c: i128) -> Result<(), AllocError>
    ensures { OnOk result (out.new.items ≡ out.old.items ++ kept (if_so (int_le c (pos 1)) (Less p.now q.now c ∷ []))) }
{
    if c > 1 {
        return Ok(());
    }
    push_fact(out, Fact::Less(*p, *q, c.max(-2147483648) as i32))
}

fn push_above<K: Know>(
    out: &mut Vec<Fact>,
    know: &K,
    t: &Path,
    high: i64,
    r: &Path,
) -> Result<(), AllocError>
    ensures { OnOk result (out.new.items ≡ out.old.items ++ kept (if_so (int_le (high -ℤ spec.lower_bound (in_orders (K.known know.now)) r.now +ℤ pos 1) (pos 1)) (Less t.now r.now (high -ℤ spec.lower_bound (in_orders (K.known know.now)) r.now +ℤ pos 1) ∷ []))) }
{
    push_near(out, t, r, above(know, high, r))
}

fn push_below<K: Know>(
    out: &mut Vec<Fact>,
    know: &K,
    t: &Path,
    low: i64,
    r: &Path,
) -> Result<(), AllocError>
    ensures { OnOk result (out.new.items ≡ out.old.items ++ kept (if_so (int_le (spec.upper_limit (in_orders (K.known know.now)) r.now -ℤ low +ℤ pos 1) (pos 1)) (Less r.now t.now (spec.upper_limit (in_orders (K.known know.now)) r.now -ℤ low +ℤ pos 1) ∷ []))) }
{
    push_near(out, r, t, below(know, low, r))
}

/// An int t and an int r, where t is at most it or it is at most t, by their ranges.
fn push_beside_int<K: Know>(
    out: &mut Vec<Fact>,
    know: &K,
    new: &[Fact],
    t: &Path,
    low: i64,
    high: i64,
    r: &Path,
) -> Result<(), AllocError>
    requires { record {
      low : low ≡ spec.range_low new.now t.now;
      high : high ≡ spec.range_high new.now t.now;
    } }
    ensures { OnOk result (out.new.items ≡ out.old.items ++ kept (rule.beside_int (in_orders (K.known know.now)) new.now t.now r.now)) }
{
    push_above(out, know, t, high, r).and(push_below(out, know, t, low, r))
}

fn push_beside_ints<K: Know>(
    out: &mut Vec<Fact>,
    know: &K,
    new: &[Fact],
    t: &Path,
    low: i64,
    high: i64,
    ints: &[Path],
) -> Result<(), AllocError>
    requires { record {
      low : low ≡ spec.range_low new.now t.now;
      high : high ≡ spec.range_high new.now t.now;
    } }
    ensures { OnOk result (out.new.items ≡ out.old.items ++ kept (each_path (rule.beside_int (in_orders (K.known know.now)) new.now t.now) ints.now)) }
{
    for r in ints {
        push_beside_int(out, know, new, t, low, high, r)?;
    }
    Ok(())
}

/// The greatest c with `t + c < a.length`, for an int t that is at most `high`.
fn under<K: Know>(know: &K, high: i64, a: &Path) -> i128
    ensures value { result ≡ spec.length_low (in_orders (K.known know.now)) a.now -ℤ pos 1 -ℤ high }
{
    know.len_lo(a) as i128 - 1 - high as i128
}

/// Adds `p + c < a.length`, where c is at least -1.
fn push_reaching(out: &mut Vec<Fact>, p: &Path, a: &Path, c: i128) -> Result<(), AllocError>
    ensures { OnOk result (out.new.items ≡ out.old.items ++ kept (if_so (int_le (negsuc 0) c) (Upper p.now a.now Nothing c ∷ []))) }
{
    if c < -1 {
        return Ok(());
    }
    push_fact(
        out,
        Fact::Upper(*p, *a, PathOff::Nothing, c.min(2147483647) as i32),
    )
}

fn push_beside_array<K: Know>(
    out: &mut Vec<Fact>,
    know: &K,
    new: &[Fact],
    t: &Path,
    high: i64,
    a: &Path,
) -> Result<(), AllocError>
    requires high { high ≡ spec.range_high new.now t.now }
    ensures { OnOk result (out.new.items ≡ out.old.items ++ kept (rule.beside_array (in_orders (K.known know.now)) new.now t.now a.now)) }
{
    push_reaching(out, t, a, under(know, high, a))
}

fn push_beside_arrays<K: Know>(
    out: &mut Vec<Fact>,
    know: &K,
    new: &[Fact],
    t: &Path,
    high: i64,
    arrays: &[Path],
) -> Result<(), AllocError>
    requires high { high ≡ spec.range_high new.now t.now }
    ensures { OnOk result (out.new.items ≡ out.old.items ++ kept (each_path (rule.beside_array (in_orders (K.known know.now)) new.now t.now) arrays.now)) }
{
    for a in arrays {
        push_beside_array(out, know, new, t, high, a)?;
    }
    Ok(())
}

/// The greatest c with `r + c < t.length`, for an array t whose length is at least `low`.
fn under_length<K: Know>(know: &K, low: i64, r: &Path) -> i128
    ensures value { result ≡ low -ℤ pos 1 -ℤ spec.upper_limit (in_orders (K.known know.now)) r.now }
{
    low as i128 - 1 - know.hi(r) as i128
}

fn push_beside_length<K: Know>(
    out: &mut Vec<Fact>,
    know: &K,
    new: &[Fact],
    t: &Path,
    low: i64,
    r: &Path,
) -> Result<(), AllocError>
    requires low { low ≡ spec.length_low new.now t.now }
    ensures { OnOk result (out.new.items ≡ out.old.items ++ kept (rule.beside_length (in_orders (K.known know.now)) new.now t.now r.now)) }
{
    push_reaching(out, r, t, under_length(know, low, r))
}

pub(crate) fn push_beside_lengths<K: Know>(
    out: &mut Vec<Fact>,
    know: &K,
    new: &[Fact],
    t: &Path,
    low: i64,
    ints: &[Path],
) -> Result<(), AllocError>
    requires low { low ≡ spec.length_low new.now t.now }
    ensures { OnOk result (out.new.items ≡ out.old.items ++ kept (each_path (rule.beside_length (in_orders (K.known know.now)) new.now t.now) ints.now)) }
{
    for r in ints {
        push_beside_length(out, know, new, t, low, r)?;
    }
    Ok(())
}

pub(crate) fn push_by_ranges<K: Know>(
    out: &mut Vec<Fact>,
    know: &K,
    ints: &[Path],
    arrays: &[Path],
    new: &[Fact],
    t: &Path,
    low: i64,
    high: i64,
) -> Result<(), AllocError>
    requires low { low ≡ spec.range_low new.now t.now }
    requires high { high ≡ spec.range_high new.now t.now }
    ensures { OnOk result (out.new.items ≡ out.old.items ++ kept (each_path (rule.beside_int (in_orders (K.known know.now)) new.now t.now) ints.now ++ each_path (rule.beside_array (in_orders (K.known know.now)) new.now t.now) arrays.now)) }
{
    push_beside_ints(out, know, new, t, low, high, ints).and(push_beside_arrays(
        out, know, new, t, high, arrays,
    ))
}
