//! What a new difference gives along stored differences and bounds.

ghost use Rattle.std.specs.Prelude.{◌≡◌, ◌++◌, pos, ◌+ℤ◌, ◌-ℤ◌, OnOk};
ghost use Rattle.ix_facts.specs.Bounds as spec;
ghost use Rattle.ix_facts.specs.Closure.{kept};
ghost use Rattle.ix_facts.specs.Exact.{if_so, each};
ghost use Rattle.ix_facts.specs.Finish as rule;
ghost use Rattle.ix_transfer.specs.OverNamed as over;
ghost use Rattle.ix_core.specs.declared.fact.PathOff.TheVariants.{Nothing, Minus};
ghost use Rattle.ix_core.specs.declared.fact.Fact.TheVariants.{IsLen, Less, Upper};

use ix_core::{Fact, Path, PathOff};
use ix_facts::{Indexed, is_same_path};
use ix_intervals::{push_less_if, push_upper_if};
use std::alloc::AllocError;

fn push_step_above(
    out: &mut Vec<Fact>,
    t: &Path,
    q: &Path,
    c: &i32,
    fact: &Fact,
) -> Result<(), AllocError>
    ensures { OnOk result (out.new.items ≡ out.old.items ++ kept (rule.step_above t.now q.now c.now fact.now)) }
{
    match *fact {
        Fact::Less(x, r, d) => {
            push_less_if(out, is_same_path(&x, q), t, &r, *c as i64 + d as i64 - 1)
        }
        _ => Ok(()),
    }
}

fn push_step_below(
    out: &mut Vec<Fact>,
    t: &Path,
    q: &Path,
    c: &i32,
    fact: &Fact,
) -> Result<(), AllocError>
    ensures { OnOk result (out.new.items ≡ out.old.items ++ kept (rule.step_below t.now q.now c.now fact.now)) }
{
    match *fact {
        Fact::Less(r, x, d) => {
            push_less_if(out, is_same_path(&x, q), &r, t, *c as i64 + d as i64 - 1)
        }
        _ => Ok(()),
    }
}

fn push_bound_above(
    out: &mut Vec<Fact>,
    t: &Path,
    q: &Path,
    c: &i32,
    fact: &Fact,
) -> Result<(), AllocError>
    ensures { OnOk result (out.new.items ≡ out.old.items ++ kept (rule.bound_above t.now q.now c.now fact.now)) }
{
    match fact {
        Fact::Upper(x, a, offset, d) => push_upper_if(
            out,
            is_same_path(x, q),
            t,
            a,
            offset,
            past(*d, *c),
        ),
        Fact::IsLen(x, a) => push_upper_if(
            out,
            is_same_path(x, q),
            t,
            a,
            &PathOff::Nothing,
            -(*c as i64),
        ),
        _ => Ok(()),
    }
}

fn push_bound_below(
    out: &mut Vec<Fact>,
    t: &Path,
    q: &Path,
    c: &i32,
    fact: &Fact,
) -> Result<(), AllocError>
    ensures { OnOk result (out.new.items ≡ out.old.items ++ kept (rule.bound_below t.now q.now c.now fact.now)) }
{
    match *fact {
        Fact::Upper(r, a, PathOff::Minus(x), d) => push_upper_if(
            out,
            is_same_path(&x, q),
            &r,
            &a,
            &PathOff::Minus(*t),
            past(d, *c),
        ),
        _ => Ok(()),
    }
}

fn push_steps_above(
    out: &mut Vec<Fact>,
    t: &Path,
    q: &Path,
    c: &i32,
    on_other: &[Fact],
) -> Result<(), AllocError>
    ensures { OnOk result (out.new.items ≡ out.old.items ++ kept (each (rule.step_above t.now q.now c.now) on_other.now)) }
{
    for fact in on_other {
        push_step_above(out, t, q, c, fact)?;
    }
    Ok(())
}

fn push_steps_below(
    out: &mut Vec<Fact>,
    t: &Path,
    q: &Path,
    c: &i32,
    on_other: &[Fact],
) -> Result<(), AllocError>
    ensures { OnOk result (out.new.items ≡ out.old.items ++ kept (each (rule.step_below t.now q.now c.now) on_other.now)) }
{
    for fact in on_other {
        push_step_below(out, t, q, c, fact)?;
    }
    Ok(())
}

fn push_bounds_above(
    out: &mut Vec<Fact>,
    t: &Path,
    q: &Path,
    c: &i32,
    on_other: &[Fact],
) -> Result<(), AllocError>
    ensures { OnOk result (out.new.items ≡ out.old.items ++ kept (each (rule.bound_above t.now q.now c.now) on_other.now)) }
{
    for fact in on_other {
        push_bound_above(out, t, q, c, fact)?;
    }
    Ok(())
}

fn push_bounds_below(
    out: &mut Vec<Fact>,
    t: &Path,
    q: &Path,
    c: &i32,
    on_other: &[Fact],
) -> Result<(), AllocError>
    ensures { OnOk result (out.new.items ≡ out.old.items ++ kept (each (rule.bound_below t.now q.now c.now) on_other.now)) }
{
    for fact in on_other {
        push_bound_below(out, t, q, c, fact)?;
    }
    Ok(())
}

/// The number of a bound of q at p, where `p < q + c`.
fn past(d: i32, c: i32) -> i64
    ensures value { result ≡ d -ℤ c +ℤ pos 1 }
{
    d as i64 - c as i64 + 1
}

fn push_both_above(
    out: &mut Vec<Fact>,
    on_other: &[Fact],
    t: &Path,
    q: &Path,
    c: &i32,
) -> Result<(), AllocError>
    ensures { OnOk result (out.new.items ≡ out.old.items ++ kept (each (rule.step_above t.now q.now c.now) on_other.now ++ each (rule.bound_above t.now q.now c.now) on_other.now)) }
{
    push_steps_above(out, t, q, c, on_other).and(push_bounds_above(out, t, q, c, on_other))
}

fn push_all_above<K: Indexed>(
    out: &mut Vec<Fact>,
    know: &K,
    x: &Path,
    t: &Path,
    q: &Path,
    c: &i32,
) -> Result<(), AllocError>
    ensures { OnOk result (out.new.items ≡ out.old.items ++ kept (if_so (spec.is_path x.now t.now) (each (rule.step_above t.now q.now c.now) (K.on_path know.now q.now) ++ each (rule.bound_above t.now q.now c.now) (K.on_path know.now q.now)))) }
{
    if is_same_path(x, t) {
        push_both_above(out, know.on(q), t, q, c)
    } else {
        Ok(())
    }
}

fn push_both_below(
    out: &mut Vec<Fact>,
    on_other: &[Fact],
    t: &Path,
    p: &Path,
    c: &i32,
) -> Result<(), AllocError>
    ensures { OnOk result (out.new.items ≡ out.old.items ++ kept (each (rule.step_below t.now p.now c.now) on_other.now ++ each (rule.bound_below t.now p.now c.now) on_other.now)) }
{
    push_steps_below(out, t, p, c, on_other).and(push_bounds_below(out, t, p, c, on_other))
}

fn push_all_below<K: Indexed>(
    out: &mut Vec<Fact>,
    know: &K,
    x: &Path,
    t: &Path,
    p: &Path,
    c: &i32,
) -> Result<(), AllocError>
    ensures { OnOk result (out.new.items ≡ out.old.items ++ kept (if_so (spec.is_path x.now t.now) (each (rule.step_below t.now p.now c.now) (K.on_path know.now p.now) ++ each (rule.bound_below t.now p.now c.now) (K.on_path know.now p.now)))) }
{
    if is_same_path(x, t) {
        push_both_below(out, know.on(p), t, p, c)
    } else {
        Ok(())
    }
}

fn push_along_less<K: Indexed>(
    out: &mut Vec<Fact>,
    know: &K,
    t: &Path,
    p: &Path,
    q: &Path,
    c: &i32,
) -> Result<(), AllocError>
    ensures { OnOk result (out.new.items ≡ out.old.items ++ kept (over.along_by (K.on_path know.now) t.now (Less p.now q.now c.now))) }
{
    push_all_above(out, know, p, t, q, c).and(push_all_below(out, know, q, t, p, c))
}

/// What a new difference gives along stored differences and bounds.
fn push_along_by<K: Indexed>(
    out: &mut Vec<Fact>,
    know: &K,
    t: &Path,
    fact: &Fact,
) -> Result<(), AllocError>
    ensures { OnOk result (out.new.items ≡ out.old.items ++ kept (over.along_by (K.on_path know.now) t.now fact.now)) }
{
    match fact {
        Fact::Less(p, q, c) => push_along_less(out, know, t, p, q, c),
        _ => Ok(()),
    }
}

pub(crate) fn push_along<K: Indexed>(
    out: &mut Vec<Fact>,
    know: &K,
    t: &Path,
    new: &[Fact],
) -> Result<(), AllocError>
    ensures { OnOk result (out.new.items ≡ out.old.items ++ kept (each (over.along_by (K.on_path know.now) t.now) new.now)) }
{
    for fact in new {
        push_along_by(out, know, t, fact)?;
    }
    Ok(())
}
