//! What the length of an array, a new array and a flipped int give.

ghost use Rattle.std.specs.Prelude.{◌≡◌, ◌++◌, ◌∷◌, [], ◌&&◌, pos, OnOk};
ghost use Rattle.ix_facts.specs.Closure.{kept};
ghost use Rattle.ix_facts.specs.Exact.{if_so, each, each_path};
ghost use Rattle.ix_facts.specs.Facts.{in_orders};
ghost use Rattle.ix_facts.specs.AfterOperation as after;
ghost use Rattle.ix_transfer_rules.specs.OverParts as over;
ghost use Rattle.ix_core.specs.declared.fact.PathOff.TheVariants.{Nothing, Plus};
ghost use Rattle.ix_core.specs.declared.fact.Fact.TheVariants.{Rng, LenRng, Same, IsLen, Less, Sum, Search, Neg, Upper};

use crate::plain::is_from;
use ix_core::{Fact, Path, PathOff};
use ix_facts::{Know, is_same_path};
use ix_intervals::{push_fact, push_if, push_less_if, push_upper, push_upper_if};
use std::alloc::AllocError;

/// Adds `q = t` of two ints, where the test is true.
fn push_equal(out: &mut Vec<Fact>, test: bool, q: &Path, t: &Path) -> Result<(), AllocError>
    ensures { OnOk result (out.new.items ≡ out.old.items ++ kept (if_so test (Less q.now t.now (pos 1) ∷ Less t.now q.now (pos 1) ∷ []))) }
{
    push_less_if(out, test, q, t, 1).and(push_less_if(out, test, t, q, 1))
}

fn push_length_by(out: &mut Vec<Fact>, t: &Path, a: &Path, fact: &Fact) -> Result<(), AllocError>
    ensures { OnOk result (out.new.items ≡ out.old.items ++ kept (after.length_by [] t.now a.now fact.now)) }
{
    match fact {
        Fact::Upper(p, b, PathOff::Nothing, c) => {
            push_less_if(out, is_same_path(b, a), p, t, -(*c as i64))
        }
        Fact::IsLen(q, b) => push_equal(out, is_same_path(b, a), q, t),
        _ => Ok(()),
    }
}

fn push_lengths(
    out: &mut Vec<Fact>,
    t: &Path,
    a: &Path,
    on_operand: &[Fact],
) -> Result<(), AllocError>
    ensures { OnOk result (out.new.items ≡ out.old.items ++ kept (each (after.length_by [] t.now a.now) on_operand.now)) }
{
    for fact in on_operand {
        push_length_by(out, t, a, fact)?;
    }
    Ok(())
}

/// `t = a.length`.
pub(crate) fn push_length<K: Know>(
    out: &mut Vec<Fact>,
    know: &K,
    on_operand: &[Fact],
    t: &Path,
    a: &Path,
) -> Result<(), AllocError>
    ensures { OnOk result (out.new.items ≡ out.old.items ++ kept (over.length_facts (in_orders (K.known know.now)) on_operand.now [] [] t.now a.now)) }
{
    let low = know.len_lo(a);
    let high = know.len_hi(a);
    push_fact(out, Fact::IsLen(*t, *a))
        .and(push_fact(out, Fact::Rng(*t, low, high)))
        .and(push_lengths(out, t, a, on_operand))
}

fn push_new_array_by(out: &mut Vec<Fact>, t: &Path, n: &Path, fact: &Fact) -> Result<(), AllocError>
    ensures { OnOk result (out.new.items ≡ out.old.items ++ kept (after.new_array_by [] t.now n.now fact.now)) }
{
    match fact {
        Fact::Less(p, q, c) => push_upper_if(
            out,
            is_same_path(q, n),
            p,
            t,
            &PathOff::Nothing,
            -(*c as i64),
        ),
        Fact::Sum(x, y, z) => push_upper_if(out, is_same_path(x, n), y, t, &PathOff::Plus(*z), -1),
        _ => Ok(()),
    }
}

fn push_new_arrays(
    out: &mut Vec<Fact>,
    t: &Path,
    n: &Path,
    on_operand: &[Fact],
) -> Result<(), AllocError>
    ensures { OnOk result (out.new.items ≡ out.old.items ++ kept (each (after.new_array_by [] t.now n.now) on_operand.now)) }
{
    for fact in on_operand {
        push_new_array_by(out, t, n, fact)?;
    }
    Ok(())
}

/// `t = new T[n]`.
pub(crate) fn push_new_array<K: Know>(
    out: &mut Vec<Fact>,
    know: &K,
    on_operand: &[Fact],
    t: &Path,
    n: &Path,
) -> Result<(), AllocError>
    ensures { OnOk result (out.new.items ≡ out.old.items ++ kept (over.new_array_facts (in_orders (K.known know.now)) on_operand.now [] [] t.now n.now)) }
{
    let low = know.lo(n).max(0);
    let high = know.hi(n).min(2147483647);
    push_fact(out, Fact::IsLen(*n, *t))
        .and(push_fact(out, Fact::Same(*t, *t)))
        .and(push_fact(out, Fact::LenRng(*t, low, high)))
        .and(push_new_arrays(out, t, n, on_operand))
}

fn reaches(number: Option<i64>, n: i64) -> bool
    ensures { result ≡ after.reaches [] number n }
{
    match number {
        Some(c) => n <= c,
        None => false,
    }
}

fn push_flip_array<K: Know>(
    out: &mut Vec<Fact>,
    know: &K,
    t: &Path,
    y: &Path,
    a: &Path,
) -> Result<(), AllocError>
    ensures { OnOk result (out.new.items ≡ out.old.items ++ kept (after.flip_array (in_orders (K.known know.now)) t.now y.now a.now)) }
{
    let within = is_from(know, y, 0) && reaches(know.upper(y, a, &PathOff::Nothing), -1);
    push_if(out, within, Fact::Neg(*t, *a))
}

fn push_flip_arrays<K: Know>(
    out: &mut Vec<Fact>,
    know: &K,
    t: &Path,
    y: &Path,
    arrays: &[Path],
) -> Result<(), AllocError>
    ensures { OnOk result (out.new.items ≡ out.old.items ++ kept (each_path (after.flip_array (in_orders (K.known know.now)) t.now y.now) arrays.now)) }
{
    for a in arrays {
        push_flip_array(out, know, t, y, a)?;
    }
    Ok(())
}

fn push_flip_by(out: &mut Vec<Fact>, t: &Path, y: &Path, fact: &Fact) -> Result<(), AllocError>
    ensures { OnOk result (out.new.items ≡ out.old.items ++ kept (after.flip_by [] t.now y.now fact.now)) }
{
    match fact {
        Fact::Search(p, a) => {
            push_upper_if(out, is_same_path(p, y), t, a, &PathOff::Nothing, -1)
        }
        _ => Ok(()),
    }
}

fn push_flips(
    out: &mut Vec<Fact>,
    t: &Path,
    y: &Path,
    on_operand: &[Fact],
) -> Result<(), AllocError>
    ensures { OnOk result (out.new.items ≡ out.old.items ++ kept (each (after.flip_by [] t.now y.now) on_operand.now)) }
{
    for fact in on_operand {
        push_flip_by(out, t, y, fact)?;
    }
    Ok(())
}

/// `t = ~y`.
pub(crate) fn push_flip<K: Know>(
    out: &mut Vec<Fact>,
    know: &K,
    on_operand: &[Fact],
    arrays: &[Path],
    t: &Path,
    y: &Path,
) -> Result<(), AllocError>
    ensures { OnOk result (out.new.items ≡ out.old.items ++ kept (each_path (after.flip_array (in_orders (K.known know.now)) t.now y.now) arrays.now ++ each (after.flip_by [] t.now y.now) on_operand.now)) }
{
    push_flip_arrays(out, know, t, y, arrays).and(push_flips(out, t, y, on_operand))
}
