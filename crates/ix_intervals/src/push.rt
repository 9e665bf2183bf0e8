//! One fact more, where its constant is kept.

ghost use Rattle.std.specs.Prelude.{◌≡◌, ◌++◌, ◌∷◌, [], Option, OnOk};
ghost use Rattle.ix_facts.specs.Fact.TheVariants.{Less, Upper};
ghost use Rattle.ix_facts.specs.Closure.{kept};
ghost use Rattle.ix_facts.specs.Exact.{if_so, if_some};

use ix_facts::{Fact, Path, PathOff};
use std::alloc::AllocError;

/// Adds the fact. The only error is want of memory.
pub fn push_fact(out: &mut Vec<Fact>, fact: Fact) -> Result<(), AllocError>
    ensures { OnOk result (out.new.items ≡ out.old.items ++ fact ∷ []) }
{
    out.push(fact).map_err(AllocError::from)
}

/// Adds `p < q + c`, where the constant is kept.
pub fn push_less(out: &mut Vec<Fact>, p: &Path, q: &Path, c: i64) -> Result<(), AllocError>
    ensures { OnOk result (out.new.items ≡ out.old.items ++ kept (Less p.now q.now c ∷ [])) }
{
    if c > 2147483647 {
        return Ok(());
    }
    push_fact(out, Fact::Less(*p, *q, c.max(-2147483648) as i32))
}

/// Adds `p + offset + c < a.length`, where the constant is kept.
pub fn push_upper(
    out: &mut Vec<Fact>,
    p: &Path,
    a: &Path,
    offset: &PathOff,
    c: i64,
) -> Result<(), AllocError>
    ensures { OnOk result (out.new.items ≡ out.old.items ++ kept (Upper p.now a.now offset.now c ∷ [])) }
{
    if c < -2147483648 {
        return Ok(());
    }
    push_fact(out, Fact::Upper(*p, *a, *offset, c.min(2147483647) as i32))
}

/// Adds `p < q + c`, where there is such a number.
pub fn push_some_less(
    out: &mut Vec<Fact>,
    p: &Path,
    q: &Path,
    c: Option<i64>,
) -> Result<(), AllocError>
    ensures { OnOk result (out.new.items ≡ out.old.items ++ kept (if_some (Less p.now q.now) c)) }
{
    match c {
        Some(c) => push_less(out, p, q, c),
        None => Ok(()),
    }
}

/// Adds `p + offset + c < a.length`, where there is such a number.
pub fn push_some_upper(
    out: &mut Vec<Fact>,
    p: &Path,
    a: &Path,
    offset: &PathOff,
    c: Option<i64>,
) -> Result<(), AllocError>
    ensures { OnOk result (out.new.items ≡ out.old.items ++ kept (if_some (Upper p.now a.now offset.now) c)) }
{
    match c {
        Some(c) => push_upper(out, p, a, offset, c),
        None => Ok(()),
    }
}

/// Adds `p < q + c`, where the test is true.
pub fn push_less_if(
    out: &mut Vec<Fact>,
    test: bool,
    p: &Path,
    q: &Path,
    c: i64,
) -> Result<(), AllocError>
    ensures { OnOk result (out.new.items ≡ out.old.items ++ kept (if_so test (Less p.now q.now c ∷ []))) }
{
    if test {
        push_less(out, p, q, c)
    } else {
        Ok(())
    }
}

/// Adds `p + offset + c < a.length`, where the test is true.
pub fn push_upper_if(
    out: &mut Vec<Fact>,
    test: bool,
    p: &Path,
    a: &Path,
    offset: &PathOff,
    c: i64,
) -> Result<(), AllocError>
    ensures { OnOk result (out.new.items ≡ out.old.items ++ kept (if_so test (Upper p.now a.now offset.now c ∷ []))) }
{
    if test {
        push_upper(out, p, a, offset, c)
    } else {
        Ok(())
    }
}

/// Adds the fact, where the test is true.
pub fn push_if(out: &mut Vec<Fact>, test: bool, fact: Fact) -> Result<(), AllocError>
    ensures { OnOk result (out.new.items ≡ out.old.items ++ if_so test (fact ∷ [])) }
{
    if test { push_fact(out, fact) } else { Ok(()) }
}
