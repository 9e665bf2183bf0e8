//! What a copy gives.

ghost use Rattle.std.specs.Prelude.{◌≡◌, ◌++◌, ◌∷◌, [], ◌&&◌, OnOk};
ghost use Rattle.ix_facts.specs.Closure.{kept};
ghost use Rattle.ix_facts.specs.Exact.{if_so, each};
ghost use Rattle.ix_facts.specs.AfterOperation as after;
ghost use Rattle.ix_core.specs.declared.fact.Fact.TheVariants.{Rng, LenRng, Low, Same, IsLen, Sum, Search, Neg, Upper};

use ix_core::{Base, Fact, Path, PathOff, Type_};
use ix_facts::is_same_path;
use ix_intervals::{push_fact, push_if, push_less, push_upper_if};
use std::alloc::AllocError;

/// Adds facts of the copy in place of two paths of which one or both are copied.
fn push_copies(
    out: &mut Vec<Fact>,
    first: bool,
    second: bool,
    new_second: Fact,
    new_first: Fact,
    new_both: Fact,
) -> Result<(), AllocError>
    ensures { OnOk result (out.new.items ≡ out.old.items ++ (if_so second (new_second ∷ []) ++ (if_so first (new_first ∷ []) ++ if_so (first && second) (new_both ∷ [])))) }
{
    push_if(out, second, new_second)
        .and(push_if(out, first, new_first))
        .and(push_if(out, first && second, new_both))
}

fn push_same(out: &mut Vec<Fact>, t: &Path, s: &Path, a: &Path, b: &Path) -> Result<(), AllocError>
    ensures { OnOk result (out.new.items ≡ out.old.items ++ kept (after.copied_by t.now s.now (Same a.now b.now))) }
{
    push_copies(
        out,
        is_same_path(a, s),
        is_same_path(b, s),
        Fact::Same(*a, *t),
        Fact::Same(*t, *b),
        Fact::Same(*t, *t),
    )
}

fn push_is_len(
    out: &mut Vec<Fact>,
    t: &Path,
    s: &Path,
    p: &Path,
    a: &Path,
) -> Result<(), AllocError>
    ensures { OnOk result (out.new.items ≡ out.old.items ++ kept (after.copied_by t.now s.now (IsLen p.now a.now))) }
{
    push_copies(
        out,
        is_same_path(p, s),
        is_same_path(a, s),
        Fact::IsLen(*p, *t),
        Fact::IsLen(*t, *a),
        Fact::IsLen(*t, *t),
    )
}

fn push_search(
    out: &mut Vec<Fact>,
    t: &Path,
    s: &Path,
    p: &Path,
    a: &Path,
) -> Result<(), AllocError>
    ensures { OnOk result (out.new.items ≡ out.old.items ++ kept (after.copied_by t.now s.now (Search p.now a.now))) }
{
    push_copies(
        out,
        is_same_path(p, s),
        is_same_path(a, s),
        Fact::Search(*p, *t),
        Fact::Search(*t, *a),
        Fact::Search(*t, *t),
    )
}

fn push_negative(
    out: &mut Vec<Fact>,
    t: &Path,
    s: &Path,
    p: &Path,
    a: &Path,
) -> Result<(), AllocError>
    ensures { OnOk result (out.new.items ≡ out.old.items ++ kept (after.copied_by t.now s.now (Neg p.now a.now))) }
{
    push_copies(
        out,
        is_same_path(p, s),
        is_same_path(a, s),
        Fact::Neg(*p, *t),
        Fact::Neg(*t, *a),
        Fact::Neg(*t, *t),
    )
}

/// Each stored bound from the copied array's end, with the copy for the array.
fn push_array_copy(out: &mut Vec<Fact>, t: &Path, s: &Path, fact: &Fact) -> Result<(), AllocError>
    ensures { OnOk result (out.new.items ≡ out.old.items ++ kept (after.array_copied_by t.now s.now fact.now)) }
{
    match fact {
        Fact::Upper(p, a, offset, c) => {
            push_upper_if(out, is_same_path(a, s), p, t, offset, *c as i64)
        }
        _ => Ok(()),
    }
}

fn push_array_copies(
    out: &mut Vec<Fact>,
    t: &Path,
    s: &Path,
    on_source: &[Fact],
) -> Result<(), AllocError>
    ensures { OnOk result (out.new.items ≡ out.old.items ++ kept (each (after.array_copied_by t.now s.now) on_source.now)) }
{
    for fact in on_source {
        push_array_copy(out, t, s, fact)?;
    }
    Ok(())
}

/// `t = s`, of an array.
pub(crate) fn push_copied_array(
    out: &mut Vec<Fact>,
    t: &Path,
    s: &Path,
    on_source: &[Fact],
) -> Result<(), AllocError>
    ensures { OnOk result (out.new.items ≡ out.old.items ++ kept (after.copied_array on_source.now t.now s.now)) }
{
    push_fact(out, Fact::Same(*t, *s)).and(push_array_copies(out, t, s, on_source))
}

/// A sum of y and z with the copy for its parts.
fn push_parts(
    out: &mut Vec<Fact>,
    u: &Path,
    t: &Path,
    y_is: bool,
    z_is: bool,
    y: &Path,
    z: &Path,
) -> Result<(), AllocError>
    ensures { OnOk result (out.new.items ≡ out.old.items ++ (if_so z_is (Sum u.now y.now t.now ∷ []) ++ (if_so y_is (Sum u.now t.now z.now ∷ []) ++ if_so (y_is && z_is) (Sum u.now t.now t.now ∷ [])))) }
{
    push_copies(
        out,
        y_is,
        z_is,
        Fact::Sum(*u, *y, *t),
        Fact::Sum(*u, *t, *z),
        Fact::Sum(*u, *t, *t),
    )
}

fn push_sum_copies(
    out: &mut Vec<Fact>,
    t: &Path,
    s: &Path,
    u: &Path,
    y: &Path,
    z: &Path,
) -> Result<(), AllocError>
    ensures { OnOk result (out.new.items ≡ out.old.items ++ kept (after.copied_by t.now s.now (Sum u.now y.now z.now))) }
{
    let y_is = is_same_path(y, s);
    let z_is = is_same_path(z, s);
    push_parts(out, u, t, y_is, z_is, y, z)?;
    if is_same_path(u, s) {
        push_fact(out, Fact::Sum(*t, *y, *z)).and(push_parts(out, t, t, y_is, z_is, y, z))
    } else {
        Ok(())
    }
}

fn push_copy(out: &mut Vec<Fact>, t: &Path, s: &Path, fact: &Fact) -> Result<(), AllocError>
    ensures { OnOk result (out.new.items ≡ out.old.items ++ kept (after.copied_by t.now s.now fact.now)) }
{
    match fact {
        Fact::Rng(p, l, h) => push_if(out, is_same_path(p, s), Fact::Rng(*t, *l, *h)),
        Fact::LenRng(a, l, h) => push_if(out, is_same_path(a, s), Fact::LenRng(*t, *l, *h)),
        Fact::Low(p, c) => push_if(out, is_same_path(p, s), Fact::Low(*t, *c)),
        Fact::Same(a, b) => push_same(out, t, s, a, b),
        Fact::IsLen(p, a) => push_is_len(out, t, s, p, a),
        Fact::Search(p, a) => push_search(out, t, s, p, a),
        Fact::Neg(p, a) => push_negative(out, t, s, p, a),
        Fact::Sum(u, y, z) => push_sum_copies(out, t, s, u, y, z),
        _ => Ok(()),
    }
}

fn push_copies_of(
    out: &mut Vec<Fact>,
    t: &Path,
    s: &Path,
    on_source: &[Fact],
) -> Result<(), AllocError>
    ensures { OnOk result (out.new.items ≡ out.old.items ++ kept (each (after.copied_by t.now s.now) on_source.now)) }
{
    for fact in on_source {
        push_copy(out, t, s, fact)?;
    }
    Ok(())
}

/// `t = s`, of an int.
pub(crate) fn push_copied_int(
    out: &mut Vec<Fact>,
    t: &Path,
    s: &Path,
    on_source: &[Fact],
) -> Result<(), AllocError>
    ensures { OnOk result (out.new.items ≡ out.old.items ++ kept (after.copied_int on_source.now t.now s.now)) }
{
    push_less(out, t, s, 1)
        .and(push_less(out, s, t, 1))
        .and(push_copies_of(out, t, s, on_source))
}

/// `t = s`, by the type: nothing of a type that is neither int nor array.
pub fn push_copied(
    out: &mut Vec<Fact>,
    ty: &Type_,
    t: &Path,
    s: &Path,
    on_source: &[Fact],
) -> Result<(), AllocError>
    ensures { OnOk result (out.new.items ≡ out.old.items ++ kept (after.copied on_source.now ty.now t.now s.now)) }
{
    match ty {
        Type_::Plain(Base::Int) => push_copied_int(out, t, s, on_source),
        Type_::Array { .. } => push_copied_array(out, t, s, on_source),
        _ => Ok(()),
    }
}
