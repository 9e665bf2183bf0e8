//! What each of the sixteen operations gives by its own rule.

ghost use Rattle.std.specs.Prelude.{◌≡◌, ◌++◌, [], length, OnOk};
ghost use Rattle.ix_core.specs.declared.fact.Path.TheVariants.{Slot};
ghost use Rattle.ix_facts.specs.Closure.{kept};
ghost use Rattle.ix_facts.specs.Facts.{in_orders};
ghost use Rattle.ix_transfer_rules.specs.OverParts as over;

use crate::copies::push_copied;
use crate::lengths::{push_length, push_new_array};
use crate::loaded::push_loaded;
use crate::operation::{push_num, push_unary};
use ix_core::{Fact, List, Literal, OpKind, Path, Profile, Type_, UnaryNum};
use ix_facts::{Indexed, Know, holds_arrays, is_array};
use ix_intervals::{push_fact, push_if};
use ix_num::Arith;
use std::alloc::AllocError;

/// A literal.
fn push_const(out: &mut Vec<Fact>, t: &Path, value: &Literal) -> Result<(), AllocError>
    ensures { OnOk result (out.new.items ≡ out.old.items ++ kept (over.const_facts t.now value.now)) }
{
    match value {
        Literal::Int(n) => push_fact(out, Fact::Rng(*t, *n as i64, *n as i64)),
        Literal::NullOf(ty) => {
            let array = is_array(ty);
            push_if(out, array, Fact::LenRng(*t, 0, 0)).and(push_if(out, array, Fact::Same(*t, *t)))
        }
        Literal::Bool(_) => Ok(()),
    }
}

/// An array of as many entries.
fn push_fill(out: &mut Vec<Fact>, t: &Path, entries: &List<u32>) -> Result<(), AllocError>
    ensures { OnOk result (out.new.items ≡ out.old.items ++ kept (over.fill_facts t.now (length entries.now))) }
{
    let count = entries.as_slice().len() as i64;
    push_fact(out, Fact::LenRng(*t, count, count)).and(push_fact(out, Fact::Same(*t, *t)))
}

/// A cell of an array of this type.
fn push_load(out: &mut Vec<Fact>, t: &Path, ty: &Type_) -> Result<(), AllocError>
    ensures { OnOk result (out.new.items ≡ out.old.items ++ kept (over.load_facts t.now ty.now)) }
{
    push_if(out, holds_arrays(ty), Fact::Same(*t, *t)).and(push_loaded(out, t, ty))
}

/// Adds the facts of `t = y op z`.
fn push_num_of<K: Indexed>(
    out: &mut Vec<Fact>,
    know: &K,
    profile: Profile,
    arith: Arith,
    t: &Path,
    y: &Path,
    z: &Path,
) -> Result<(), AllocError>
    ensures { OnOk result (out.new.items ≡ out.old.items ++ kept (over.num_facts (in_orders (K.known know.now)) (K.on_path know.now y.now) (K.on_path know.now z.now) (K.array_paths know.now) profile arith t.now y.now z.now)) }
{
    let (left, right) = (know.on(y), know.on(z));
    push_num(
        out,
        know,
        left,
        right,
        know.array_list(),
        profile,
        arith,
        t,
        y,
        z,
    )
}

fn push_unary_of<K: Indexed>(
    out: &mut Vec<Fact>,
    know: &K,
    profile: Profile,
    unary: UnaryNum,
    t: &Path,
    y: &Path,
) -> Result<(), AllocError>
    ensures { OnOk result (out.new.items ≡ out.old.items ++ kept (over.unary_facts (in_orders (K.known know.now)) (K.on_path know.now y.now) [] (K.array_paths know.now) profile unary t.now y.now)) }
{
    push_unary(
        out,
        know,
        know.on(y),
        know.array_list(),
        profile,
        unary,
        t,
        y,
    )
}

fn push_length_of<K: Indexed>(
    out: &mut Vec<Fact>,
    know: &K,
    t: &Path,
    a: &Path,
) -> Result<(), AllocError>
    ensures { OnOk result (out.new.items ≡ out.old.items ++ kept (over.length_facts (in_orders (K.known know.now)) (K.on_path know.now a.now) [] [] t.now a.now)) }
{
    push_length(out, know, know.on(a), t, a)
}

fn push_new_array_of<K: Indexed>(
    out: &mut Vec<Fact>,
    know: &K,
    t: &Path,
    n: &Path,
) -> Result<(), AllocError>
    ensures { OnOk result (out.new.items ≡ out.old.items ++ kept (over.new_array_facts (in_orders (K.known know.now)) (K.on_path know.now n.now) [] [] t.now n.now)) }
{
    push_new_array(out, know, know.on(n), t, n)
}

/// Adds what the operation gives of its target by its own rule, where nothing that is known names the target. Of `new`, `Store`, `Print`, calls and accesses to
/// fields there is none.
pub fn push_new_facts<K: Indexed>(
    out: &mut Vec<Fact>,
    know: &K,
    profile: Profile,
    kind: &OpKind,
) -> Result<(), AllocError>
    ensures facts { OnOk result (out.new.items ≡ out.old.items ++ kept (over.new_facts (in_orders (K.known know.now)) (K.on_path know.now) (K.array_paths know.now) profile kind.now)) }
{
    match kind {
        OpKind::Const(t, value) => push_const(out, &Path::Slot(*t), value),
        OpKind::Copy(t, s, ty) => {
            let source = Path::Slot(*s);
            push_copied(out, ty, &Path::Slot(*t), &source, know.on(&source))
        }
        OpKind::Num(t, arith, y, z) => {
            let (left, right) = (Path::Slot(*y), Path::Slot(*z));
            push_num_of(out, know, profile, *arith, &Path::Slot(*t), &left, &right)
        }
        OpKind::Unary(t, unary, y) => {
            push_unary_of(out, know, profile, *unary, &Path::Slot(*t), &Path::Slot(*y))
        }
        OpKind::Length(t, a) => push_length_of(out, know, &Path::Slot(*t), &Path::Slot(*a)),
        OpKind::NewArray(t, _, n) => push_new_array_of(out, know, &Path::Slot(*t), &Path::Slot(*n)),
        OpKind::Fill(t, _, entries) => push_fill(out, &Path::Slot(*t), entries),
        OpKind::Load(t, _, _, ty) => push_load(out, &Path::Slot(*t), ty),
        _ => Ok(()),
    }
}
