//! The rest of the facts on a target.

ghost use Rattle.std.specs.Prelude.{◌≡◌, ◌++◌, OnOk};
ghost use Rattle.ix_facts.specs.Closure.{kept};
ghost use Rattle.ix_facts.specs.Exact.{if_so};
ghost use Rattle.ix_facts.specs.Facts.{in_orders};
ghost use Rattle.ix_transfer.specs.OverNamed as over;

use crate::along::push_along;
use crate::beside::{push_beside_lengths, push_by_ranges};
use crate::new_ends::{new_high, new_length, new_low};
use ix_core::{Fact, Literal, OpKind, Path, Type_};
use ix_facts::{Indexed, holds_arrays, holds_ints, is_array, is_int};
use std::alloc::AllocError;

/// Adds the rest of the facts on an int: along stored differences and bounds, and by ranges. `new` are the new facts, `t` is no int that is known.
pub fn push_finish_int<K: Indexed>(
    out: &mut Vec<Fact>,
    know: &K,
    new: &[Fact],
    t: &Path,
) -> Result<(), AllocError>
    ensures { OnOk result (out.new.items ≡ out.old.items ++ kept (over.finish_int (in_orders (K.known know.now)) (K.on_path know.now) (K.int_paths know.now) (K.array_paths know.now) new.now t.now)) }
{
    let (low, high) = (new_low(new, t), new_high(new, t));
    push_along(out, know, t, new).and(push_by_ranges(
        out,
        know,
        know.int_list(),
        know.array_list(),
        new,
        t,
        low,
        high,
    ))
}

/// Adds the rest of the facts on an array: the named ints that are at most its length, by ranges.
pub fn push_finish_array<K: Indexed>(
    out: &mut Vec<Fact>,
    know: &K,
    new: &[Fact],
    t: &Path,
) -> Result<(), AllocError>
    ensures { OnOk result (out.new.items ≡ out.old.items ++ kept (over.finish_array (in_orders (K.known know.now)) (K.on_path know.now) (K.int_paths know.now) (K.array_paths know.now) new.now t.now)) }
{
    push_beside_lengths(out, know, new, t, new_length(new, t), know.int_list())
}

fn push_int_if<K: Indexed>(
    out: &mut Vec<Fact>,
    know: &K,
    new: &[Fact],
    test: bool,
    t: &Path,
) -> Result<(), AllocError>
    ensures { OnOk result (out.new.items ≡ out.old.items ++ kept (if_so test (over.finish_int (in_orders (K.known know.now)) (K.on_path know.now) (K.int_paths know.now) (K.array_paths know.now) new.now t.now))) }
{
    if test {
        push_finish_int(out, know, new, t)
    } else {
        Ok(())
    }
}

fn push_array_if<K: Indexed>(
    out: &mut Vec<Fact>,
    know: &K,
    new: &[Fact],
    test: bool,
    t: &Path,
) -> Result<(), AllocError>
    ensures { OnOk result (out.new.items ≡ out.old.items ++ kept (if_so test (over.finish_array (in_orders (K.known know.now)) (K.on_path know.now) (K.int_paths know.now) (K.array_paths know.now) new.now t.now))) }
{
    if test {
        push_finish_array(out, know, new, t)
    } else {
        Ok(())
    }
}

/// Adds the rest of the facts by the type of the target: an int, an array or neither.
pub fn push_finished_by<K: Indexed>(
    out: &mut Vec<Fact>,
    know: &K,
    new: &[Fact],
    ty: &Type_,
    t: &Path,
) -> Result<(), AllocError>
    ensures { OnOk result (out.new.items ≡ out.old.items ++ kept (over.finished_by (in_orders (K.known know.now)) (K.on_path know.now) (K.int_paths know.now) (K.array_paths know.now) new.now ty.now t.now)) }
{
    push_int_if(out, know, new, is_int(ty), t).and(push_array_if(out, know, new, is_array(ty), t))
}

fn push_finished_load<K: Indexed>(
    out: &mut Vec<Fact>,
    know: &K,
    new: &[Fact],
    ty: &Type_,
    t: &Path,
) -> Result<(), AllocError>
    ensures { OnOk result (out.new.items ≡ out.old.items ++ kept (over.finished_load (in_orders (K.known know.now)) (K.on_path know.now) (K.int_paths know.now) (K.array_paths know.now) new.now t.now ty.now)) }
{
    push_int_if(out, know, new, holds_ints(ty), t).and(push_array_if(
        out,
        know,
        new,
        holds_arrays(ty),
        t,
    ))
}

fn push_finished_const<K: Indexed>(
    out: &mut Vec<Fact>,
    know: &K,
    new: &[Fact],
    value: &Literal,
    t: &Path,
) -> Result<(), AllocError>
    ensures { OnOk result (out.new.items ≡ out.old.items ++ kept (over.finished_const (in_orders (K.known know.now)) (K.on_path know.now) (K.int_paths know.now) (K.array_paths know.now) new.now t.now value.now)) }
{
    match value {
        Literal::Int(_) => push_finish_int(out, know, new, t),
        Literal::NullOf(ty) => push_array_if(out, know, new, is_array(ty), t),
        Literal::Bool(_) => Ok(()),
    }
}

/// Adds what the new facts of an operation give together with what is known, where nothing that is known names its target.
pub fn push_finished<K: Indexed>(
    out: &mut Vec<Fact>,
    know: &K,
    new: &[Fact],
    kind: &OpKind,
) -> Result<(), AllocError>
    ensures { OnOk result (out.new.items ≡ out.old.items ++ kept (over.finished (in_orders (K.known know.now)) (K.on_path know.now) (K.int_paths know.now) (K.array_paths know.now) new.now kind.now)) }
{
    match kind {
        OpKind::Const(t, value) => push_finished_const(out, know, new, value, &Path::Slot(*t)),
        OpKind::Copy(t, _, ty) => push_finished_by(out, know, new, ty, &Path::Slot(*t)),
        OpKind::Num(t, _, _, _) | OpKind::Unary(t, _, _) | OpKind::Length(t, _) => {
            push_finish_int(out, know, new, &Path::Slot(*t))
        }
        OpKind::NewArray(t, _, _) | OpKind::Fill(t, _, _) => {
            push_finish_array(out, know, new, &Path::Slot(*t))
        }
        OpKind::Load(t, _, _, ty) => push_finished_load(out, know, new, ty, &Path::Slot(*t)),
        _ => Ok(()),
    }
}
