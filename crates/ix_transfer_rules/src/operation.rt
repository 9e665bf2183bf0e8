//! All that an operation gives by its own rule.

ghost use Rattle.std.specs.Prelude.{◌≡◌, ◌++◌, [], OnOk, pos};
ghost use Rattle.ix_facts.specs.Closure.{kept};
ghost use Rattle.ix_facts.specs.Exact as exact;
ghost use Rattle.ix_facts.specs.Facts.{in_orders};
ghost use Rattle.ix_facts.specs.AfterOperation as after;
ghost use Rattle.ix_intervals.specs.OverPaths.{exact_range};
ghost use Rattle.ix_transfer_rules.specs.OverParts as over;

use crate::lengths::push_flip;
use crate::plain::{push_and, push_half, push_product, push_quotient, push_remainder, push_shift};
use crate::sums::{push_difference, push_sum};
use ix_core::{Fact, Path, Profile, UnaryNum};
use ix_facts::{Know, Low};
use ix_intervals::{exact_interval, fits, push_low, push_range, table_class, unary_interval};
use ix_num::{Arith, Interval};
use std::alloc::AllocError;

/// The range and the classes of a result.
fn push_result(
    out: &mut Vec<Fact>,
    profile: Profile,
    t: &Path,
    i: Interval,
    table: Low,
) -> Result<(), AllocError>
    ensures { OnOk result (out.new.items ≡ out.old.items ++ kept (exact.range_facts t.now i ++ exact.low_facts profile t.now i table)) }
{
    push_range(out, t, i).and(push_low(out, profile, t, i, table))
}

/// `t = y / z`, and the half of a sum.
fn push_division<K: Know>(
    out: &mut Vec<Fact>,
    know: &K,
    on_left: &[Fact],
    t: &Path,
    y: &Path,
    z: &Path,
) -> Result<(), AllocError>
    ensures { OnOk result (out.new.items ≡ out.old.items ++ kept (after.quotient_facts (in_orders (K.known know.now)) t.now y.now z.now ++ over.half_facts (in_orders (K.known know.now)) on_left.now [] [] (pos 2) t.now y.now z.now)) }
{
    push_quotient(out, know, t, y, z).and(push_half(out, know, on_left, 2, t, y, z))
}

/// `t = y >> z` and `t = y >>> z`, and the half of a sum.
fn push_right_shift<K: Know>(
    out: &mut Vec<Fact>,
    know: &K,
    on_left: &[Fact],
    t: &Path,
    y: &Path,
    z: &Path,
) -> Result<(), AllocError>
    ensures { OnOk result (out.new.items ≡ out.old.items ++ kept (after.shift_facts (in_orders (K.known know.now)) t.now y.now ++ over.half_facts (in_orders (K.known know.now)) on_left.now [] [] (pos 1) t.now y.now z.now)) }
{
    push_shift(out, know, t, y).and(push_half(out, know, on_left, 1, t, y, z))
}

/// What an operator gives besides the range and the classes of its result; `counts` says whether bounds may count the exact result.
fn push_arith<K: Know>(
    out: &mut Vec<Fact>,
    know: &K,
    on_left: &[Fact],
    on_right: &[Fact],
    arrays: &[Path],
    profile: Profile,
    counts: bool,
    arith: Arith,
    t: &Path,
    y: &Path,
    z: &Path,
) -> Result<(), AllocError>
    requires counts { counts ≡ exact.fits profile (exact_range (in_orders (K.known know.now)) on_left.now arrays.now arith y.now z.now) }
    ensures { OnOk result (out.new.items ≡ out.old.items ++ kept (over.arith_facts (in_orders (K.known know.now)) on_left.now on_right.now arrays.now profile arith t.now y.now z.now)) }
{
    match arith {
        Arith::Add if counts => push_sum(out, know, on_left, on_right, arrays, t, y, z),
        Arith::Sub if counts => push_difference(out, know, arrays, t, y, z),
        Arith::Mul if counts => push_product(out, know, t, y, z),
        Arith::Div => push_division(out, know, on_left, t, y, z),
        Arith::Rem => push_remainder(out, know, t, y, z),
        Arith::And => push_and(out, know, t, y, z),
        Arith::Shr | Arith::Ushr => push_right_shift(out, know, on_left, t, y, z),
        Arith::Add | Arith::Sub | Arith::Mul => Ok(()),
        Arith::Or | Arith::Xor | Arith::Shl => Ok(()),
    }
}

/// `t = y op z`.
pub(crate) fn push_num<K: Know>(
    out: &mut Vec<Fact>,
    know: &K,
    on_left: &[Fact],
    on_right: &[Fact],
    arrays: &[Path],
    profile: Profile,
    arith: Arith,
    t: &Path,
    y: &Path,
    z: &Path,
) -> Result<(), AllocError>
    ensures { OnOk result (out.new.items ≡ out.old.items ++ kept (over.num_facts (in_orders (K.known know.now)) on_left.now on_right.now arrays.now profile arith t.now y.now z.now)) }
{
    let i = exact_interval(know, on_left, arrays, arith, y, z);
    push_result(out, profile, t, i, table_class(know, arith, y, z)).and(push_arith(
        out,
        know,
        on_left,
        on_right,
        arrays,
        profile,
        fits(profile, i),
        arith,
        t,
        y,
        z,
    ))
}

/// `t = -y` and `t = ~y`.
pub(crate) fn push_unary<K: Know>(
    out: &mut Vec<Fact>,
    know: &K,
    on_operand: &[Fact],
    arrays: &[Path],
    profile: Profile,
    unary: UnaryNum,
    t: &Path,
    y: &Path,
) -> Result<(), AllocError>
    ensures { OnOk result (out.new.items ≡ out.old.items ++ kept (over.unary_facts (in_orders (K.known know.now)) on_operand.now [] arrays.now profile unary t.now y.now)) }
{
    let i = unary_interval(know, unary, y);
    push_result(out, profile, t, i, Low::Unknown)?;
    match unary {
        UnaryNum::Neg => Ok(()),
        UnaryNum::Flip => push_flip(out, know, on_operand, arrays, t, y),
    }
}
