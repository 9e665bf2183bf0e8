//! The exact interval of an operation, and where its bounds may be used although a result may wrap.

ghost use Rattle.std.specs.Prelude.{◌≡◌, ◌++◌, ◌&&◌, IfSome, Option, Some, None, pos, ◌-ℤ◌, OnOk};
ghost use Rattle.std.specs.Int.{int_min};
ghost use Rattle.std.specs.Option.{option_map};
ghost use Rattle.ix_num.specs.declared.arith.Arith.TheVariants.{Add, Sub};
ghost use Rattle.ix_num.specs.Intervals.{IsWithin, all_ints, normal, interval};
ghost use Rattle.ix_num.specs.OpRanges.{op_range};
ghost use Rattle.ix_facts.specs.Fact.TheVariants.{Upper};
ghost use Rattle.ix_facts.specs.Bounds as spec;
ghost use Rattle.ix_facts.specs.Closure.{kept};
ghost use Rattle.ix_facts.specs.Exact as exact;
ghost use Rattle.ix_intervals.specs.OverPaths as over;
ghost use Rattle.ix_facts.specs.Facts.{in_orders};
ghost use Rattle.ix_facts.specs.Small.{IsBound, IsEnd};

use crate::push::{push_fact, push_if};
use ix_facts::{
    Fact, Know, Low, Path, PathOff, Profile, UnaryNum, is_same_path, lesser, low_table,
};
use ix_num::{Arith, Interval};
use std::alloc::AllocError;

/// From an int's lower bound to its upper limit.
fn operand<K: Know>(know: &K, p: &Path) -> Interval
    ensures { record {
      value : result ≡ exact.operand (in_orders (K.known know.now)) p.now;
      ints : IsWithin result all_ints;
    } }
{
    Interval {
        lo: know.lo(p),
        hi: know.hi(p),
    }
}

/// A sum that is below an array's length by this bound is at most this number.
fn below_length(high: i64, bound: Option<i64>) -> Option<i64>
    requires { record {
      high : IsBound high;
      bound : IfSome bound IsBound;
    } }
    ensures value { result ≡ option_map (λ c. high -ℤ pos 1 -ℤ c) bound }
{
    match bound {
        Some(c) => Some(high - 1 - c),
        None => None,
    }
}

fn sum_limit_at<K: Know>(know: &K, y: &Path, z: &Path, a: &Path) -> Option<i64>
    ensures value { result ≡ exact.sum_limit_at (in_orders (K.known know.now)) y.now z.now a.now }
{
    let high = know.len_hi(a);
    let bound = know.upper(y, a, &PathOff::Plus(*z));
    below_length(high, bound)
}

fn sum_limit<K: Know>(know: &K, arrays: &[Path], y: &Path, z: &Path) -> Option<i64>
    ensures value { result ≡ exact.least_at (exact.sum_limit_at (in_orders (K.known know.now)) y.now z.now) arrays.now }
{
    let mut limit = None;
    for a in arrays {
        limit = lesser(limit, sum_limit_at(know, y, z, a));
    }
    limit
}

/// The number is at least 1 - c.
fn turned(c: Option<i64>) -> Option<i64>
    requires { IfSome c IsEnd }
    ensures value { result ≡ option_map (λ c. pos 1 -ℤ c) c }
{
    match c {
        Some(n) => Some(1 - n),
        None => None,
    }
}

fn difference_low<K: Know>(know: &K, y: &Path, z: &Path) -> Option<i64>
    ensures value { result ≡ exact.difference_low (in_orders (K.known know.now)) y.now z.now }
{
    turned(know.difference(z, y))
}

fn one_less(c: Option<i64>) -> Option<i64>
    requires { IfSome c IsEnd }
    ensures value { result ≡ option_map (λ c. c -ℤ pos 1) c }
{
    match c {
        Some(n) => Some(n - 1),
        None => None,
    }
}

/// What is below a length by c is at most this number.
fn limit_under<K: Know>(know: &K, a: &Path, c: &i32) -> i64
    ensures value { result ≡ spec.length_high (in_orders (K.known know.now)) a.now -ℤ pos 1 -ℤ c.now }
{
    know.len_hi(a) - 1 - *c as i64
}

fn limit_if<K: Know>(
    know: &K,
    p: &Path,
    y: &Path,
    q: &Path,
    z: &Path,
    a: &Path,
    c: &i32,
) -> Option<i64>
    ensures value { result ≡ spec.when (spec.is_path p.now y.now && spec.is_path q.now z.now) (Some (spec.length_high (in_orders (K.known know.now)) a.now -ℤ pos 1 -ℤ c.now)) }
{
    if is_same_path(p, y) && is_same_path(q, z) {
        Some(limit_under(know, a, c))
    } else {
        None
    }
}

fn limit_at<K: Know>(
    know: &K,
    y: &Path,
    z: &Path,
    p: &Path,
    a: &Path,
    offset: &PathOff,
    c: &i32,
) -> Option<i64>
    ensures value { result ≡ exact.difference_limit_by (in_orders (K.known know.now)) y.now z.now (Upper p.now a.now offset.now c.now) }
{
    match offset {
        PathOff::Minus(q) => limit_if(know, p, y, q, z, a, c),
        _ => None,
    }
}

fn difference_limit_by<K: Know>(know: &K, y: &Path, z: &Path, fact: &Fact) -> Option<i64>
    ensures value { result ≡ exact.difference_limit_by (in_orders (K.known know.now)) y.now z.now fact.now }
{
    match fact {
        Fact::Upper(p, a, offset, c) => limit_at(know, y, z, p, a, offset, c),
        _ => None,
    }
}

fn stored_limit<K: Know>(know: &K, on_left: &[Fact], y: &Path, z: &Path) -> Option<i64>
    ensures value { result ≡ spec.least (exact.difference_limit_by (in_orders (K.known know.now)) y.now z.now) on_left.now }
{
    let mut limit = None;
    for fact in on_left {
        limit = lesser(limit, difference_limit_by(know, y, z, fact));
    }
    limit
}

fn difference_limit<K: Know>(know: &K, on_left: &[Fact], y: &Path, z: &Path) -> Option<i64>
    ensures value { result ≡ spec.best int_min (option_map (λ c. c -ℤ pos 1) (spec.fact_less (in_orders (K.known know.now)) y.now z.now)) (spec.least (exact.difference_limit_by (in_orders (K.known know.now)) y.now z.now) on_left.now) }
{
    lesser(
        one_less(know.difference(y, z)),
        stored_limit(know, on_left, y, z),
    )
}

/// The interval, met with what is at least the one number and at most the other.
fn met_with(i: Interval, low: Option<i64>, high: Option<i64>) -> Interval
    ensures value { result ≡ exact.met_with i low high }
{
    let lo = match low {
        Some(n) => i.lo.max(n),
        None => i.lo,
    };
    let hi = match high {
        Some(n) => i.hi.min(n),
        None => i.hi,
    };
    Interval { lo, hi }
}

/// The same numbers; 1 to 0 where there are none.
fn normal_of(i: Interval) -> Interval
    ensures value { result ≡ normal i }
{
    if i.is_empty() { Interval::EMPTY } else { i }
}

/// The interval of a sum.
fn sum_ends<K: Know>(know: &K, arrays: &[Path], y: &Path, z: &Path) -> Interval
    ensures value { result ≡ exact.met_with (op_range Add (exact.operand (in_orders (K.known know.now)) y.now) (exact.operand (in_orders (K.known know.now)) z.now)) None (exact.least_at (exact.sum_limit_at (in_orders (K.known know.now)) y.now z.now) arrays.now) }
{
    let range = Interval::of_op(Arith::Add, operand(know, y), operand(know, z));
    met_with(range, None, sum_limit(know, arrays, y, z))
}

/// The interval of a difference.
fn difference_ends<K: Know>(know: &K, on_left: &[Fact], y: &Path, z: &Path) -> Interval
    ensures value { result ≡ exact.met_with (op_range Sub (exact.operand (in_orders (K.known know.now)) y.now) (exact.operand (in_orders (K.known know.now)) z.now)) (exact.difference_low (in_orders (K.known know.now)) y.now z.now) (spec.best int_min (option_map (λ c. c -ℤ pos 1) (spec.fact_less (in_orders (K.known know.now)) y.now z.now)) (spec.least (exact.difference_limit_by (in_orders (K.known know.now)) y.now z.now) on_left.now)) }
{
    let range = Interval::of_op(Arith::Sub, operand(know, y), operand(know, z));
    met_with(
        range,
        difference_low(know, y, z),
        difference_limit(know, on_left, y, z),
    )
}

/// The interval of another operator.
fn plain_ends<K: Know>(know: &K, arith: Arith, y: &Path, z: &Path) -> Interval
    ensures value { result ≡ op_range arith (exact.operand (in_orders (K.known know.now)) y.now) (exact.operand (in_orders (K.known know.now)) z.now) }
{
    Interval::of_op(arith, operand(know, y), operand(know, z))
}

fn ends<K: Know>(
    know: &K,
    on_left: &[Fact],
    arrays: &[Path],
    arith: Arith,
    y: &Path,
    z: &Path,
) -> Interval
    ensures value { result ≡ over.exact_ends (in_orders (K.known know.now)) on_left.now arrays.now arith y.now z.now }
{
    match arith {
        Arith::Add => sum_ends(know, arrays, y, z),
        Arith::Sub => difference_ends(know, on_left, y, z),
        _ => plain_ends(know, arith, y, z),
    }
}

/// The exact interval of `y op z`: from 1 to 0 where there is no result. `on_left` are the facts that a difference goes over, and `arrays` the arrays that a
/// sum goes over. Constant Value Checker, "Value range"; Index Checker, "Upper bounds".
pub fn exact_interval<K: Know>(
    know: &K,
    on_left: &[Fact],
    arrays: &[Path],
    arith: Arith,
    y: &Path,
    z: &Path,
) -> Interval
    ensures value { result ≡ over.exact_range (in_orders (K.known know.now)) on_left.now arrays.now arith y.now z.now }
{
    normal_of(ends(know, on_left, arrays, arith, y, z))
}

/// The exact interval of `-y` or `~y` (JLS 15.15.4, 15.15.5).
pub fn unary_interval<K: Know>(know: &K, op: UnaryNum, y: &Path) -> Interval
    ensures value { result ≡ exact.exact_unary (in_orders (K.known know.now)) op y.now }
{
    match op {
        UnaryNum::Neg => operand(know, y).neg(),
        UnaryNum::Flip => operand(know, y).not(),
    }
}

fn lies_in_int(i: Interval) -> bool
    ensures { result ≡ exact.lies_in_int i }
{
    -2147483648 <= i.lo && i.hi <= 2147483647
}

/// Whether bounds may count the exact result as the result: in the profile `Ideal` always, in `Int32` where the exact interval lies within the ints.
pub fn fits(profile: Profile, i: Interval) -> bool
    ensures { result ≡ exact.fits profile i }
{
    match profile {
        Profile::Ideal => true,
        Profile::Int32 => lies_in_int(i),
    }
}

/// Adds that the result is in its exact interval, where that lies within the ints.
pub fn push_range(out: &mut Vec<Fact>, t: &Path, i: Interval) -> Result<(), AllocError>
    ensures { OnOk result (out.new.items ≡ out.old.items ++ kept (exact.range_facts t.now i)) }
{
    push_if(out, lies_in_int(i), Fact::Rng(*t, i.lo, i.hi))
}

fn push_class(out: &mut Vec<Fact>, t: &Path, known: Low) -> Result<(), AllocError>
    ensures { OnOk result (out.new.items ≡ out.old.items ++ kept (exact.class_facts t.now known)) }
{
    match known {
        Low::Unknown => Ok(()),
        Low::MinusOne => push_fact(out, Fact::Low(*t, -1)),
        Low::Zero => push_fact(out, Fact::Low(*t, 0)),
        Low::One => push_fact(out, Fact::Low(*t, 1)),
    }
}

/// Adds the classes of a result, where the exact result counts: that of its interval's low end, and the low table's.
pub fn push_low(
    out: &mut Vec<Fact>,
    profile: Profile,
    t: &Path,
    i: Interval,
    table: Low,
) -> Result<(), AllocError>
    ensures { OnOk result (out.new.items ≡ out.old.items ++ kept (exact.low_facts profile t.now i table)) }
{
    if fits(profile, i) {
        push_class(out, t, Low::of_number(i.lo)).and(push_class(out, t, table))
    } else {
        Ok(())
    }
}

/// The low table's answer for two operands. Index Checker, "Lower bounds".
pub fn table_class<K: Know>(know: &K, op: Arith, y: &Path, z: &Path) -> Low
    ensures { result ≡ exact.table_class (in_orders (K.known know.now)) op y.now z.now }
{
    low_table().find(op, Low::of_number(know.lo(y)), Low::of_number(know.lo(z)))
}
