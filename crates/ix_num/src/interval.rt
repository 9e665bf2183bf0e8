//! Intervals of whole numbers.

ghost use Rattle.std.specs.Prelude.{◌≡◌, ◌↔◌, ◌<◌, ℤ, neg_ℤ, ◌≤ℤ◌, IsTrue, IfSome};
ghost use Rattle.ix_num.specs.Ints.{IsInt, greatest_int};
ghost use Rattle.ix_num.specs.Arithmetic.{exact_of, java_of, flip_of, shift_distance};
ghost use Rattle.ix_num.specs.Intervals.{Includes, IsWithin, IsEmpty, IsIntRange, all_ints, includes, is_empty, normal, meet_of, hull_of, neg_of, not_of};
ghost use Rattle.ix_num.specs.declared.interval.Interval.{Interval};
ghost use Rattle.ix_num.specs.OpRanges.{op_range, row_of, add_range, sub_range, mul_range, quotients_by, div_range, remainder_limit, rem_range, and_range, or_range, xor_range, shr_range, ushr_range, greatest_after, hull_of_two, has_divisor, is_single, shifted_by, remainders_within};

use crate::arith::Arith;

/// The whole numbers from `lo` to `hi`, both included: none where `lo > hi`.
#[derive(Clone, Copy)]
pub struct Interval {
    pub lo: i64,
    pub hi: i64,
}

impl Interval {
    /// No number. Each operation that gives an empty interval gives this one.
    pub const EMPTY: Interval = Interval { lo: 1, hi: 0 };

    /// All ints.
    pub const ALL_INTS: Interval = Interval {
        lo: -2147483648,
        hi: 2147483647,
    };

    /// Whether it includes no number.
    pub fn is_empty(self) -> bool
        ensures { record {
          value : result ≡ is_empty self;
          empty : IsTrue result ↔ IsEmpty self;
        } }
    {
        self.lo > self.hi
    }

    /// Whether `n` lies between the ends.
    pub fn includes(self, n: i64) -> bool
        ensures { record {
          value : result ≡ includes self n;
          member : IsTrue result ↔ Includes self n;
        } }
    {
        self.lo <= n && n <= self.hi
    }

    /// Whether each number of `self` is in `other`.
    pub fn is_within(self, other: Interval) -> bool
        ensures { IsTrue result ↔ IsWithin self other }
    {
        self.is_empty() || (other.lo <= self.lo && self.hi <= other.hi)
    }

    /// All numbers that are in both.
    pub fn meet(self, other: Interval) -> Interval
        ensures value { result ≡ meet_of self other }
        ensures common { (n : ℤ) → Includes result n ↔ (Includes self n × Includes other n) }
        ensures monotone { (i j : Interval) → IsWithin i self → IsWithin j other
            → IsWithin (meet_of i j) result }
    {
        let lo = self.lo.max(other.lo);
        let hi = self.hi.min(other.hi);
        Interval { lo, hi }.normal()
    }

    /// The same numbers, and `EMPTY` where there are none.
    fn normal(self) -> Interval
        ensures { result ≡ normal self }
    {
        if self.is_empty() {
            Interval::EMPTY
        } else {
            self
        }
    }

    /// All numbers from the least of the two to the greatest: the least interval that encloses both.
    pub fn hull(self, other: Interval) -> Interval
        ensures value { result ≡ hull_of self other }
        ensures left { IsWithin self result }
        ensures right { IsWithin other result }
        ensures least { (i : Interval) → IsWithin self i → IsWithin other i → IsWithin result i }
        ensures monotone { (i j : Interval) → IsWithin i self → IsWithin j other
            → IsWithin (hull_of i j) result }
    {
        if self.is_empty() {
            other.normal()
        } else if other.is_empty() {
            self
        } else {
            Interval {
                lo: self.lo.min(other.lo),
                hi: self.hi.max(other.hi),
            }
        }
    }

    /// All negated numbers.
    pub fn neg(self) -> Interval
        requires { IsWithin self all_ints }
        ensures value { result ≡ neg_of self }
        ensures negated { (n : ℤ) → Includes result n ↔ Includes self (neg_ℤ n) }
        ensures monotone { (i : Interval) → IsWithin i self → IsWithin (neg_of i) result }
    {
        if self.is_empty() {
            return Interval::EMPTY;
        }
        Interval {
            lo: -self.hi,
            hi: -self.lo,
        }
    }

    /// All flipped numbers: `~n`, which is `-n - 1`, of each n.
    pub fn not(self) -> Interval
        ensures value { result ≡ not_of self }
        ensures flipped { (n : ℤ) → Includes result n ↔ Includes self (flip_of n) }
        ensures monotone { (i : Interval) → IsWithin i self → IsWithin (not_of i) result }
    {
        if self.is_empty() {
            return Interval::EMPTY;
        }
        Interval {
            lo: -1 - self.hi,
            hi: -1 - self.lo,
        }
    }

    /// The interval of what `op` gives of an operand in `x` and one in `y`, by the row of `op`: it includes every exact result,
    /// Java's result wherever the exact one is an int, and grows with its operands. It is empty where an operand is.
    pub fn of_op(op: Arith, x: Interval, y: Interval) -> Interval
        requires { record {
          left : IsWithin x all_ints;
          right : IsWithin y all_ints;
        } }
        ensures range { result ≡ op_range op x y }
        ensures exact { (m n : ℤ) → Includes x m → Includes y n
            → IfSome (exact_of op m n) (Includes result) }

        // Java's result is the exact one where that is an int.
        ensures java { (m n : ℤ) → Includes x m → Includes y n
            → IfSome (exact_of op m n) (λ e. IsInt e → IfSome (java_of op m n) (Includes result)) }

        ensures monotone { (i j : Interval) → IsWithin i x → IsWithin j y
            → IsWithin (op_range op i j) result }
    {
        if x.is_empty() || y.is_empty() {
            return Interval::EMPTY;
        }
        Interval::row(op, x, y)
    }

    /// The row of `op`, at operands that are not empty.
    fn row(op: Arith, x: Interval, y: Interval) -> Interval
        requires { record {
          left : IsIntRange x;
          right : IsIntRange y;
        } }
        ensures { result ≡ row_of op x y }
    {
        match op {
            Arith::Add => x.add(y),
            Arith::Sub => x.sub(y),
            Arith::Mul => x.mul(y),
            Arith::Div => x.div(y),
            Arith::Rem => x.rem(y),
            Arith::And => x.and(y),
            Arith::Or => x.or(y),
            Arith::Xor => x.xor(y),
            Arith::Shl => Interval::ALL_INTS,
            Arith::Shr => x.shr(y),
            Arith::Ushr => x.ushr(y),
        }
    }

    fn add(self, other: Interval) -> Interval
        requires { record {
          left : IsIntRange self;
          right : IsIntRange other;
        } }
        ensures { result ≡ add_range self other }
    {
        Interval {
            lo: self.lo + other.lo,
            hi: self.hi + other.hi,
        }
    }

    fn sub(self, other: Interval) -> Interval
        requires { record {
          left : IsIntRange self;
          right : IsIntRange other;
        } }
        ensures { result ≡ sub_range self other }
    {
        Interval {
            lo: self.lo - other.hi,
            hi: self.hi - other.lo,
        }
    }

    fn mul(self, other: Interval) -> Interval
        requires { record {
          left : IsIntRange self;
          right : IsIntRange other;
        } }
        ensures { result ≡ mul_range self other }
    {
        let p = self.lo * other.lo;
        let q = self.lo * other.hi;
        let r = self.hi * other.lo;
        let s = self.hi * other.hi;
        hull_of_two(p, q).hull(hull_of_two(r, s))
    }

    /// The quotients of the ends by `divisor`, where it is in `other` and is not 0.
    fn quotients_by(self, other: Interval, divisor: i64) -> Interval
        requires left { IsIntRange self }
        ensures { result ≡ quotients_by self other divisor }
    {
        if other.has_divisor(divisor) {
            return hull_of_two(self.lo / divisor, self.hi / divisor);
        }
        Interval::EMPTY
    }

    fn has_divisor(self, divisor: i64) -> bool
        ensures { result ≡ has_divisor self divisor }
    {
        self.includes(divisor) && divisor != 0
    }

    fn div(self, other: Interval) -> Interval
        requires left { IsIntRange self }
        ensures { result ≡ div_range self other }
    {
        let by_ends = self
            .quotients_by(other, other.lo)
            .hull(self.quotients_by(other, other.hi));
        let by_units = self
            .quotients_by(other, -1)
            .hull(self.quotients_by(other, 1));
        by_ends.hull(by_units)
    }

    fn rem(self, other: Interval) -> Interval
        requires { record {
          left : IsIntRange self;
          right : IsIntRange other;
        } }
        ensures { result ≡ rem_range self other }
    {
        self.remainders_within(other.remainder_limit())
    }

    fn remainder_limit(self) -> i64
        requires { IsIntRange self }
        ensures { record {
          value : result ≡ remainder_limit self;
          limit : result ≤ℤ greatest_int;
        } }
    {
        self.lo.abs().max(self.hi.abs()) - 1
    }

    fn remainders_within(self, limit: i64) -> Interval
        requires limit { limit ≤ℤ greatest_int }
        ensures { result ≡ remainders_within self limit }
    {
        if limit < 0 {
            return Interval::EMPTY;
        }
        Interval {
            lo: self.lo.min(0).max(-limit),
            hi: self.hi.max(0).min(limit),
        }
    }

    fn and(self, other: Interval) -> Interval
        ensures { result ≡ and_range self other }
    {
        match (self.lo >= 0, other.lo >= 0) {
            (true, true) => Interval {
                lo: 0,
                hi: self.hi.min(other.hi),
            },
            (true, false) => Interval { lo: 0, hi: self.hi },
            (false, true) => Interval {
                lo: 0,
                hi: other.hi,
            },
            (false, false) => Interval::ALL_INTS,
        }
    }

    fn or(self, other: Interval) -> Interval
        ensures { result ≡ or_range self other }
    {
        if self.lo >= 0 && other.lo >= 0 {
            return Interval {
                lo: self.lo.max(other.lo),
                hi: 2147483647,
            };
        }
        Interval::ALL_INTS
    }

    fn xor(self, other: Interval) -> Interval
        ensures { result ≡ xor_range self other }
    {
        if self.lo >= 0 && other.lo >= 0 {
            return Interval {
                lo: 0,
                hi: 2147483647,
            };
        }
        Interval::ALL_INTS
    }

    fn shr(self, other: Interval) -> Interval
        requires right { IsIntRange other }
        ensures { result ≡ shr_range self other }
    {
        if other.is_single() {
            return self.shifted_by(shift_distance(other.lo));
        }
        Interval {
            lo: self.lo.min(0),
            hi: self.hi.max(-1),
        }
    }

    fn is_single(self) -> bool
        ensures { result ≡ is_single self }
    {
        self.lo == self.hi
    }

    fn shifted_by(self, distance: u32) -> Interval
        requires { distance < 32 }
        ensures { result ≡ shifted_by self distance }
    {
        Interval {
            lo: self.lo >> distance,
            hi: self.hi >> distance,
        }
    }

    fn ushr(self, other: Interval) -> Interval
        requires right { IsIntRange other }
        ensures { result ≡ ushr_range self other }
    {
        if self.lo >= 0 {
            return self.shr(other);
        }
        let distance = shift_distance(other.lo);
        if other.is_single() && distance > 0 {
            return Interval {
                lo: 0,
                hi: greatest_after(distance),
            };
        }
        Interval::ALL_INTS
    }
}

/// From the lesser of two numbers to the greater.
fn hull_of_two(p: i64, q: i64) -> Interval
    ensures { result ≡ hull_of_two p q }
{
    Interval {
        lo: p.min(q),
        hi: p.max(q),
    }
}

/// The low five bits of `n`.
fn shift_distance(n: i64) -> u32
    requires { IsInt n }
    ensures { record {
      value : result ≡ shift_distance n;
      below : result < 32;
    } }
{
    (n & 31) as u32
}

/// The greatest number of `32 - distance` bits.
fn greatest_after(distance: u32) -> i64
    requires { distance < 32 }
    ensures { result ≡ greatest_after distance }
{
    (1 << (32 - distance)) - 1
}
