//! The better of two numbers, and sums of a few.

ghost use Rattle.std.specs.Prelude.{◌≡◌, IfSome, pos, ◌+ℤ◌, ◌-ℤ◌};
ghost use Rattle.std.specs.Option.{option_map};
ghost use Rattle.ix_num.specs.Ints.{IsInt};
ghost use Rattle.ix_facts.specs.Bounds as spec;
ghost use Rattle.ix_facts.specs.Small.{IsEnd, IsLimit, IsBound};

pub(crate) fn at_least(default: i64, number: Option<i64>) -> i64
    ensures { result ≡ spec.at_least default number }
{
    match number {
        None => default,
        Some(n) => default.max(n),
    }
}

pub(crate) fn at_most(default: i64, number: Option<i64>) -> i64
    ensures { result ≡ spec.at_most default number }
{
    match number {
        None => default,
        Some(n) => default.min(n),
    }
}

/// The least number above `low - c`.
pub fn past(low: i64, c: i64) -> i64
    requires { record {
      low : IsEnd low;
      constant : IsInt c;
    } }
    ensures { record {
      value : result ≡ low -ℤ c +ℤ pos 1;
      small : IsLimit result;
    } }
{
    low - c + 1
}

/// The greatest number below `high + c`.
pub fn short_of(high: i64, c: i64) -> i64
    requires { record {
      high : IsEnd high;
      constant : IsInt c;
    } }
    ensures { record {
      value : result ≡ high +ℤ c -ℤ pos 1;
      small : IsLimit result;
    } }
{
    high + c - 1
}

/// The greatest number n with `n + c < size`.
pub fn within(size: i64, c: i64) -> i64
    requires { record {
      size : IsEnd size;
      constant : IsInt c;
    } }
    ensures { record {
      value : result ≡ size -ℤ pos 1 -ℤ c;
      small : IsLimit result;
    } }
{
    size - 1 - c
}

pub(crate) fn negated(number: Option<i64>) -> Option<i64>
    requires { IfSome number IsInt }
    ensures value { result ≡ option_map (λ c. pos 0 -ℤ c) number }
    ensures small { IfSome result IsEnd }
{
    match number {
        None => None,
        Some(c) => Some(-c),
    }
}

/// The greatest n with `p + n < size`, where `q + c < size` and `p < q + d`.
fn shifted(c: i64, d: i64) -> i64
    requires { record {
      constant : IsInt c;
      difference : IsEnd d;
    } }
    ensures value { result ≡ c -ℤ d +ℤ pos 1 }
    ensures small { IsLimit result }
{
    c - d + 1
}

/// A bound of q as one of p, where `p < q + difference`.
pub(crate) fn through(c: i64, difference: Option<i64>) -> Option<i64>
    requires int { IsInt c }
    requires small { IfSome difference IsEnd }
    ensures value { result ≡ option_map (λ d. c -ℤ d +ℤ pos 1) difference }
    ensures small { IfSome result IsLimit }
{
    match difference {
        None => None,
        Some(d) => Some(shifted(c, d)),
    }
}

/// The least c for which `p < q + c` by a limit of p and a lower bound of q.
pub(crate) fn apart(limit: i64, bound: i64) -> i64
    requires limit { IsLimit limit }
    requires bound { IsLimit bound }
    ensures value { result ≡ limit -ℤ bound +ℤ pos 1 }
    ensures small { IsBound result }
{
    limit - bound + 1
}
