//! When two claims are one.

ghost use Rattle.std.specs.Prelude.{◌≡◌};
ghost use Rattle.ix_core.specs.SameClaims as spec;

use crate::naming::same_name;
use ix_core::{Claim, Off};

fn same_offset(a: &Off, b: &Off) -> bool
    ensures { result ≡ spec.same_offset a.now b.now }
{
    match (a, b) {
        (Off::Nothing, Off::Nothing) => true,
        (Off::Plus(x), Off::Plus(y)) => same_name(*x, *y),
        (Off::Minus(x), Off::Minus(y)) => same_name(*x, *y),
        _ => false,
    }
}

/// Whether two claims are one. Repeated claims of a declaration count once.
pub fn same_claim(a: &Claim, b: &Claim) -> bool
    ensures { result ≡ spec.same_claim a.now b.now }
{
    match (a, b) {
        (Claim::Range(l, h), Claim::Range(m, k)) => l == m && h == k,
        (Claim::Low(l), Claim::Low(m)) => l == m,
        (Claim::Length(l), Claim::Length(m)) => l == m,
        (Claim::Same(x), Claim::Same(y)) => same_name(*x, *y),
        (Claim::Less(x, c), Claim::Less(y, d)) => same_name(*x, *y) && c == d,
        (Claim::Upper(x, o, c), Claim::Upper(y, p, d)) => same_name(*x, *y)
            && same_offset(o, p)
            && c == d,
        (Claim::Search(x), Claim::Search(y)) => same_name(*x, *y),
        (Claim::Negative(x), Claim::Negative(y)) => same_name(*x, *y),
        _ => false,
    }
}
