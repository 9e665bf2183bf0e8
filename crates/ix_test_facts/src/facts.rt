//! The new facts of an outcome.

ghost use Rattle.std.specs.Prelude.{◌≡◌, ◌++◌, pos, int_le, IfOk, OnOk};
ghost use Rattle.ix_facts.specs.Bounds as spec;
ghost use Rattle.ix_facts.specs.Closure.{kept};
ghost use Rattle.ix_facts.specs.Exact.{if_so, each};
ghost use Rattle.ix_facts.specs.Facts.{in_orders};
ghost use Rattle.ix_facts.specs.AfterTest as rule;
ghost use Rattle.ix_facts.specs.SameFacts.{AreSame};
ghost use Rattle.ix_test_facts.specs.OverGroups as over;

use crate::below::push_below;
use crate::outcome::Outcome;
use crate::shared::push_passed;
use ix_core::{Fact, Path};
use ix_facts::Indexed;
use ix_intervals::push_fact;
use std::alloc::{AllocError, Global};

/// Whether p is known to be at most q.
fn is_at_most<K: Indexed>(know: &K, p: &Path, q: &Path) -> bool
    ensures { result ≡ int_le (spec.less_bound (in_orders (K.known know.now)) p.now q.now) (pos 1) }
{
    match know.less(p, q) {
        Some(n) => n <= 1,
        None => false,
    }
}

/// Ints that differ, where p is at most q.
fn push_apart<K: Indexed>(
    alloc: Global,
    out: &mut Vec<Fact>,
    know: &K,
    p: &Path,
    q: &Path,
) -> Result<(), AllocError>
    ensures { OnOk result (out.new.items ≡ out.old.items ++ if_so (int_le (spec.less_bound (in_orders (K.known know.now)) p.now q.now) (pos 1)) (over.below_facts (in_orders (K.known know.now)) (K.on_path know.now) p.now q.now (pos 0))) }
{
    if is_at_most(know, p, q) {
        push_below(alloc, out, know, p, q, &0)
    } else {
        Ok(())
    }
}

fn push_equal<K: Indexed>(
    out: &mut Vec<Fact>,
    know: &K,
    y: &Path,
    z: &Path,
) -> Result<(), AllocError>
    ensures { OnOk result (out.new.items ≡ out.old.items ++ (kept (each (over.passed_by y.now z.now) (K.on_path know.now y.now)) ++ kept (each (over.passed_by z.now y.now) (K.on_path know.now z.now)))) }
{
    push_passed(out, y, z, know.on(y)).and(push_passed(out, z, y, know.on(z)))
}

fn push_outcome<K: Indexed>(
    alloc: Global,
    out: &mut Vec<Fact>,
    know: &K,
    outcome: &Outcome,
) -> Result<(), AllocError>
    ensures { OnOk result (out.new.items ≡ out.old.items ++ over.outcome_facts (in_orders (K.known know.now)) (K.on_path know.now) (over.outcome_of outcome.now)) }
{
    match outcome {
        Outcome::Below(p, q, k) => push_below(alloc, out, know, p, q, k),
        Outcome::Apart(p, q) => push_apart(alloc, out, know, p, q),
        Outcome::Equal(y, z) => push_equal(out, know, y, z),
        Outcome::OneArray(a, b) => push_fact(out, Fact::Same(*a, *b)),
    }
}

/// The new facts of an outcome by what is known: ranges, differences, bounds, lengths and parts of `p < q + k`; of ints that differ those of `p < q` where p is
/// known to be at most q; of equal ints what the one's stored lengths and searches say of the other; of two arrays that they have the same length. The only
/// error is want of memory.
pub fn facts_of_outcome<K: Indexed>(
    alloc: Global,
    know: &K,
    outcome: &Outcome,
) -> Result<Vec<Fact>, AllocError>
    ensures facts { IfOk result (λ new. AreSame new.items (kept (rule.outcome_facts (in_orders (K.known know.now)) (over.outcome_of outcome.now)))) }
{
    // There is room for as many as most outcomes give.
    let mut new = Vec::with_capacity(alloc, 64)?;
    push_outcome(alloc, &mut new, know, outcome).and(Ok(new))
}
