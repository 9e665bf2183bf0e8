//! What `p < q + k` gives.

ghost use Rattle.std.specs.Prelude.{◌≡◌, ◌++◌, IfOk, OnOk};
ghost use Rattle.ix_facts.specs.Closure.{kept};
ghost use Rattle.ix_facts.specs.Facts.{in_orders};
ghost use Rattle.ix_test_facts.specs.OverGroups as over;

use crate::bounds::push_bounds;
use crate::differences::push_differences;
use crate::lengths::push_lengths;
use crate::own::{with_own_above, with_own_below};
use crate::parts::push_parts;
use crate::ranges::{push_ranges_from, push_ranges_to};
use crate::read::{read_above, read_below};
use ix_core::{Fact, Path};
use ix_facts::Indexed;
use std::alloc::{AllocError, Global};

fn new_ranges<K: Indexed>(
    alloc: Global,
    know: &K,
    p: &Path,
    below: &[Fact],
    q: &Path,
    above: &[Fact],
    k: &i32,
) -> Result<Vec<Fact>, AllocError>
    ensures { IfOk result (λ ranges. ranges.items ≡ kept (over.ranges_in_turn below.now above.now p.now q.now k.now (in_orders (K.known know.now)))) }
{
    let mut ranges = Vec::with_capacity(alloc, below.len().saturating_add(above.len()))?;
    push_ranges_to(&mut ranges, &know.hi(q), k, p, below)
        .and(push_ranges_from(&mut ranges, &know.lo(p), k, q, above))
        .and(Ok(ranges))
}

fn new_bounds(
    alloc: Global,
    p: &Path,
    on_p: &[Fact],
    q: &Path,
    on_q: &[Fact],
    k: &i32,
) -> Result<Vec<Fact>, AllocError>
    ensures { IfOk result (λ bounds. bounds.items ≡ kept (over.bound_part on_p.now on_q.now p.now q.now k.now)) }
{
    let mut bounds = Vec::new(alloc);
    push_bounds(&mut bounds, k, p, on_p, q, on_q).and(Ok(bounds))
}

fn push_all(out: &mut Vec<Fact>, facts: &[Fact]) -> Result<(), AllocError>
    ensures { OnOk result (out.new.items ≡ out.old.items ++ facts.now) }
{
    out.extend_from_slice(facts)
}

/// What `p < q + k` gives, by the facts that are read.
fn push_read<K: Indexed>(
    alloc: Global,
    out: &mut Vec<Fact>,
    know: &K,
    p: &Path,
    on_p: &[Fact],
    q: &Path,
    on_q: &[Fact],
    k: &i32,
) -> Result<(), AllocError>
    ensures { OnOk result (out.new.items ≡ out.old.items ++ over.ordered_facts (in_orders (K.known know.now)) on_p.now on_q.now p.now q.now k.now) }
{
    let below = with_own_below(alloc, p, on_p)?;
    let above = with_own_above(alloc, q, on_q)?;
    let ranges = new_ranges(alloc, know, p, &below, q, &above, k)?;
    let bounds = new_bounds(alloc, p, on_p, q, on_q, k)?;
    push_all(out, &ranges)
        .and(push_differences(out, k, p, &below, q, &above))
        .and(push_all(out, &bounds))
        .and(push_lengths(out, p, on_p, &ranges))
        .and(push_lengths(out, q, on_q, &ranges))
        .and(push_parts(out, p, on_p, &bounds))
}

/// The ranges, differences, bounds, lengths and parts that `p < q + k` gives.
pub(crate) fn push_below<K: Indexed>(
    alloc: Global,
    out: &mut Vec<Fact>,
    know: &K,
    p: &Path,
    q: &Path,
    k: &i32,
) -> Result<(), AllocError>
    ensures { OnOk result (out.new.items ≡ out.old.items ++ over.below_facts (in_orders (K.known know.now)) (K.on_path know.now) p.now q.now k.now) }
{
    let on_p = read_below(alloc, p, know.on(p))?;
    let on_q = read_above(alloc, q, know.on(q))?;
    push_read(alloc, out, know, p, &on_p, q, &on_q, k)
}
