//! The new range of an int is that of each array whose length it is.

ghost use Rattle.std.specs.Prelude.{◌≡◌, ◌++◌, OnOk};
ghost use Rattle.ix_facts.specs.Bounds as spec;
ghost use Rattle.ix_facts.specs.Closure.{kept};
ghost use Rattle.ix_facts.specs.Exact.{each};
ghost use Rattle.ix_test_facts.specs.OverGroups.{length_at, length_by};

use ix_core::{Fact, Path};
use ix_facts::is_same_path;
use ix_intervals::push_if;
use std::alloc::AllocError;

fn low_of(x: &Path, fact: &Fact, low: i64) -> i64
    ensures value { result ≡ spec.at_least low (spec.own_low_by x.now fact.now) }
{
    match *fact {
        Fact::Rng(p, l, _) => if is_same_path(&p, x) { low.max(l) } else { low },
        _ => low,
    }
}

fn high_of(x: &Path, fact: &Fact, high: i64) -> i64
    ensures value { result ≡ spec.at_most high (spec.range_high_by x.now fact.now) }
{
    match *fact {
        Fact::Rng(p, _, h) => if is_same_path(&p, x) {
            high.min(h)
        } else {
            high
        },
        _ => high,
    }
}

/// The greatest low end of the int's ranges, or the given one.
fn low_among(facts: &[Fact], x: &Path, least: i64) -> i64
    ensures value { result ≡ spec.at_least least (spec.greatest (spec.own_low_by x.now) facts.now) }
{
    let mut low = least;
    for fact in facts {
        low = low_of(x, fact, low);
    }
    low
}

/// The least high end of the int's ranges, or the given one.
fn high_among(facts: &[Fact], x: &Path, greatest: i64) -> i64
    ensures value { result ≡ spec.at_most greatest (spec.least (spec.range_high_by x.now) facts.now) }
{
    let mut high = greatest;
    for fact in facts {
        high = high_of(x, fact, high);
    }
    high
}

fn push_length_at(
    out: &mut Vec<Fact>,
    x: &Path,
    low: &i64,
    high: &i64,
    fact: &Fact,
) -> Result<(), AllocError>
    ensures { OnOk result (out.new.items ≡ out.old.items ++ kept (length_at x.now low.now high.now fact.now)) }
{
    match fact {
        Fact::IsLen(y, a) => push_if(out, is_same_path(y, x), Fact::LenRng(*a, *low, *high)),
        _ => Ok(()),
    }
}

fn push_lengths_at(
    out: &mut Vec<Fact>,
    x: &Path,
    low: &i64,
    high: &i64,
    on_x: &[Fact],
) -> Result<(), AllocError>
    ensures { OnOk result (out.new.items ≡ out.old.items ++ kept (each (length_at x.now low.now high.now) on_x.now)) }
{
    for fact in on_x {
        push_length_at(out, x, low, high, fact)?;
    }
    Ok(())
}

/// The range of x by new ranges and the facts on x, for each array whose length it is.
pub(crate) fn push_lengths(
    out: &mut Vec<Fact>,
    x: &Path,
    on_x: &[Fact],
    ranges: &[Fact],
) -> Result<(), AllocError>
    ensures { OnOk result (out.new.items ≡ out.old.items ++ kept (length_by on_x.now ranges.now x.now)) }
{
    let low = low_among(on_x, x, low_among(ranges, x, -2147483648));
    let high = high_among(on_x, x, high_among(ranges, x, 2147483647));
    push_lengths_at(out, x, &low, &high, on_x)
}
