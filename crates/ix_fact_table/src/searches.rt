//! Searches, negative answers, and classes of ints by their ranges.

ghost use Rattle.std.specs.Prelude.{◌≡◌, ◌++◌, OnOk, pos, negsuc, ◌≤ℤ◌};
ghost use Rattle.std.specs.Int.{int_min};
ghost use Rattle.ix_core.specs.declared.fact.Fact.TheVariants.{Search};
ghost use Rattle.ix_facts.specs.Bounds as spec;
ghost use Rattle.ix_facts.specs.Exact.{each};
ghost use Rattle.ix_fact_table.specs.Saturated.{search_of, negative_of, class_of};

use ix_core::{Fact, Path};
use ix_facts::is_same_path;
use std::alloc::AllocError;

fn push_search_of(out: &mut Vec<Fact>, fact: &Fact) -> Result<(), AllocError>
    ensures { OnOk result (out.new.items ≡ out.old.items ++ search_of fact.now) }
{
    match fact {
        Fact::Neg(p, a) => out.push(Fact::Search(*p, *a)).map_err(AllocError::from),
        _ => Ok(()),
    }
}

/// Each negative answer of a search is an answer of a search.
pub(crate) fn push_searches(out: &mut Vec<Fact>, facts: &[Fact]) -> Result<(), AllocError>
    ensures { OnOk result (out.new.items ≡ out.old.items ++ each search_of facts.now) }
{
    for fact in facts {
        push_search_of(out, fact)?;
    }
    Ok(())
}

fn high_of(p: &Path, fact: &Fact, high: i64) -> i64
    ensures value { result ≡ spec.at_most high (spec.range_high_by p.now fact.now) }
{
    match *fact {
        Fact::Rng(q, _, h) => if is_same_path(&q, p) {
            high.min(h)
        } else {
            high
        },
        _ => high,
    }
}

fn high_among(ranges: &[Fact], p: &Path) -> i64
    ensures value { result ≡ spec.range_high ranges.now p.now }
{
    let mut high = 2147483647;
    for fact in ranges {
        high = high_of(p, fact, high);
    }
    high
}

fn push_negative(out: &mut Vec<Fact>, ranges: &[Fact], p: &Path, a: &Path) -> Result<(), AllocError>
    ensures { OnOk result (out.new.items ≡ out.old.items ++ negative_of ranges.now (Search p.now a.now)) }
{
    if high_among(ranges, p) > -1 {
        return Ok(());
    }
    out.push(Fact::Neg(*p, *a)).map_err(AllocError::from)
}

fn push_negative_of(out: &mut Vec<Fact>, ranges: &[Fact], fact: &Fact) -> Result<(), AllocError>
    ensures { OnOk result (out.new.items ≡ out.old.items ++ negative_of ranges.now fact.now) }
{
    match fact {
        Fact::Search(p, a) => push_negative(out, ranges, p, a),
        _ => Ok(()),
    }
}

/// Each answer of a search that is at most -1 is a negative one.
pub(crate) fn push_negatives(
    out: &mut Vec<Fact>,
    ranges: &[Fact],
    facts: &[Fact],
) -> Result<(), AllocError>
    ensures { OnOk result (out.new.items ≡ out.old.items ++ each (negative_of ranges.now) facts.now) }
{
    for fact in facts {
        push_negative_of(out, ranges, fact)?;
    }
    Ok(())
}

/// The class of an int that is at least -1.
fn class_from(low: i64) -> i32
    requires low { negsuc 0 ≤ℤ low }
    ensures { result ≡ int_min low (pos 1) }
{
    low.min(1) as i32
}

pub(crate) fn push_class_of(out: &mut Vec<Fact>, fact: &Fact) -> Result<(), AllocError>
    ensures { OnOk result (out.new.items ≡ out.old.items ++ class_of fact.now) }
{
    match fact {
        Fact::Rng(p, low, _) if *low >= -1 => {
            out.push(Fact::Low(*p, class_from(*low)))
                .map_err(AllocError::from)
        }
        _ => Ok(()),
    }
}

/// The class of each int by the low end of its range.
pub(crate) fn push_classes(out: &mut Vec<Fact>, ranges: &[Fact]) -> Result<(), AllocError>
    ensures { OnOk result (out.new.items ≡ out.old.items ++ each class_of ranges.now) }
{
    for fact in ranges {
        push_class_of(out, fact)?;
    }
    Ok(())
}
