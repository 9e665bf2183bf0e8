//! A new bound of a sum as one of its parts at the other.

ghost use Rattle.std.specs.Prelude.{◌≡◌, ◌++◌, OnOk};
ghost use Rattle.ix_core.specs.declared.fact.Fact.TheVariants.{Upper};
ghost use Rattle.ix_facts.specs.Closure.{kept};
ghost use Rattle.ix_facts.specs.Exact.{if_so, each};
ghost use Rattle.ix_test_facts.specs.OverGroups.{part_of, parts_by};

use ix_core::{Fact, Path, PathOff};
use ix_facts::is_same_path;
use ix_intervals::push_upper_if;
use std::alloc::AllocError;

fn push_part(
    out: &mut Vec<Fact>,
    p: &Path,
    a: &Path,
    e: &i32,
    fact: &Fact,
) -> Result<(), AllocError>
    ensures { OnOk result (out.new.items ≡ out.old.items ++ kept (part_of p.now a.now e.now fact.now)) }
{
    match fact {
        Fact::Sum(s, y, z) => {
            push_upper_if(out, is_same_path(s, p), y, a, &PathOff::Plus(*z), *e as i64)
        }
        _ => Ok(()),
    }
}

fn push_parts_of(
    out: &mut Vec<Fact>,
    p: &Path,
    on_p: &[Fact],
    a: &Path,
    e: &i32,
) -> Result<(), AllocError>
    ensures { OnOk result (out.new.items ≡ out.old.items ++ kept (each (part_of p.now a.now e.now) on_p.now)) }
{
    for fact in on_p {
        push_part(out, p, a, e, fact)?;
    }
    Ok(())
}

/// Of a bound at an offset there is none.
fn push_parts_at(
    out: &mut Vec<Fact>,
    p: &Path,
    on_p: &[Fact],
    x: &Path,
    a: &Path,
    offset: &PathOff,
    e: &i32,
) -> Result<(), AllocError>
    ensures { OnOk result (out.new.items ≡ out.old.items ++ kept (parts_by p.now on_p.now (Upper x.now a.now offset.now e.now))) }
{
    match offset {
        PathOff::Nothing if is_same_path(x, p) => push_parts_of(out, p, on_p, a, e),
        _ => Ok(()),
    }
}

fn push_parts_by(
    out: &mut Vec<Fact>,
    p: &Path,
    on_p: &[Fact],
    bound: &Fact,
) -> Result<(), AllocError>
    ensures { OnOk result (out.new.items ≡ out.old.items ++ kept (parts_by p.now on_p.now bound.now)) }
{
    match bound {
        Fact::Upper(x, a, offset, e) => push_parts_at(out, p, on_p, x, a, offset, e),
        _ => Ok(()),
    }
}

/// Of each of the bounds of p, where p is a stored sum, the bound of each part at the other.
pub(crate) fn push_parts(
    out: &mut Vec<Fact>,
    p: &Path,
    on_p: &[Fact],
    bounds: &[Fact],
) -> Result<(), AllocError>
    ensures { OnOk result (out.new.items ≡ out.old.items ++ kept (each (parts_by p.now on_p.now) bounds.now)) }
{
    for bound in bounds {
        push_parts_by(out, p, on_p, bound)?;
    }
    Ok(())
}
