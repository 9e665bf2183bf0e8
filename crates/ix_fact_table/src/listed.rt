//! The arrays of which facts say that they have the length of another, or that an int is their length.

ghost use Rattle.std.specs.Prelude.{◌≡◌, ◌∷◌, [], IfOk, OnOk};
ghost use Rattle.ix_fact_paths.specs.ByPath.{put_all};
ghost use Rattle.ix_fact_table.specs.Saturated.{AreListed};
ghost use Rattle.ix_fact_table.specs.Listed.{listed_by, all_listed};

use ix_core::{Fact, Path};
use ix_fact_paths::PathSet;
use std::alloc::{AllocError, Global};

fn put_two(arrays: &mut PathSet, a: Path, b: Path) -> Result<(), AllocError>
    ensures { OnOk result (arrays.new ≡ put_all arrays.old (a ∷ b ∷ [])) }
{
    arrays.put(a).and(arrays.put(b))
}

fn put_listed(arrays: &mut PathSet, fact: &Fact) -> Result<(), AllocError>
    ensures { OnOk result (arrays.new ≡ put_all arrays.old (listed_by fact.now)) }
{
    match *fact {
        Fact::Same(a, b) => put_two(arrays, a, b),
        Fact::IsLen(_, a) => arrays.put(a),
        _ => Ok(()),
    }
}

fn listed_set(alloc: Global, facts: &[Fact]) -> Result<PathSet, AllocError>
    ensures { IfOk result (λ arrays. arrays ≡ put_all [] (all_listed facts.now)) }
{
    let mut arrays = PathSet::new(alloc);
    for fact in facts {
        put_listed(&mut arrays, fact)?;
    }
    Ok(arrays)
}

/// The arrays, in order.
pub(crate) fn listed_arrays(alloc: Global, facts: &[Fact]) -> Result<Vec<Path>, AllocError>
    ensures { IfOk result (λ arrays. AreListed facts.now arrays.items) }
{
    let arrays = listed_set(alloc, facts)?;
    Ok(arrays.into_paths())
}
