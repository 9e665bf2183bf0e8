//! Tables of facts, each with paths among which all ints are that its facts name: so that these are found without a look at all facts.

ghost use Rattle.std.specs.Prelude.{◌≡◌, ◌≤◌, [], length, take, IfOk};
ghost use Rattle.ix_facts.specs.Exact.{named_ints, named_arrays};
ghost use Rattle.ix_fact_paths.specs.ByPath.{put_all};
ghost use Rattle.ix_bounds.specs.Ends.{ends_in};
ghost use Rattle.ix_fact_table.specs.declared.fact_table.FactTable.{FactTable};
ghost use Rattle.ix_fact_table.specs.FactTables.{facts_of};
ghost use Rattle.ix_store.specs.Orders.{ordered_by};
ghost use Rattle.ix_store.specs.OverInts.{IsOver};

use crate::orders::ordered;
use ix_core::Path;
use ix_fact_list::up_to_ends;
use ix_fact_paths::{ints_and_arrays, ints_and_arrays_among};
use ix_fact_table::{FactTable, Row};
use std::alloc::{AllocError, Global};
use std::marker::Model;

/// From how many facts on a table is long: in a shorter one ints are found as fast by a walk over its facts as among others.
const LONG: usize = 16;

/// A table of facts of any kind, and, where it is told, paths in order: all ints that the facts name, and maybe others; and whether each fact is known to have one order. A
/// clause sees the table.
#[derive(Drop)]
pub(crate) struct TableOver {
    pub(crate) table: FactTable,
    pub(crate) ints: Vec<Path>,
    pub(crate) told: bool,
    pub(crate) plain: bool,
}

impl Model for TableOver {
    ghost Value = { FactTable };

    ghost view = { λ over. over.table };

    ghost invariant = { λ over. IsOver over.table over.ints.items over.told over.plain };
}

/// Whether the table is a long one. It is for speed alone.
pub(crate) fn is_long(table: &FactTable) -> bool {
    table.as_slice().len() >= LONG
}

/// The ints and the arrays that the facts name. The only error is want of memory.
pub(crate) fn ints_and_arrays_of(
    alloc: Global,
    over: &TableOver,
) -> Result<(Vec<Path>, Vec<Path>), AllocError>
    ensures ints { IfOk result (λ paths. paths.0.items ≡ put_all [] (named_ints (facts_of over.now))) }
    ensures arrays { IfOk result (λ paths. paths.1.items ≡ put_all [] (named_arrays (facts_of over.now))) }
{
    if !over.told {
        return ints_and_arrays(alloc, over.table.as_slice());
    }
    let (first, differences, last) = over.table.around_differences();
    ints_and_arrays_among(alloc, first, differences, last, &over.ints)
}

/// How many facts stand up to the last range, class or length: at most those before all differences, where each fact has one order.
pub(crate) fn ends_of(table: &FactTable, turned: &Option<Row>) -> usize
    ensures within { result ≤ length (ordered_by (facts_of table.now) turned.now) }
    ensures ends { ends_in (take result (ordered_by (facts_of table.now) turned.now)) ≡ ends_in (ordered_by (facts_of table.now) turned.now) }
{
    match turned {
        Some(_) => up_to_ends(ordered(table.as_slice(), turned)),
        None => {
            let (first, _, _) = table.around_differences();
            first.len()
        }
    }
}
