//! Closed facts.

ghost use Rattle.std.specs.Prelude.{◌≡◌, ◌<◌, ◌≤◌, ◌^◌, false, [], length, take, drop};
ghost use Rattle.ix_facts.specs.declared.kind.Kind.TheVariants as kind;
ghost use Rattle.ix_facts.specs.Exact.{named_ints, named_arrays};
ghost use Rattle.ix_facts.specs.Facts.{in_orders};
ghost use Rattle.ix_bounds.specs.Ends.{ends_in};
ghost use Rattle.ix_bounds.specs.Links.{links_in};
ghost use Rattle.ix_fact_paths.specs.ByPath.{put_all};
ghost use Rattle.ix_fact_table.specs.FactTables.{facts_of, table_kind};
ghost use Rattle.ix_store.specs.ClosedFacts.{AreClosed};
ghost use Rattle.ix_store.specs.EmptyRanges.{some_empty};
ghost use Rattle.ix_store.specs.Orders.{ordered_by};

use ix_core::Path;
use ix_fact_table::{FactTable, Row};

/// Up to how many facts are few: to go over them costs less than an index of them.
pub(crate) const FEW: usize = 16;

/// Closed facts of which no range is empty: a table of facts of any kind, with lists beside it that take no index of paths.
#[derive(Drop)]
pub(crate) struct Known {
    pub(crate) table: FactTable,
    /// The facts in all their orders, where some have two; where none has, the table has them.
    pub(crate) turned: Option<Row>,
    /// How many of the facts in all their orders stand up to the last range, class or length, and before the first difference or length.
    pub(crate) ends: usize,
    pub(crate) from_links: usize,
    /// The ints and arrays that they name, each once.
    pub(crate) ints: Vec<Path>,
    pub(crate) arrays: Vec<Path>,
    ghost holds: { record {
      kind : table_kind table ≡ kind.Any;
      orders : ordered_by (facts_of table) turned ≡ in_orders (facts_of table);
      in_ends : ends ≤ length (in_orders (facts_of table));
      all_ends : ends_in (take ends (in_orders (facts_of table))) ≡ ends_in (in_orders (facts_of table));
      in_links : from_links ≤ length (in_orders (facts_of table));
      all_links : links_in (drop from_links (in_orders (facts_of table))) ≡ links_in (in_orders (facts_of table));
      each_int : ints.items ≡ put_all [] (named_ints (in_orders (facts_of table)));
      each_array : arrays.items ≡ put_all [] (named_arrays (in_orders (facts_of table)));
      full : some_empty (facts_of table) ≡ false;
      closed : AreClosed (facts_of table);
      few : length (facts_of table) < 2 ^ 64;
    } },
}
