//! The table of the facts of one kind.

ghost use Rattle.std.specs.Prelude.{◌≡◌};
ghost use Rattle.ix_fact_table.specs.FactTables.{table_kind};

use crate::one_kind::OneKind;
use ix_fact_table::FactTable;
use std::marker::PhantomData;

/// The facts of one kind that are known, at each key one, in the order of keys. Nothing is kept that is said of every path.
#[derive(Drop)]
pub struct FactsOf<K: OneKind> {
    pub(crate) table: FactTable,
    pub(crate) of: PhantomData<K>,
    ghost own: { table_kind table ≡ K.KIND },
}
