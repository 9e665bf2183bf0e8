//! The table of facts.

ghost use Rattle.std.specs.Prelude.{◌≡◌, true};
ghost use Rattle.ix_fact_table.specs.Rising.{is_table_of};

use crate::row::Row;
use ix_facts::Kind;

/// Facts of one kind, or of any, of each key one, in the order of keys. Each stands in its first order, and none is said of every path.
#[derive(Drop)]
pub struct FactTable {
    pub(crate) kind: Kind,
    pub(crate) facts: Row,
    ghost form: { is_table_of kind facts ≡ true },
}
