//! A row of facts.

ghost use Rattle.std.specs.Prelude.{◌≡◌, List};
ghost use Rattle.ix_core.specs.declared.fact.Fact.{Fact};

use ix_core::Fact;
use std::marker::Model;

/// Facts in a row. A clause sees the list of them.
#[derive(Drop)]
pub struct Row {
    facts: Vec<Fact>,
}

impl Model for Row {
    ghost Value = { List Fact };

    ghost view = { λ row. row.facts.items };
}

impl Row {
    /// The facts, in their order. It takes no memory.
    pub fn of(facts: Vec<Fact>) -> Row
        ensures { result ≡ facts.items }
    {
        Row { facts }
    }

    /// The facts, in their order.
    pub fn as_slice(&self) -> &[Fact]
        ensures { result.now ≡ self.now }
    {
        self.facts.as_slice()
    }
}
