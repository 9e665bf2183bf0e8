//! The store of facts that anyone may have written down.

ghost use Rattle.std.specs.Prelude.{◌≡◌, ◌↔◌, true, IsTrue, IfOk, IfSome, IfNone};
ghost use Rattle.std.specs.List.{list_all};
ghost use Rattle.ix_facts.specs.Stores.{Reached, SayTheSame, IsStoreOf};
ghost use Rattle.ix_facts.specs.Systems.{HaveClasses, IsTable};
ghost use Rattle.ix_fact_table.specs.Apart.{AreApart, is_proper};
ghost use Rattle.ix_fact_table.specs.FactTables.{facts_of};
ghost use Rattle.ix_store.specs.StoredFacts.{stored};
ghost use Rattle.ix_store.specs.WholeStores.{AreAStore};

use crate::store::Store;
use ix_core::Fact;
use ix_fact_table::{FactTable, are_apart, are_proper};
use ix_facts::Kind;
use std::alloc::{AllocError, Global};

/// Facts as a table, without what follows from them.
fn table_of(alloc: Global, facts: &[Fact]) -> Result<FactTable, AllocError>
    requires classes { HaveClasses facts.now }
    ensures table { IfOk result (λ table. IsTable facts.now (facts_of table)) }
{
    FactTable::of_facts(alloc, Kind::Any, facts)
}

/// Whether facts of which no two are at one key are all that follows from them, where the store is the closed one of these.
fn is_all(alloc: Global, facts: &[Fact], store: &Store) -> Result<bool, AllocError>
    requires { record {
      proper : list_all is_proper facts.now ≡ true;
      apart : AreApart facts.now;
      closed : IsStoreOf facts.now (stored store.now);
    } }
    ensures whole { IfOk result (λ whole. IsTrue whole ↔ AreAStore facts.now) }
{
    let Some(known) = &store.known else {
        return Ok(false);
    };
    let table = table_of(alloc, facts)?;
    let whole = table.says_all(&known.get().table);
    Ok(whole)
}

impl Store {
    /// The store whose facts these are, in some order and each once; none where they aren't all facts of a store. The only error is want of memory.
    pub fn from_facts(alloc: Global, facts: &[Fact]) -> Result<Option<Store>, AllocError>
        ensures none { IfOk result (λ store. IfNone store (AreAStore facts.now → ⊥)) }
        ensures whole { IfOk result (λ store. IfSome store (λ store. AreAStore facts.now)) }
        ensures same { IfOk result (λ store. IfSome store (λ store. SayTheSame (stored store) (Reached facts.now))) }
    {
        if !are_proper(facts) {
            return Ok(None);
        }
        if !are_apart(alloc, facts)? {
            return Ok(None);
        }
        let store = Store::of_facts(alloc, facts)?;
        if is_all(alloc, facts, &store)? {
            return Ok(Some(store));
        }
        Ok(None)
    }
}
