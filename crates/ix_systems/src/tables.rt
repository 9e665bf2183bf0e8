//! How a table of one kind is made of facts, read and renewed.

ghost use Rattle.std.specs.Prelude.{◌≡◌, ◌++◌, [], IfOk};
ghost use Rattle.ix_facts.specs.After.{of_target};
ghost use Rattle.ix_facts.specs.Forget.{of_path, without};
ghost use Rattle.ix_facts.specs.Kinds.{of_kind};
ghost use Rattle.ix_facts.specs.Systems.{HaveClasses, IsTable};
ghost use Rattle.ix_systems.specs.KindTables.{known_facts};

use crate::facts_of::FactsOf;
use crate::one_kind::OneKind;
use ix_core::{Fact, OpKind, Path};
use ix_fact_table::FactTable;
use std::alloc::{AllocError, Global};
use std::marker::PhantomData;

impl<K: OneKind> FactsOf<K> {
    /// The table without facts. It takes no memory.
    pub fn new(alloc: Global) -> FactsOf<K>
        ensures empty { known_facts result ≡ [] }
    {
        FactsOf {
            table: FactTable::new(alloc, K::KIND),
            of: PhantomData,
        }
    }

    /// The table of those of the facts that are of its kind. What an int is at least has to be -1, 0 or 1.
    pub fn of_facts(alloc: Global, facts: &[Fact]) -> Result<FactsOf<K>, AllocError>
        requires classes { HaveClasses facts.now }
        ensures table { IfOk result (λ table. IsTable (of_kind K.KIND facts.now) (known_facts table)) }
    {
        let table = FactTable::of_facts(alloc, K::KIND, facts)?;
        Ok(FactsOf {
            table,
            of: PhantomData,
        })
    }

    /// All facts, in the order of paths. It takes no memory.
    pub fn as_slice(&self) -> &[Fact]
        ensures facts { result.now ≡ known_facts self.now }
    {
        self.table.as_slice()
    }

    /// The table with new facts in place of those that name a path that the operation may change: after the operation, where these are its new facts. Of
    /// facts of other kinds it keeps none.
    pub fn renewed(
        &self,
        alloc: Global,
        kind: &OpKind,
        new: &[Fact],
    ) -> Result<FactsOf<K>, AllocError>
        requires classes { HaveClasses new.now }
        ensures table { IfOk result (λ table. IsTable (without (of_target kind.now) (known_facts self.now) ++ of_kind K.KIND new.now) (known_facts table)) }
    {
        let table = self.table.renewed_target(alloc, kind, new)?;
        Ok(FactsOf {
            table,
            of: PhantomData,
        })
    }

    /// The same for a path that a copy or an access to a field changes.
    pub fn renewed_path(
        &self,
        alloc: Global,
        path: &Path,
        new: &[Fact],
    ) -> Result<FactsOf<K>, AllocError>
        requires classes { HaveClasses new.now }
        ensures table { IfOk result (λ table. IsTable (without (of_path path.now) (known_facts self.now) ++ of_kind K.KIND new.now) (known_facts table)) }
    {
        let table = self.table.renewed_path(alloc, path, new)?;
        Ok(FactsOf {
            table,
            of: PhantomData,
        })
    }
}
