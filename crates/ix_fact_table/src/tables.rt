//! Tables of facts: how one is made, changed and compared.

ghost use Rattle.std.specs.Prelude.{◌≡◌, Bool, true, false, ◌↔◌, ◌++◌, [], IsTrue, IfOk, IfSome, IfNone, IsNone};
ghost use Rattle.ix_core.specs.declared.fact.Fact.{Fact};
ghost use Rattle.ix_core.specs.declared.fact.Path.{Path};
ghost use Rattle.ix_core.specs.declared.fact.Fact.TheVariants.{Search};
ghost use Rattle.ix_facts.specs.Bounds.{fact_less};
ghost use Rattle.ix_facts.specs.Facts.{IsIn};
ghost use Rattle.ix_facts.specs.Small.{IsEnd};
ghost use Rattle.ix_facts.specs.Forget.{of_path, without};
ghost use Rattle.ix_facts.specs.After.{of_target};
ghost use Rattle.ix_facts.specs.Kinds.{is_of, of_kind};
ghost use Rattle.ix_facts.specs.declared.kind.Kind.TheVariants as kind;
ghost use Rattle.ix_facts.specs.Closure.{SaysAll, IsCommon};
ghost use Rattle.ix_facts.specs.Round.{Rises};
ghost use Rattle.ix_facts.specs.Systems.{HasClass, HaveClasses, IsTable, system_rounded, system_added};
ghost use Rattle.ix_fact_table.specs.FactOrder.{AtKey, comes_before};
ghost use Rattle.ix_fact_table.specs.Entries.{in_first_order};
ghost use Rattle.ix_fact_table.specs.FactTables.{facts_of, table_kind};

use crate::entries::{in_first_order as first_order, int_of, less_constant};
use crate::fact_table::FactTable;
use crate::look_ups::{around_differences, from_searches, place_of, ranges_among};
use crate::row::Row;
use crate::sorted::sorted;
use crate::walks::{covers_all, merged, shared};
use ix_core::{Fact, OpKind, Path};
use ix_fact_paths::{facts_without_path, facts_without_target, rounded_facts};
use ix_facts::{Kind, Landmarks};
use std::alloc::{AllocError, Global};

impl FactTable {
    /// The table without facts. It takes no memory.
    pub fn new(alloc: Global, kind: Kind) -> FactTable
        ensures { record {
          empty : facts_of result ≡ [];
          kind : table_kind result ≡ kind;
        } }
    {
        FactTable {
            kind,
            facts: Row::of(Vec::new(alloc)),
        }
    }

    /// The table of the facts of the kind: at each key what they say together. What an int is at least has to be -1, 0 or 1.
    pub fn of_facts(alloc: Global, kind: Kind, facts: &[Fact]) -> Result<FactTable, AllocError>
        requires classes { HaveClasses facts.now }
        ensures { record {
          table : IfOk result (λ table. IsTable (of_kind kind facts.now) (facts_of table));
          kind : IfOk result (λ table. table_kind table ≡ kind);
        } }
    {
        let facts = sorted(alloc, kind, facts)?;
        Ok(FactTable {
            kind,
            facts: Row::of(facts),
        })
    }

    /// All facts, in the order of their keys. It takes no memory.
    pub fn as_slice(&self) -> &[Fact]
        ensures facts { result.now ≡ facts_of self.now }
    {
        self.facts.as_slice()
    }

    /// The fact at the key of the given one: of the same form and paths, which may stand in either order. It takes no memory.
    pub fn get(&self, like: &Fact) -> Option<Fact>
        ensures found { IfSome result (λ fact. IsIn fact (facts_of self.now) × AtKey fact (in_first_order like.now)) }
        ensures none { IfNone result ((fact : Fact) → IsIn fact (facts_of self.now) → AtKey fact (in_first_order like.now) → ⊥) }
    {
        let facts = self.facts.as_slice();
        let place = place_of(facts, &first_order(like))?;
        Some(facts[place])
    }

    /// The least c of the facts `p < q + c`, of which a table has one at most. It takes no memory.
    pub fn fact_less(&self, p: &Path, q: &Path) -> Option<i64>
        ensures bound { result ≡ fact_less (facts_of self.now) p.now q.now }
        ensures small { IfSome result IsEnd }
    {
        match self.get(&Fact::Less(*p, *q, 0)) {
            Some(fact) => less_constant(&fact),
            None => None,
        }
    }

    /// The ranges of ints and of lengths. It takes no memory.
    pub fn ranges(&self) -> &[Fact]
        ensures ranges { result.now ≡ of_kind kind.Range (facts_of self.now) }
    {
        ranges_among(self.facts.as_slice())
    }

    /// The facts from the first answer of a search on, which are all answers of searches and what stands behind them. It takes no memory.
    pub fn searches(&self) -> &[Fact]
        ensures all { (p a : Path) → IsIn (Search p a) (facts_of self.now) → IsIn (Search p a) result.now }
        ensures only { (fact : Fact) → IsIn fact result.now → IsIn fact (facts_of self.now) }
    {
        from_searches(self.facts.as_slice())
    }

    /// The facts before the differences and sums, these, and the facts behind them. It takes no memory.
    pub fn around_differences(&self) -> (&[Fact], &[Fact], &[Fact])
        ensures whole { facts_of self.now ≡ result.0.now ++ (result.1.now ++ result.2.now) }
        ensures differences { (fact : Fact) → IsIn fact result.1.now → is_of kind.Difference fact ≡ true }
        ensures behind { (fact : Fact) → IsIn fact (result.1.now ++ result.2.now) → comes_before 3 fact ≡ false }
    {
        around_differences(self.facts.as_slice())
    }

    /// The table without the facts that name the path; of a slot also without those that name a field of the object in it.
    pub fn without_path(&self, alloc: Global, path: &Path) -> Result<FactTable, AllocError>
        ensures facts { IfOk result (λ table. facts_of table ≡ without (of_path path.now) (facts_of self.now)) }
        ensures table { IfOk result (λ table. IsTable (without (of_path path.now) (facts_of self.now)) (facts_of table)) }
        ensures kind { IfOk result (λ table. table_kind table ≡ table_kind self.now) }
    {
        let facts = facts_without_path(alloc, self.facts.as_slice(), path)?;
        Ok(FactTable {
            kind: self.kind,
            facts: Row::of(facts),
        })
    }

    /// The table without the facts that name a path that the operation may change.
    pub fn without_target(&self, alloc: Global, kind: &OpKind) -> Result<FactTable, AllocError>
        ensures facts { IfOk result (λ table. facts_of table ≡ without (of_target kind.now) (facts_of self.now)) }
        ensures table { IfOk result (λ table. IsTable (without (of_target kind.now) (facts_of self.now)) (facts_of table)) }
        ensures kind { IfOk result (λ table. table_kind table ≡ table_kind self.now) }
    {
        let facts = facts_without_target(alloc, self.facts.as_slice(), kind)?;
        Ok(FactTable {
            kind: self.kind,
            facts: Row::of(facts),
        })
    }

    /// The table with more facts, of which those of its kind count. What an int is at least has to be -1, 0 or 1.
    pub fn with_facts(&self, alloc: Global, new: &[Fact]) -> Result<FactTable, AllocError>
        requires classes { HaveClasses new.now }
        ensures table { IfOk result (λ table. IsTable (facts_of self.now ++ of_kind (table_kind self.now) new.now) (facts_of table)) }
        ensures kind { IfOk result (λ table. table_kind table ≡ table_kind self.now) }
    {
        let more = sorted(alloc, self.kind, new)?;
        let facts = merged(alloc, self.facts.as_slice(), &more)?;
        Ok(FactTable {
            kind: self.kind,
            facts: Row::of(facts),
        })
    }

    /// The table with more facts, of which those of its kind count; none where it says all of these already, so that no copy of it is needed. What an int is at
    /// least has to be -1, 0 or 1.
    pub fn with_more(&self, alloc: Global, new: &[Fact]) -> Result<Option<FactTable>, AllocError>
        requires classes { HaveClasses new.now }
        ensures none { IfOk result (λ more. IsNone more ↔ SaysAll (facts_of self.now) (of_kind (table_kind self.now) new.now)) }
        ensures same { IfOk result (λ more. IfNone more (IsTable (facts_of self.now ++ of_kind (table_kind self.now) new.now) (facts_of self.now))) }
        ensures table { IfOk result (λ more. IfSome more (λ table. IsTable (facts_of self.now ++ of_kind (table_kind self.now) new.now) (facts_of table))) }
        ensures kind { IfOk result (λ more. IfSome more (λ table. table_kind table ≡ table_kind self.now)) }
    {
        let more = sorted(alloc, self.kind, new)?;
        if covers_all(self.facts.as_slice(), &more) {
            return Ok(None);
        }
        let facts = merged(alloc, self.facts.as_slice(), &more)?;
        Ok(Some(FactTable {
            kind: self.kind,
            facts: Row::of(facts),
        }))
    }

    /// The table of some of its facts: of all that name none of certain paths. It takes no memory.
    pub fn of_part(&self, facts: Vec<Fact>) -> FactTable
        requires part { (is : Path → Bool) × (facts.items ≡ without is (facts_of self.now)) }
        ensures { record {
          facts : facts_of result ≡ facts.items;
          kind : table_kind result ≡ table_kind self.now;
        } }
    {
        FactTable {
            kind: self.kind,
            facts: Row::of(facts),
        }
    }

    /// The table with a fact, where it is of the table's kind. What an int is at least has to be -1, 0 or 1.
    pub fn with_fact(&self, alloc: Global, fact: &Fact) -> Result<FactTable, AllocError>
        requires class { HasClass fact.now }
        ensures table { IfOk result (λ table. IsTable (system_added (table_kind self.now) (facts_of self.now) fact.now) (facts_of table)) }
        ensures kind { IfOk result (λ table. table_kind table ≡ table_kind self.now) }
    {
        let _number = int_of(fact);
        self.with_facts(alloc, &[*fact])
    }

    /// The table with new facts in place of those that name a path that the operation may change.
    pub fn renewed_target(
        &self,
        alloc: Global,
        kind: &OpKind,
        new: &[Fact],
    ) -> Result<FactTable, AllocError>
        requires classes { HaveClasses new.now }
        ensures { record {
          table : IfOk result (λ table. IsTable (without (of_target kind.now) (facts_of self.now) ++ of_kind (table_kind self.now) new.now) (facts_of table));
          kind : IfOk result (λ table. table_kind table ≡ table_kind self.now);
        } }
    {
        let beside = self.without_target(alloc, kind)?;
        beside.with_facts(alloc, new)
    }

    /// The table with new facts in place of those that name the path.
    pub fn renewed_path(
        &self,
        alloc: Global,
        path: &Path,
        new: &[Fact],
    ) -> Result<FactTable, AllocError>
        requires classes { HaveClasses new.now }
        ensures { record {
          table : IfOk result (λ table. IsTable (without (of_path path.now) (facts_of self.now) ++ of_kind (table_kind self.now) new.now) (facts_of table));
          kind : IfOk result (λ table. table_kind table ≡ table_kind self.now);
        } }
    {
        let beside = self.without_path(alloc, path)?;
        beside.with_facts(alloc, new)
    }

    /// The table with each fact moved to the landmarks.
    pub fn rounded(&self, alloc: Global, marks: &Landmarks) -> Result<FactTable, AllocError>
        ensures table { IfOk result (λ table. IsTable (system_rounded marks.now.ints (facts_of self.now)) (facts_of table)) }
        ensures kind { IfOk result (λ table. table_kind table ≡ table_kind self.now) }
    {
        let moved = rounded_facts(alloc, self.facts.as_slice(), marks.ints.as_slice())?;
        let facts = sorted(alloc, self.kind, &moved)?;
        Ok(FactTable {
            kind: self.kind,
            facts: Row::of(facts),
        })
    }

    /// Whether the table says all that the other says. It takes no memory.
    pub fn says_all(&self, other: &FactTable) -> bool
        ensures below { IsTrue result ↔ SaysAll (facts_of self.now) (facts_of other.now) }
    {
        covers_all(self.facts.as_slice(), other.facts.as_slice())
    }

    /// The table of what both tables say.
    pub fn common(&self, alloc: Global, other: &FactTable) -> Result<FactTable, AllocError>
        ensures common { IfOk result (λ table. IsCommon (facts_of self.now) (facts_of other.now) (facts_of table)) }
        ensures kind { IfOk result (λ table. table_kind table ≡ table_kind self.now) }
    {
        let facts = shared(alloc, self.facts.as_slice(), other.facts.as_slice())?;
        Ok(FactTable {
            kind: self.kind,
            facts: Row::of(facts),
        })
    }
}
