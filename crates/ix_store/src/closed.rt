//! Closed facts that don't contradict each other, their order and what two of them have in common.

ghost use Rattle.std.specs.Prelude.{◌≡◌, ◌↔◌, ◌++◌, [], List, true, false, IsTrue, IsFalse, IfOk, IfSome, IfNone};
ghost use Rattle.ix_core.specs.declared.fact.Fact.{Fact};
ghost use Rattle.ix_facts.specs.Exact.{named_ints};
ghost use Rattle.ix_facts.specs.Facts.{in_orders};
ghost use Rattle.ix_facts.specs.Forget.{without};
ghost use Rattle.ix_facts.specs.Kinds.{of_kind};
ghost use Rattle.ix_facts.specs.Systems.{HaveClasses, IsTable};
ghost use Rattle.ix_facts.specs.Stores.{IsStoreOf};
ghost use Rattle.ix_facts.specs.Closure.{Closed, SaysAll, IsClosedOf, IsCommon};
ghost use Rattle.ix_fact_paths.specs.ByPath.{put_all};
ghost use Rattle.ix_fact_paths.specs.PutLaws.{IsRising};
ghost use Rattle.ix_fact_paths.specs.ChangedPaths.{is_changed, paths_beside};
ghost use Rattle.ix_fact_table.specs.Beside.{are_plain};
ghost use Rattle.ix_fact_table.specs.Saturated.{IsSaturated};
ghost use Rattle.ix_fact_table.specs.FactTables.{facts_of, table_kind};
ghost use Rattle.ix_store.specs.EmptyRanges as spec;
ghost use Rattle.ix_store.specs.EmptyRanges.{some_empty};
ghost use Rattle.ix_store.specs.StoredFacts.{facts_in, stored_in};

use crate::known::Known;
use crate::orders::{ordered, orders_beside};
use crate::over::{TableOver, ends_of, ints_and_arrays_of, is_long};
use ix_core::{Fact, Path};
use ix_fact_list::before_links;
use ix_fact_paths::{Changed, changes_some, have_one_order, unchanged, unchanged_paths, with_ints};
use ix_fact_table::{FactTable, are_plain, more_beside, more_that_follows};
use ix_facts::Kind;
use std::alloc::{AllocError, Global};

fn is_empty_range(fact: &Fact) -> bool
    ensures { result ≡ spec.is_empty fact.now }
{
    match *fact {
        Fact::Rng(_, low, high) => high < low,
        Fact::LenRng(_, low, high) => high < low,
        _ => false,
    }
}

fn some_are_empty(facts: &[Fact]) -> bool
    ensures { result ≡ some_empty facts.now }
{
    for fact in facts {
        if is_empty_range(fact) {
            return true;
        }
    }
    false
}

/// Whether a range of the table is empty.
fn has_empty(table: &FactTable) -> bool
    ensures { result ≡ some_empty (facts_of table.now) }
{
    some_are_empty(table.ranges())
}

/// The facts of the table, and new ones behind them.
fn facts_with(alloc: Global, table: &FactTable, new: &[Fact]) -> Result<Vec<Fact>, AllocError>
    ensures { IfOk result (λ facts. facts.items ≡ facts_of table.now ++ new.now) }
{
    let mut facts = Vec::from_slice(alloc, table.as_slice())?;
    facts.extend_from_slice(new).and(Ok(facts))
}

/// New facts, and behind them what follows from them and those of the table.
fn added(alloc: Global, table: &FactTable, new: Vec<Fact>) -> Result<Vec<Fact>, AllocError>
    requires classes { HaveClasses new.items }
    ensures saturated { IfOk result (λ added. IsSaturated (facts_of table.now ++ new.items) (facts_of table.now ++ added.items)) }
    ensures classes { IfOk result (λ added. HaveClasses added.items) }
{
    let facts = facts_with(alloc, table, &new)?;
    let more = more_that_follows(alloc, &facts)?;
    let mut added = new;
    added.extend_from_slice(&more).and(Ok(added))
}

/// A table over the ints of known facts and of added ones, of which it is the table.
fn over_with(
    alloc: Global,
    known: &Known,
    table: FactTable,
    added: &[Fact],
) -> Result<TableOver, AllocError>
    requires { record {
      kind : table_kind table ≡ table_kind known.now.table;
      table : IsTable (facts_in known.now ++ of_kind (table_kind known.now.table) added.now) (facts_of table);
    } }
    ensures over { IfOk result (λ over. over ≡ table) }
{
    let told = is_long(&table);
    let ints = known.ints_with(alloc, told, added)?;
    let over = TableOver {
        table,
        ints,
        told,
        plain: known.is_plain_with(added),
    };
    Ok(over)
}

/// The table with what follows from it and some facts, over more ints; none where it has all that.
fn with_added(alloc: Global, known: &Known, added: &[Fact]) -> Result<Option<TableOver>, AllocError>
    requires classes { HaveClasses added.now }
    ensures same { IfOk result (λ more. IfNone more ((facts : List Fact) → IsSaturated facts (facts_in known.now ++ added.now) → IsClosedOf facts (facts_in known.now))) }
    ensures more { IfOk result (λ more. IfSome more (λ more. (facts : List Fact) → IsSaturated facts (facts_in known.now ++ added.now) → IsClosedOf facts (facts_of more))) }
{
    match known.table.with_more(alloc, added)? {
        None => Ok(None),
        Some(table) => {
            let over = over_with(alloc, known, table, added)?;
            Ok(Some(over))
        }
    }
}

/// A table with more facts, unless it says all of them.
fn with_all(alloc: Global, table: FactTable, more: &[Fact]) -> Result<FactTable, AllocError>
    requires classes { HaveClasses more.now }
    ensures table { IfOk result (λ whole. IsTable (facts_of table ++ of_kind (table_kind table) more.now) (facts_of whole)) }
    ensures kind { IfOk result (λ whole. table_kind whole ≡ table_kind table) }
{
    match table.with_more(alloc, more)? {
        None => Ok(table),
        Some(whole) => Ok(whole),
    }
}

/// A closed table to which new plain facts were added, with what follows from these and it: only what they add is sought. Mostly it says all of that already, since few new ranges
/// put an int into another class.
fn completed(
    alloc: Global,
    known: &Known,
    first: FactTable,
    new: Vec<Fact>,
) -> Result<TableOver, AllocError>
    requires { record {
      plain : are_plain new.items ≡ true;
      kind : table_kind first ≡ table_kind known.now.table;
      table : IsTable (facts_in known.now ++ of_kind (table_kind known.now.table) new.items) (facts_of first);
    } }
    ensures closed { IfOk result (λ over. IsClosedOf (facts_in known.now ++ new.items) (facts_of over)) }
{
    let more = more_beside(alloc, &new, first.ranges(), known.table.searches())?;
    let whole = with_all(alloc, first, &more)?;
    let mut added = new;
    added.extend_from_slice(&more)?;
    over_with(alloc, known, whole, &added)
}

/// The closed table of known facts and new plain ones, over more ints; none where these say the new ones already.
fn with_plain(alloc: Global, known: &Known, new: Vec<Fact>) -> Result<Option<TableOver>, AllocError>
    requires { record {
      classes : HaveClasses new.items;
      plain : are_plain new.items ≡ true;
    } }
    ensures same { IfOk result (λ more. IfNone more (IsClosedOf (facts_in known.now ++ new.items) (facts_in known.now))) }
    ensures more { IfOk result (λ more. IfSome more (λ more. IsClosedOf (facts_in known.now ++ new.items) (facts_of more))) }
{
    match known.table.with_more(alloc, &new)? {
        None => Ok(None),
        Some(first) => {
            let over = completed(alloc, known, first, new)?;
            Ok(Some(over))
        }
    }
}

impl Known {
    /// The facts in all their orders.
    pub(crate) fn ordered(&self) -> &[Fact]
        ensures orders { result.now ≡ in_orders (facts_in self.now) }
    {
        ordered(self.table.as_slice(), &self.turned)
    }

    /// Whether each fact has one order.
    fn is_plain(&self) -> bool
        ensures plain { IsTrue result → in_orders (facts_in self.now) ≡ facts_in self.now }
    {
        self.turned.is_none()
    }

    /// The ints that these facts or new ones name, where it is to be told.
    fn ints_with(&self, alloc: Global, told: bool, new: &[Fact]) -> Result<Vec<Path>, AllocError>
        ensures rising { IfOk result (λ ints. IsRising ints.items) }
        ensures told { IfOk result (λ ints. IsTrue told → ints.items ≡ put_all self.now.ints.items (named_ints new.now)) }
    {
        if !told {
            return Ok(Vec::new(alloc));
        }
        with_ints(alloc, &self.ints, new)
    }

    /// The ints that these facts name and the step doesn't change, where it is to be told.
    fn ints_beside(
        &self,
        alloc: Global,
        told: bool,
        changed: &Changed,
    ) -> Result<Vec<Path>, AllocError>
        ensures rising { IfOk result (λ ints. IsRising ints.items) }
        ensures told { IfOk result (λ ints. IsTrue told → ints.items ≡ paths_beside (is_changed changed.now) self.now.ints.items) }
    {
        if !told {
            return Ok(Vec::new(alloc));
        }
        unchanged_paths(alloc, &self.ints, changed)
    }

    /// The ints that these facts name, where it is to be told.
    fn ints_told(&self, alloc: Global, told: bool) -> Result<Vec<Path>, AllocError>
        ensures rising { IfOk result (λ ints. IsRising ints.items) }
        ensures told { IfOk result (λ ints. IsTrue told → ints.items ≡ self.now.ints.items) }
    {
        if !told {
            return Ok(Vec::new(alloc));
        }
        Vec::from_slice(alloc, &self.ints)
    }

    /// Whether each fact has one order, and each new one too.
    fn is_plain_with(&self, new: &[Fact]) -> bool
        ensures { record {
          known : IsTrue result → in_orders (facts_in self.now) ≡ facts_in self.now;
          new : IsTrue result → in_orders new.now ≡ new.now;
        } }
    {
        self.is_plain() && have_one_order(new)
    }

    /// A closed table of which no range is empty, with the lists beside it. The only error is want of memory.
    fn with_lists(alloc: Global, over: TableOver) -> Result<Known, AllocError>
        requires closed { Closed (facts_of over) }
        requires full { some_empty (facts_of over) ≡ false }
        ensures table { IfOk result (λ known. known.table ≡ over) }
    {
        let facts = over.table.as_slice();
        let _count = facts.len();
        let turned = orders_beside(alloc, facts, over.plain)?;
        let (ints, arrays) = ints_and_arrays_of(alloc, &over)?;
        let ends = ends_of(&over.table, &turned);
        let from_links = before_links(ordered(facts, &turned));
        Ok(Known {
            table: over.table,
            turned,
            ends,
            from_links,
            ints,
            arrays,
        })
    }

    /// No facts. The only error is want of memory.
    pub(crate) fn none(alloc: Global) -> Result<Known, AllocError>
        ensures none { IfOk result (λ known. facts_in known ≡ []) }
    {
        let table = FactTable::new(alloc, Kind::Any);
        let over = TableOver {
            table,
            ints: Vec::new(alloc),
            told: false,
            plain: true,
        };
        Known::with_lists(alloc, over)
    }

    /// The facts of a closed table, or none where a range is empty. The only error is want of memory.
    pub(crate) fn of_table(alloc: Global, over: TableOver) -> Result<Option<Known>, AllocError>
        requires closed { Closed (facts_of over) }
        ensures store { IfOk result (λ known. (facts : List Fact) → IsClosedOf facts (facts_of over) → IsStoreOf facts (stored_in known)) }
    {
        if has_empty(&over.table) {
            return Ok(None);
        }
        let known = Known::with_lists(alloc, over)?;
        Ok(Some(known))
    }

    /// The table of all that follows from these and new facts; none where these say that already. The only error is want of memory.
    pub(crate) fn grown(
        &self,
        alloc: Global,
        new: Vec<Fact>,
    ) -> Result<Option<TableOver>, AllocError>
        requires classes { HaveClasses new.items }
        ensures same { IfOk result (λ more. IfNone more (IsClosedOf (facts_in self.now ++ new.items) (facts_in self.now))) }
        ensures more { IfOk result (λ more. IfSome more (λ more. IsClosedOf (facts_in self.now ++ new.items) (facts_of more))) }
    {
        if are_plain(&new) {
            return with_plain(alloc, self, new);
        }
        let added = added(alloc, &self.table, new)?;
        with_added(alloc, self, &added)
    }

    /// Whether the step may change a path that some fact names.
    fn is_touched(&self, changed: &Changed) -> bool
        ensures spared { IsFalse result → without (is_changed changed.now) (facts_in self.now) ≡ facts_in self.now }
    {
        changes_some(changed, &self.ints) || changes_some(changed, &self.arrays)
    }

    /// The table of the facts that name no changed path.
    fn table_beside(&self, alloc: Global, changed: &Changed) -> Result<TableOver, AllocError>
        ensures { IfOk result (λ over. facts_of over ≡ without (is_changed changed.now) (facts_in self.now)) }
    {
        let fewer = unchanged(alloc, self.table.as_slice(), changed)?;
        let table = self.table.of_part(fewer);
        let told = is_long(&table);
        let ints = self.ints_beside(alloc, told, changed)?;
        let over = TableOver {
            table,
            ints,
            told,
            plain: self.is_plain(),
        };
        Ok(over)
    }

    /// The facts that name no changed path; none where all facts are such. The only error is want of memory.
    pub(crate) fn beside(
        &self,
        alloc: Global,
        changed: &Changed,
    ) -> Result<Option<Known>, AllocError>
        ensures same { IfOk result (λ rest. IfNone rest (without (is_changed changed.now) (facts_in self.now) ≡ facts_in self.now)) }
        ensures fewer { IfOk result (λ rest. IfSome rest (λ rest. facts_in rest ≡ without (is_changed changed.now) (facts_in self.now))) }
    {
        if !self.is_touched(changed) {
            return Ok(None);
        }
        let over = self.table_beside(alloc, changed)?;
        let known = Known::with_lists(alloc, over)?;
        Ok(Some(known))
    }

    /// The table of what both say.
    fn common_table(&self, alloc: Global, other: &Known) -> Result<TableOver, AllocError>
        ensures { IfOk result (λ over. IsCommon (facts_in self.now) (facts_in other.now) (facts_of over)) }
    {
        let table = self.table.common(alloc, &other.table)?;
        let told = is_long(&table);
        let ints = self.ints_told(alloc, told)?;
        let over = TableOver {
            table,
            ints,
            told,
            plain: self.is_plain(),
        };
        Ok(over)
    }

    /// What both say. The only error is want of memory.
    pub(crate) fn common(&self, alloc: Global, other: &Known) -> Result<Known, AllocError>
        ensures common { IfOk result (λ known. IsCommon (facts_in self.now) (facts_in other.now) (facts_in known)) }
    {
        let over = self.common_table(alloc, other)?;
        Known::with_lists(alloc, over)
    }

    /// Whether these facts say all that the others say.
    pub(crate) fn says_all(&self, other: &Known) -> bool
        ensures below { IsTrue result ↔ SaysAll (facts_in self.now) (facts_in other.now) }
    {
        self.table.says_all(&other.table)
    }
}
