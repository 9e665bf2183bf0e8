//! A list of facts as what is known.

ghost use Rattle.std.specs.Prelude.{◌≡◌, ◌++◌, ◌∷◌, [], All, List, IfOk, OnOk};
ghost use Rattle.ix_core.specs.declared.fact.Path.{Path};
ghost use Rattle.ix_core.specs.declared.fact.Fact.{Fact};
ghost use Rattle.ix_facts.specs.Facts.{in_orders};
ghost use Rattle.ix_facts.specs.Forget.{of_path, without};
ghost use Rattle.ix_facts.specs.After.{of_target};
ghost use Rattle.ix_facts.specs.Exact.{named_ints, named_arrays};
ghost use Rattle.ix_facts.specs.Small.{HasSmallNumbers};
ghost use Rattle.ix_bounds.specs.Ends.{ends_in};
ghost use Rattle.ix_fact_paths.specs.ByPath.{put_all};
ghost use Rattle.ix_fact_paths.specs.Grouped.{on_grouped, on_list};
ghost use Rattle.ix_fact_paths.specs.Spared.{some_named};

use crate::ends::ends_of;
use ix_bounds::{self, Groups};
use ix_core::{Fact, OpKind, Path, PathOff};
use ix_fact_paths::{
    Grouped, assigned_path, in_all_orders, ints_and_arrays, names_path, names_target,
    some_name_path, some_name_target,
};
use ix_facts::{Indexed, Know};
use std::alloc::{AllocError, Global};
use std::marker::Model;

/// Facts in the order in which they are given, with those that name a path at hand: of many facts a bound looks at those alone that name its paths.
#[derive(Drop)]
pub struct FactList {
    facts: Vec<Fact>,
    /// The facts in all their orders, with those on each path.
    by_path: Grouped,
    /// The same of ranges, classes and lengths alone.
    ends: Grouped,
    /// The ints and arrays that the facts name, each once.
    ints: Vec<Path>,
    arrays: Vec<Path>,
}

impl Model for FactList {
    ghost Value = { List Fact };

    ghost view = { λ list. list.facts.items };

    ghost invariant = { λ list. (All HasSmallNumbers list.facts.items
        × (((p : Path) → on_grouped list.by_path p ≡ on_list (in_orders list.facts.items) p) × ((p : Path) → on_grouped list.ends p ≡ on_list (ends_in (in_orders list.facts.items)) p)))
        × ((list.ints.items ≡ put_all [] (named_ints (in_orders list.facts.items))) × (list.arrays.items ≡ put_all [] (named_arrays (in_orders list.facts.items)))) };
}

fn push_beside_changed(facts: &mut Vec<Fact>, kind: &OpKind, fact: &Fact) -> Result<(), AllocError>
    ensures { OnOk result (facts.new.items ≡ facts.old.items ++ without (of_target kind.now) (fact.now ∷ [])) }
{
    if names_target(kind, fact) {
        return Ok(());
    }
    facts.push(*fact).map_err(AllocError::from)
}

fn push_beside_path(facts: &mut Vec<Fact>, path: &Path, fact: &Fact) -> Result<(), AllocError>
    ensures { OnOk result (facts.new.items ≡ facts.old.items ++ without (of_path path.now) (fact.now ∷ [])) }
{
    if names_path(path, fact) {
        return Ok(());
    }
    facts.push(*fact).map_err(AllocError::from)
}

/// An empty list with room for as many facts, or for 1,024 if they are more.
fn with_room(alloc: Global, count: u128) -> Result<Vec<Fact>, AllocError>
    ensures { IfOk result (λ facts. facts.items ≡ []) }
{
    let room = if count < 1024 { count } else { 1024 };
    Vec::with_capacity(alloc, room as usize)
}

fn facts_beside_changed<K: Know>(
    alloc: Global,
    know: &K,
    kind: &OpKind,
) -> Result<Vec<Fact>, AllocError>
    ensures { record {
      facts : IfOk result (λ facts. facts.items ≡ without (of_target kind.now) (K.known know.now));
      small : IfOk result (λ facts. All HasSmallNumbers facts.items);
    } }
{
    let mut facts = with_room(alloc, know.facts())?;
    for k in 0..know.facts() {
        push_beside_changed(&mut facts, kind, &know.fact(k))?;
    }
    Ok(facts)
}

fn facts_beside_path<K: Know>(alloc: Global, know: &K, path: &Path) -> Result<Vec<Fact>, AllocError>
    ensures { record {
      facts : IfOk result (λ facts. facts.items ≡ without (of_path path.now) (K.known know.now));
      small : IfOk result (λ facts. All HasSmallNumbers facts.items);
    } }
{
    let mut facts = with_room(alloc, know.facts())?;
    for k in 0..know.facts() {
        push_beside_path(&mut facts, path, &know.fact(k))?;
    }
    Ok(facts)
}

/// The facts that name no path that the operation may change. To look for one path takes less than to ask the operation for each.
fn facts_beside_target<K: Know>(
    alloc: Global,
    know: &K,
    kind: &OpKind,
) -> Result<Vec<Fact>, AllocError>
    ensures { record {
      facts : IfOk result (λ facts. facts.items ≡ without (of_target kind.now) (K.known know.now));
      small : IfOk result (λ facts. All HasSmallNumbers facts.items);
    } }
{
    match assigned_path(kind) {
        Some(path) => facts_beside_path(alloc, know, &path),
        None => facts_beside_changed(alloc, know, kind),
    }
}

impl FactList {
    /// The facts, where the ends of ranges lie between -2^36 and 2^36, and what an int is at least is -1, 0 or 1; or want of memory. It takes time near
    /// linear in their number.
    pub fn new(alloc: Global, facts: Vec<Fact>) -> Result<Self, AllocError>
        requires small { All HasSmallNumbers facts.items }
        ensures facts { IfOk result (λ list. list ≡ facts.items) }
    {
        let ordered = in_all_orders(alloc, &facts)?;
        let (ints, arrays) = ints_and_arrays(alloc, &ordered)?;
        FactList::of_lists(alloc, facts, ordered, ints, arrays)
    }

    /// The same, where the facts in all their orders are at hand, and the ints and arrays that they name.
    pub fn of_lists(
        alloc: Global,
        facts: Vec<Fact>,
        ordered: Vec<Fact>,
        ints: Vec<Path>,
        arrays: Vec<Path>,
    ) -> Result<Self, AllocError>
        requires small { All HasSmallNumbers facts.items }
        requires orders { ordered.items ≡ in_orders facts.items }
        requires ints { ints.items ≡ put_all [] (named_ints (in_orders facts.items)) }
        requires arrays { arrays.items ≡ put_all [] (named_arrays (in_orders facts.items)) }
        ensures facts { IfOk result (λ list. list ≡ facts.items) }
    {
        let ends = Grouped::of(alloc, ends_of(alloc, &ordered)?)?;
        let by_path = Grouped::of(alloc, ordered)?;
        Ok(FactList {
            facts,
            by_path,
            ends,
            ints,
            arrays,
        })
    }

    /// The facts, in the order in which they were given. It takes no memory.
    pub fn as_slice(&self) -> &[Fact]
        ensures facts { result.now ≡ self.now }
    {
        &self.facts
    }

    /// Whether a fact names a path that the operation may change. It takes no memory.
    pub fn names_target(&self, kind: &OpKind) -> bool
        ensures named { result ≡ some_named (of_target kind.now) self.now }
    {
        some_name_target(&self.facts, kind)
    }

    /// Whether a fact names the path, or a field of the object in it. It takes no memory.
    pub fn names_path(&self, path: &Path) -> bool
        ensures named { result ≡ some_named (of_path path.now) self.now }
    {
        some_name_path(&self.facts, path)
    }

    /// What is known beside the target of an operation: what the rules read.
    pub fn beside_target<K: Know>(
        alloc: Global,
        know: &K,
        kind: &OpKind,
    ) -> Result<Self, AllocError>
        ensures facts { IfOk result (λ list. list ≡ without (of_target kind.now) (K.known know.now)) }
    {
        FactList::new(alloc, facts_beside_target(alloc, know, kind)?)
    }

    /// What is known beside a path, and fields of the object in it: what the rules of a copy to it read.
    pub fn beside_path<K: Know>(alloc: Global, know: &K, path: &Path) -> Result<Self, AllocError>
        ensures facts { IfOk result (λ list. list ≡ without (of_path path.now) (K.known know.now)) }
    {
        FactList::new(alloc, facts_beside_path(alloc, know, path)?)
    }
}

impl Groups for FactList {
    ghost use Rattle.ix_facts.specs.Facts.{in_orders};
    ghost use Rattle.ix_bounds.specs.Ends.{ends_in};
    ghost use Rattle.ix_fact_paths.specs.Grouped.{on_list};
    ghost use Rattle.ix_fact_paths.specs.OnListLaws.{on_list_named, on_list_only};
    ghost use Rattle.ix_fact_list.specs.GroupLaws.{ends_named, links_among, lengths_among};

    ghost all = { λ list. in_orders list };

    ghost group = { λ list p. on_list (in_orders list) p };

    fn on_path(&self, p: &Path) -> &[Fact] {
        self.by_path.on(p)
    }

    ghost ends = { λ list p. on_list (ends_in (in_orders list)) p };

    fn ends_on(&self, p: &Path) -> &[Fact] {
        self.ends.on(p)
    }

    ghost links = { λ list p. on_list (in_orders list) p };

    fn links_on(&self, p: &Path) -> &[Fact] {
        self.by_path.on(p)
    }

    ghost lengths = { λ list p. on_list (ends_in (in_orders list)) p };

    fn lengths_on(&self, p: &Path) -> &[Fact] {
        self.ends.on(p)
    }

    fn fact_less(&self, p: &Path, q: &Path) -> Option<i64> {
        ix_bounds::fact_less_among(self.by_path.on(p), p, q)
    }

    ghost named = { λ list p. on_list_named p (in_orders list) };

    ghost named_ends = { λ list p. ends_named p (in_orders list) };

    ghost named_links = { λ list p. links_among p (in_orders list) };

    ghost named_lengths = { λ list p. lengths_among p (in_orders list) };

    ghost only = { λ list p. on_list_only p (in_orders list) };
}

impl Know for FactList {
    ghost use Rattle.ix_facts.specs.Facts.{in_orders};
    ghost use Rattle.ix_facts.specs.Exact.{named_ints, named_arrays};
    ghost use Rattle.ix_fact_paths.specs.ByPath.{put_all};
    ghost use Rattle.ix_fact_paths.specs.PutLaws.{put_once};

    ghost known = { λ list. list };

    ghost int_paths = { λ list. put_all [] (named_ints (in_orders list)) };

    ghost each_int = { λ list. put_once (named_ints (in_orders list)) };

    ghost array_paths = { λ list. put_all [] (named_arrays (in_orders list)) };

    ghost each_array = { λ list. put_once (named_arrays (in_orders list)) };

    fn facts(&self) -> u128 {
        self.facts.len() as u128
    }

    fn fact(&self, k: u128) -> Fact {
        self.facts[k as usize]
    }

    fn lo(&self, p: &Path) -> i64 {
        ix_bounds::lower_bound(self, p)
    }

    fn hi(&self, p: &Path) -> i64 {
        ix_bounds::upper_limit(self, p)
    }

    fn len_lo(&self, a: &Path) -> i64 {
        ix_bounds::length_low(self, a)
    }

    fn len_hi(&self, a: &Path) -> i64 {
        ix_bounds::length_high(self, a)
    }

    fn upper(&self, p: &Path, a: &Path, offset: &PathOff) -> Option<i64> {
        ix_bounds::upper_bound(self, p, a, offset)
    }

    fn less(&self, p: &Path, q: &Path) -> Option<i64> {
        Some(ix_bounds::less_bound(self, p, q))
    }

    fn difference(&self, p: &Path, q: &Path) -> Option<i64> {
        self.fact_less(p, q)
    }

    fn same(&self, a: &Path, b: &Path) -> bool {
        ix_bounds::stored_same(self, a, b)
    }

    fn is_len(&self, p: &Path, a: &Path) -> bool {
        ix_bounds::has_length(self, p, a)
    }

    fn search(&self, p: &Path, a: &Path) -> bool {
        ix_bounds::has_search(self, p, a)
    }

    fn negative(&self, p: &Path, a: &Path) -> bool {
        ix_bounds::has_negative(self, p, a)
    }

    fn ints(&self) -> u128 {
        self.ints.len() as u128
    }

    fn int(&self, k: u128) -> Path {
        self.ints[k as usize]
    }

    fn arrays(&self) -> u128 {
        self.arrays.len() as u128
    }

    fn array(&self, k: u128) -> Path {
        self.arrays[k as usize]
    }
}

impl Indexed for FactList {
    ghost use Rattle.ix_facts.specs.Facts.{in_orders};
    ghost use Rattle.ix_fact_paths.specs.Grouped.{on_list};
    ghost use Rattle.ix_fact_paths.specs.OnListLaws.{on_list_named};

    ghost on_path = { λ list p. on_list (in_orders list) p };

    fn on(&self, p: &Path) -> &[Fact] {
        self.on_path(p)
    }

    fn int_list(&self) -> &[Path] {
        &self.ints
    }

    fn array_list(&self) -> &[Path] {
        &self.arrays
    }

    ghost each_named = { λ list p. on_list_named p (in_orders list) };
}
