//! The store behind each rule.

ghost use Rattle.std.specs.Prelude.{◌≡◌, ◌++◌, [], ◌↔◌, List, IsTrue, IfOk};
ghost use Rattle.ix_core.specs.declared.fact.Fact.{Fact};
ghost use Rattle.ix_facts.specs.Closure.{Closed, IsClosedOf};
ghost use Rattle.ix_facts.specs.Stores.{Unreachable, Reached, IsStoreOf, IsAfter, IsCopied, IsTold, IsAssumed, IsAdded, IsForgotten, IsRounded, IsProved};
ghost use Rattle.ix_facts.specs.Systems.{HaveClasses};
ghost use Rattle.ix_facts.specs.Forget.{without, of_path, of_field, of_call};
ghost use Rattle.ix_fact_paths.specs.ChangedPaths.{is_spared, is_final, of_called, of_parent, is_changed};
ghost use Rattle.ix_fact_table.specs.FactTables.{facts_of};
ghost use Rattle.ix_store.specs.StoredFacts.{facts_in, stored};
ghost use Rattle.ix_store.specs.StoreOrder.{nowhere};
ghost use Rattle.ix_test_facts.specs.OverGroups.{outcome_of};

use crate::facts_after::{assumed, kept_facts};
use crate::known::Known;
use crate::over::TableOver;
use crate::store::Store;
use ix_bounds::is_proved;
use ix_core::{Fact, OpKind, Path, PathClaim, Profile, Program, Type_};
use ix_fact_paths::Changed;
use ix_facts::Landmarks;
use ix_test_facts::Outcome;
use ix_text::Joint;
use std::alloc::{AllocError, Global};

fn reached(alloc: Global, known: Known) -> Result<Store, AllocError>
    ensures { IfOk result (λ store. stored store ≡ Reached (facts_in known)) }
{
    let known = Joint::new(alloc, known)?;
    Ok(Store { known: Some(known) })
}

/// The store of a closed table, unreachable where one of its ranges is empty.
fn of_table(alloc: Global, over: TableOver) -> Result<Store, AllocError>
    requires closed { Closed (facts_of over) }
    ensures store { IfOk result (λ store. (facts : List Fact) → IsClosedOf facts (facts_of over) → IsStoreOf facts (stored store)) }
{
    match Known::of_table(alloc, over)? {
        None => Ok(Store::unreachable()),
        Some(known) => reached(alloc, known),
    }
}

/// The store of known facts, held jointly.
fn held(known: &Joint<Known>) -> Result<Store, AllocError>
    ensures { IfOk result (λ store. stored store ≡ Reached (facts_in known.now)) }
{
    let known = known.join()?;
    Ok(Store { known: Some(known) })
}

/// The facts that name no changed path; held jointly where all facts are such.
fn left(alloc: Global, known: &Joint<Known>, changed: &Changed) -> Result<Joint<Known>, AllocError>
    ensures { IfOk result (λ left. facts_in left ≡ without (is_changed changed.now) (facts_in known.now)) }
{
    match known.get().beside(alloc, changed)? {
        None => known.join(),
        Some(fewer) => Joint::new(alloc, fewer),
    }
}

/// No facts.
fn nothing(alloc: Global) -> Result<Joint<Known>, AllocError>
    ensures { IfOk result (λ none. facts_in none ≡ []) }
{
    Joint::new(alloc, Known::none(alloc)?)
}

fn is_none(facts: &[Fact]) -> bool
    ensures { IsTrue result ↔ (facts.now ≡ []) }
{
    facts.is_empty()
}

/// The closed store of known facts and new ones; held jointly where these say nothing new.
fn with_new(alloc: Global, known: &Joint<Known>, new: Vec<Fact>) -> Result<Store, AllocError>
    requires classes { HaveClasses new.items }
    ensures store { IfOk result (λ store. IsStoreOf (facts_in known.now ++ new.items) (stored store)) }
{
    if is_none(&new) {
        drop(new);
        return held(known);
    }
    match known.get().grown(alloc, new)? {
        None => held(known),
        Some(over) => of_table(alloc, over),
    }
}

impl Store {
    /// The store at a place where no state is. It takes no memory.
    pub fn unreachable() -> Store
        ensures store { result ≡ nowhere }
    {
        Store { known: None }
    }

    /// Whether no state is at the place. It takes no memory.
    pub fn is_unreachable(&self) -> bool
        ensures answer { IsTrue result ↔ (stored self.now ≡ Unreachable) }
    {
        self.known.is_none()
    }

    /// The closed store of facts: unreachable where an empty range follows from them. What an int is at least has to be -1, 0 or 1. The only error is want of
    /// memory.
    pub fn of_facts(alloc: Global, facts: &[Fact]) -> Result<Store, AllocError>
        requires classes { HaveClasses facts.now }
        ensures store { IfOk result (λ store. IsStoreOf facts.now (stored store)) }
    {
        let none = nothing(alloc)?;
        let told = Vec::from_slice(alloc, facts)?;
        with_new(alloc, &none, told)
    }

    /// The store behind an operation that is no call and touches no field. The only error is want of memory.
    pub fn after(&self, alloc: Global, profile: Profile, kind: &OpKind) -> Result<Store, AllocError>
        ensures after { IfOk result (λ after. IsAfter profile kind.now (stored self.now) (stored after)) }
    {
        let Some(known) = &self.known else {
            return Ok(Store::unreachable());
        };
        let left = left(alloc, known, &Changed::Target(kind))?;
        let new = left.get().after(alloc, profile, kind)?;
        with_new(alloc, &left, new)
    }

    /// The store behind a copy of the value of one path to another. The only error is want of memory.
    pub fn copy(
        &self,
        alloc: Global,
        target: &Path,
        source: &Path,
        ty: &Type_,
    ) -> Result<Store, AllocError>
        ensures after { IfOk result (λ after. IsCopied ty.now target.now source.now (stored self.now) (stored after)) }
    {
        let Some(known) = &self.known else {
            return Ok(Store::unreachable());
        };
        let left = left(alloc, known, &Changed::At(*target))?;
        let new = left.get().copy(alloc, ty, target, source)?;
        with_new(alloc, &left, new)
    }

    /// The store where an outcome is told. The only error is want of memory.
    pub fn told(&self, alloc: Global, outcome: &Outcome) -> Result<Store, AllocError>
        ensures after { IfOk result (λ after. IsTold (outcome_of outcome.now) (stored self.now) (stored after)) }
    {
        let Some(known) = &self.known else {
            return Ok(Store::unreachable());
        };
        let new = known.get().told(alloc, outcome)?;
        with_new(alloc, known, new)
    }

    /// The store with the facts of a claim of the path, where it is assumed. The only error is want of memory.
    pub fn assume(&self, alloc: Global, claim: &PathClaim, at: &Path) -> Result<Store, AllocError>
        ensures after { IfOk result (λ after. IsAssumed claim.now at.now (stored self.now) (stored after)) }
    {
        let Some(known) = &self.known else {
            return Ok(Store::unreachable());
        };
        let new = assumed(alloc, claim, at)?;
        with_new(alloc, known, new)
    }

    /// The store without the facts that name the path; of a slot also without those that name a field of the object in it. The only error is want of memory.
    pub fn forget(&self, alloc: Global, path: &Path) -> Result<Store, AllocError>
        ensures after { IfOk result (λ after. IsForgotten (of_path path.now) (stored self.now) (stored after)) }
    {
        self.forget_changed(alloc, &Changed::At(*path))
    }

    /// The store behind a write of a field: without the facts that name the field, of the object in any slot but the spared one, since two slots may hold one object (JLS 15.26.1). The only error is want of memory.
    pub fn forget_field(
        &self,
        alloc: Global,
        field: u32,
        spared: Option<u32>,
    ) -> Result<Store, AllocError>
        ensures after { IfOk result (λ after. IsForgotten (of_field field (is_spared spared)) (stored self.now) (stored after)) }
    {
        self.forget_changed(alloc, &Changed::Field(field, spared))
    }

    /// The store behind a call that may have side effects: without the facts that name a field that isn't final, of the object in any slot but the spared one (JLS 15.12.4, 17.5). A field that the program doesn't have counts as one that isn't final. The only error is want of memory.
    pub fn forget_call(
        &self,
        alloc: Global,
        program: &Program,
        spared: Option<u32>,
    ) -> Result<Store, AllocError>
        ensures after { IfOk result (λ after. IsForgotten (of_call (is_final program.now) (is_spared spared)) (stored self.now) (stored after)) }
    {
        self.forget_changed(alloc, &Changed::Call(program, spared))
    }

    /// The store behind a call, without what is known of its result: without the facts that name the slot that gets it and, where the callee isn't side-effect-free, those that `forget_call` drops. The only error is want of memory.
    pub fn forget_called(
        &self,
        alloc: Global,
        program: &Program,
        target: u32,
        free: bool,
        spared: Option<u32>,
    ) -> Result<Store, AllocError>
        ensures after { IfOk result (λ after. IsForgotten (of_called program.now target free spared) (stored self.now) (stored after)) }
    {
        self.forget_changed(alloc, &Changed::Called(program, target, free, spared))
    }

    /// The same behind a call of the parent's constructor: also without the facts that name a field of the object in slot 0 (JLS 8.8.7.1). The only error is want of memory.
    pub fn forget_parent(
        &self,
        alloc: Global,
        program: &Program,
        target: u32,
        free: bool,
        spared: Option<u32>,
    ) -> Result<Store, AllocError>
        ensures after { IfOk result (λ after. IsForgotten (of_parent program.now target free spared) (stored self.now) (stored after)) }
    {
        self.forget_changed(alloc, &Changed::Parent(program, target, free, spared))
    }

    fn forget_changed(&self, alloc: Global, changed: &Changed) -> Result<Store, AllocError>
        ensures after { IfOk result (λ after. IsForgotten (is_changed changed.now) (stored self.now) (stored after)) }
    {
        let Some(known) = &self.known else {
            return Ok(Store::unreachable());
        };
        let left = left(alloc, known, changed)?;
        Ok(Store { known: Some(left) })
    }

    /// The store of a loop's label: without the facts that name a slot from `scope` on, the constants of the others moved to landmarks. The only error is want of memory.
    pub fn round(&self, alloc: Global, marks: &Landmarks, scope: u32) -> Result<Store, AllocError>
        ensures after { IfOk result (λ after. IsRounded marks.now.ints scope (stored self.now) (stored after)) }
    {
        let Some(known) = &self.known else {
            return Ok(Store::unreachable());
        };
        let facts = known.get().rounded(alloc, marks.ints.as_slice(), scope)?;
        Store::of_facts(alloc, &facts)
    }

    /// The store with more facts. What an int is at least must be -1, 0 or 1 in each of them. The only error is want of memory.
    pub fn add(&self, alloc: Global, more: &[Fact]) -> Result<Store, AllocError>
        requires classes { HaveClasses more.now }
        ensures after { IfOk result (λ after. IsAdded more.now (stored self.now) (stored after)) }
    {
        let Some(known) = &self.known else {
            return Ok(Store::unreachable());
        };
        let new = kept_facts(alloc, more)?;
        with_new(alloc, known, new)
    }

    /// The same store once more, without a copy of its facts. The only error is want of memory for one owner more.
    pub fn share(&self) -> Result<Store, AllocError>
        ensures shared { IfOk result (λ store. store ≡ self.now) }
    {
        match &self.known {
            None => Ok(Store::unreachable()),
            Some(known) => {
                let known = known.join()?;
                Ok(Store { known: Some(known) })
            }
        }
    }

    /// Whether the store proves the claim of the path; the unreachable one proves every claim. It takes no memory.
    pub fn proves(&self, claim: &PathClaim, at: &Path) -> bool
        ensures proved { IsTrue result ↔ IsProved claim.now at.now (stored self.now) }
    {
        match &self.known {
            None => true,
            Some(known) => is_proved(known.get(), claim, at),
        }
    }
}
