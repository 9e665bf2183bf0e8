//! The new facts behind each rule, before they are closed.

ghost use Rattle.std.specs.Prelude.{◌≡◌, ◌++◌, ◌∷◌, [], IfOk, OnOk};
ghost use Rattle.ix_facts.specs.Assume as claims;
ghost use Rattle.ix_facts.specs.Closure.{kept};
ghost use Rattle.ix_facts.specs.Facts.{in_orders};
ghost use Rattle.ix_facts.specs.Round.{rounded};
ghost use Rattle.ix_facts.specs.Stores.{with_outcome};
ghost use Rattle.ix_facts.specs.Systems.{HaveClasses};
ghost use Rattle.ix_facts.specs.SameFacts.{AreSame};
ghost use Rattle.ix_store.specs.NewFacts.{after_new, copy_new};
ghost use Rattle.ix_store.specs.StoredFacts.{facts_in};
ghost use Rattle.ix_test_facts.specs.OverGroups.{outcome_of};

use crate::known::{FEW, Known};
use crate::limited::Limited;
use ix_core::{Fact, OpKind, Path, PathClaim, Profile, Type_};
use ix_fact_list::FactList;
use ix_fact_paths::{Changed, rounded_facts, unchanged};
use ix_intervals::{push_fact, push_less, push_upper};
use ix_num::Arith;
use ix_test_facts::{Outcome, facts_of_outcome};
use ix_transfer::{facts_after, facts_of_copy, push_claim};
use std::alloc::{AllocError, Global};

fn push_kept(out: &mut Vec<Fact>, fact: &Fact) -> Result<(), AllocError>
    ensures { OnOk result (out.new.items ≡ out.old.items ++ kept (fact.now ∷ [])) }
{
    match fact {
        Fact::Less(p, q, c) => push_less(out, p, q, *c as i64),
        Fact::Upper(p, a, offset, c) => push_upper(out, p, a, offset, *c as i64),
        _ => push_fact(out, *fact),
    }
}

/// The facts, of which the constants are kept.
pub(crate) fn kept_facts(alloc: Global, facts: &[Fact]) -> Result<Vec<Fact>, AllocError>
    ensures facts { IfOk result (λ new. new.items ≡ kept facts.now) }
{
    let mut new = Vec::new(alloc);
    for fact in facts {
        push_kept(&mut new, fact)?;
    }
    Ok(new)
}

impl Known {
    /// The facts by the paths that they name: an index for one step, which goes with it. The only error is want of memory.
    fn by_path(&self, alloc: Global) -> Result<FactList, AllocError>
        ensures facts { IfOk result (λ list. list ≡ facts_in self.now) }
    {
        let facts = Vec::from_slice(alloc, self.table.as_slice())?;
        let ordered = Vec::from_slice(alloc, self.ordered())?;
        let ints = Vec::from_slice(alloc, &self.ints)?;
        let arrays = Vec::from_slice(alloc, &self.arrays)?;
        FactList::of_lists(alloc, facts, ordered, ints, arrays)
    }

    /// Whether a step can read the facts as they stand: few are read as fast as by their paths. It is for speed alone.
    fn are_few(&self) -> bool {
        self.table.as_slice().len() <= FEW
    }

    /// Whether the rule of an operation asks for limits and hardly for facts on a path: a sum looks at bounds of each array. It is for speed alone.
    fn asks_for_limits(&self, kind: &OpKind) -> bool {
        match kind {
            OpKind::Const(_, _) | OpKind::Copy(_, _, _) => true,
            OpKind::Num(_, arith, _, _) => {
                !matches!(arith, Arith::Add | Arith::Sub) || self.arrays.is_empty()
            }
            _ => false,
        }
    }

    /// The new facts behind an operation, of which these are the facts that name no path that it changes.
    pub(crate) fn after(
        &self,
        alloc: Global,
        profile: Profile,
        kind: &OpKind,
    ) -> Result<Vec<Fact>, AllocError>
        ensures facts { IfOk result (λ new. AreSame new.items (after_new (in_orders (facts_in self.now)) profile kind.now)) }
    {
        if self.are_few() {
            return facts_after(alloc, self, profile, kind);
        }
        if self.asks_for_limits(kind) {
            let limited = Limited::of(alloc, self)?;
            return facts_after(alloc, &limited, profile, kind);
        }
        let list = self.by_path(alloc)?;
        facts_after(alloc, &list, profile, kind)
    }

    /// The new facts behind a copy from one path to another, of which these are the facts that don't name the target.
    pub(crate) fn copy(
        &self,
        alloc: Global,
        ty: &Type_,
        target: &Path,
        source: &Path,
    ) -> Result<Vec<Fact>, AllocError>
        ensures facts { IfOk result (λ new. AreSame new.items (copy_new (facts_in self.now) ty.now target.now source.now)) }
    {
        if self.are_few() {
            return facts_of_copy(alloc, self, ty, target, source);
        }
        let limited = Limited::of(alloc, self)?;
        facts_of_copy(alloc, &limited, ty, target, source)
    }

    /// The new facts where an outcome is told.
    pub(crate) fn told(&self, alloc: Global, outcome: &Outcome) -> Result<Vec<Fact>, AllocError>
        ensures facts { IfOk result (λ new. AreSame (facts_in self.now ++ new.items) (with_outcome (outcome_of outcome.now) (facts_in self.now))) }
        ensures classes { IfOk result (λ new. HaveClasses new.items) }
    {
        facts_of_outcome(alloc, self, outcome)
    }

    /// The facts of a loop's label, before they are closed.
    pub(crate) fn rounded(
        &self,
        alloc: Global,
        marks: &[i32],
        scope: u32,
    ) -> Result<Vec<Fact>, AllocError>
        ensures facts { IfOk result (λ facts. facts.items ≡ rounded marks.now scope (facts_in self.now)) }
        ensures classes { IfOk result (λ facts. HaveClasses facts.items) }
    {
        let within = unchanged(alloc, self.table.as_slice(), &Changed::From(scope))?;
        rounded_facts(alloc, &within, marks)
    }
}

/// The new facts where a claim of the path is assumed.
pub(crate) fn assumed(alloc: Global, claim: &PathClaim, at: &Path) -> Result<Vec<Fact>, AllocError>
    ensures facts { IfOk result (λ new. new.items ≡ kept (claims.claim_facts claim.now at.now)) }
    ensures classes { IfOk result (λ new. HaveClasses new.items) }
{
    let mut told = Vec::new(alloc);
    push_claim(&mut told, claim, at)?;
    kept_facts(alloc, &told)
}
