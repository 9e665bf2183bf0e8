//! Rows of what operations and claims give, and of what is proved, over a plain list of facts.

use crate::known::told;
use ix_bounds::is_proved;
use ix_core::{Fact, OpKind, Path, PathClaim, Profile};
use ix_fact_list::FactList;
use ix_fact_paths::facts_without_target;
use ix_fact_rows::{Does, operation, says_all};
use ix_transfer::facts_after;
use ix_transfer_rules::push_claim;
use std::alloc::Global;
use std::process::Abort;

/// A step of a row.
#[derive(Clone, Copy)]
pub enum Step {
    /// a row begins: nothing is known
    New,
    /// a fact that is known
    Known(Fact),
    /// an operation, behind which the facts stay that don't name its target
    After(Profile, Does),
    /// a claim of the path is assumed
    Claimed(Path, PathClaim),
    /// a fact that is known then
    Has(Fact),
    /// the facts that are known then say no more and no less than those that are known or named by `Has`
    End,
    /// whether the claim of the path is proved
    Proves(Path, PathClaim, bool),
}

/// What was known, what is newly known, and what it should be. What is known then is `before` without what names a target, and `new`. `row` counts the rows.
#[derive(Drop)]
struct Walk {
    before: Vec<Fact>,
    beside: Vec<Fact>,
    wanted: Vec<Fact>,
    row: u32,
}

fn begin(walk: &mut Walk) -> bool {
    walk.row = walk.row.saturating_add(1);
    walk.before.clear();
    walk.beside.clear();
    walk.wanted.clear();
    true
}

fn add_to<R: Abort>(rt: &R, facts: &mut Vec<Fact>, fact: &Fact) -> bool {
    facts.push(*fact).expect(rt, "memory");
    true
}

/// A fact that is known, and that should be known.
fn add_known<R: Abort>(rt: &R, walk: &mut Walk, fact: &Fact) -> bool {
    add_to(rt, &mut walk.before, fact)
        && add_to(rt, &mut walk.beside, fact)
        && add_to(rt, &mut walk.wanted, fact)
}

pub fn list<R: Abort>(rt: &R, alloc: Global, facts: &[Fact]) -> FactList {
    told(rt, alloc, facts, &[]).expect(rt, "memory")
}

fn new_facts<R: Abort>(
    rt: &R,
    alloc: Global,
    beside: &[Fact],
    profile: Profile,
    kind: &OpKind,
) -> Vec<Fact> {
    let know = list(rt, alloc, beside);
    facts_after(alloc, &know, profile, kind).expect(rt, "memory")
}

fn add_new<R: Abort>(rt: &R, alloc: Global, walk: &mut Walk, profile: Profile, kind: &OpKind) {
    walk.beside = facts_without_target(alloc, &walk.before, kind).expect(rt, "memory");
    let new = new_facts(rt, alloc, &walk.beside, profile, kind);
    walk.beside.extend_from_slice(&new).expect(rt, "memory");
}

fn operate<R: Abort>(rt: &R, alloc: Global, walk: &mut Walk, profile: Profile, does: Does) -> bool {
    let kind = operation(alloc, does).expect(rt, "memory");
    add_new(rt, alloc, walk, profile, &kind);
    true
}

fn claim_all<R: Abort>(rt: &R, walk: &mut Walk, p: &Path, claim: &PathClaim) -> bool {
    push_claim(&mut walk.beside, claim, p).expect(rt, "memory");
    true
}

fn is_so<R: Abort>(rt: &R, alloc: Global, facts: &[Fact], p: &Path, claim: &PathClaim) -> bool {
    let know = list(rt, alloc, facts);
    is_proved(&know, claim, p)
}

/// Takes a step: whether it is as it says.
fn take<R: Abort>(rt: &R, alloc: Global, walk: &mut Walk, step: &Step) -> bool {
    match step {
        Step::New => begin(walk),
        Step::Known(fact) => add_known(rt, walk, fact),
        Step::After(profile, does) => operate(rt, alloc, walk, *profile, *does),
        Step::Claimed(p, claim) => claim_all(rt, walk, p, claim),
        Step::Has(fact) => add_to(rt, &mut walk.wanted, fact),
        Step::End => says_all(&walk.beside, &walk.wanted) && says_all(&walk.wanted, &walk.beside),
        Step::Proves(p, claim, proved) => is_so(rt, alloc, &walk.before, p, claim) == *proved,
    }
}

/// Each row is as it says.
pub fn agree<R: Abort + AllocGlobal>(rt: &R, steps: &[Step]) {
    let alloc = rt.alloc();
    let mut walk = Walk {
        before: Vec::new(alloc),
        beside: Vec::new(alloc),
        wanted: Vec::new(alloc),
        row: 0,
    };
    for step in steps {
        assert!(rt; take(rt, alloc, &mut walk, step), "row {}", walk.row);
    }
}
