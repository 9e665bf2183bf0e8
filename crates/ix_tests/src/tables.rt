//! Rows of what the six tables of facts answer.

use crate::known::{are_small, known_beside_path, known_beside_target, landmarks};
use ix_core::{Fact, Op, OpKind, Path, Profile};
use ix_fact_rows::{Does, Holds, drawn_facts, is_fact, is_proper, operation, type_of, with_fact};
use ix_facts::System;
use ix_lattice::Lattice;
use ix_systems::{Bounds, Differences, FactsOf, Lengths, Lows, OneKind, Ranges, Searches};
use ix_text::{List, Span};
use std::alloc::{AllocError, Global};
use std::process::Abort;

/// A step of a row.
#[derive(Clone, Copy)]
pub enum Step {
    /// a row begins: nothing is known
    New,
    /// a fact that is known
    Known(Fact),
    /// a fact of others, for joins and orders
    Other(Fact),
    /// where the drawing of facts that are known starts, and how many are drawn
    Drawn(u32, u32),
    /// the same of others
    OtherDrawn(u32, u32),
    /// the tables of the facts
    Table,
    /// the tables with a fact more
    Add(Fact),
    /// the tables without what names the path
    Forget(Path),
    /// the tables moved to four landmarks
    Round(i32, i32, i32, i32),
    /// the joins with the tables of the others
    Join,
    /// the tables after a copy to the first path from the second
    Copied(Path, Path, Holds),
    /// the tables after an operation
    After(Profile, Does),
    /// of each table whether it says all that that of the others says
    Below([bool; 6]),
    /// how many facts the six tables have together
    Facts(usize),
    /// the next of these facts
    Has(Fact),
    /// the checksum of these facts
    Checksum(i64),
}

/// What is known, other facts, the facts of the six tables, of which some have been seen, and how many rows have begun.
#[derive(Drop)]
struct Walk {
    known: Vec<Fact>,
    others: Vec<Fact>,
    found: Vec<Fact>,
    seen: usize,
    row: u32,
}

#[tactic(auto, using(ix_systems::proofs::KnownClasses::small_classes))]
fn table<R: Abort, K: OneKind>(rt: &R, alloc: Global, facts: &[Fact]) -> FactsOf<K> {
    assert!(rt; are_small(facts), "a number is too large");
    FactsOf::of_facts(alloc, facts).expect(rt, "memory")
}

fn added<R: Abort, K: OneKind>(
    rt: &R,
    alloc: Global,
    table: &FactsOf<K>,
    fact: &Fact,
) -> Result<FactsOf<K>, AllocError> {
    assert!(rt; is_proper(fact), "the fact can't be added");
    table.add(alloc, fact)
}

fn joined<R: Abort, K: OneKind>(
    rt: &R,
    alloc: Global,
    first: &FactsOf<K>,
    others: &[Fact],
) -> Result<FactsOf<K>, AllocError> {
    let second = table::<R, K>(rt, alloc, others);
    first.join(alloc, &second)
}

fn copied<R: Abort, K: OneKind>(
    rt: &R,
    alloc: Global,
    table: &FactsOf<K>,
    known: &[Fact],
    target: &Path,
    source: &Path,
    holds: Holds,
) -> Result<FactsOf<K>, AllocError> {
    let know = known_beside_path(rt, alloc, table.as_slice(), known, target).expect(rt, "memory");
    let ty = type_of(alloc, holds);
    table.copy(alloc, target, source, &ty, &know, Profile::Int32)
}

fn op_of(alloc: Global, kind: OpKind) -> Op {
    Op {
        kind,
        span: Span { from: 0, to: 0 },
        parts: List::new(alloc),
    }
}

fn operated<R: Abort, K: OneKind>(
    rt: &R,
    alloc: Global,
    table: &FactsOf<K>,
    known: &[Fact],
    profile: Profile,
    does: Does,
) -> Result<FactsOf<K>, AllocError> {
    let op = op_of(alloc, operation(alloc, does).expect(rt, "memory"));
    let know = known_beside_target(rt, alloc, table.as_slice(), known, &op.kind).expect(
        rt, "memory",
    );
    table.after(alloc, &op, &know, profile)
}

/// The table behind a step.
fn behind<R: Abort, K: OneKind>(
    rt: &R,
    alloc: Global,
    first: &FactsOf<K>,
    walk: &Walk,
    step: &Step,
) -> Result<FactsOf<K>, AllocError> {
    match step {
        Step::Add(fact) => added(rt, alloc, first, fact),
        Step::Forget(path) => first.forget(alloc, path),
        Step::Round(a, b, c, d) => first.round(alloc, &landmarks(rt, alloc, *a, *b, *c, *d)),
        Step::Join => joined(rt, alloc, first, &walk.others),
        Step::Copied(target, source, holds) => {
            copied(rt, alloc, first, &walk.known, target, source, *holds)
        }
        Step::After(profile, does) => operated(rt, alloc, first, &walk.known, *profile, *does),
        _ => Ok(table(rt, alloc, &walk.known)),
    }
}

fn add_facts<R: Abort, S: System>(rt: &R, found: &mut Vec<Fact>, table: &S) {
    for k in 0..table.facts() {
        found.push(table.fact(k)).expect(rt, "memory");
    }
}

/// Adds the facts of one table behind a step.
fn tell<R: Abort, K: OneKind>(rt: &R, alloc: Global, walk: &mut Walk, step: &Step) {
    let first = table::<R, K>(rt, alloc, &walk.known);
    let after = behind(rt, alloc, &first, walk, step).expect(rt, "memory");
    add_facts(rt, &mut walk.found, &after);
}

fn tell_all<R: Abort>(rt: &R, alloc: Global, walk: &mut Walk, step: &Step) -> bool {
    tell::<R, Ranges>(rt, alloc, walk, step);
    tell::<R, Lows>(rt, alloc, walk, step);
    tell::<R, Lengths>(rt, alloc, walk, step);
    tell::<R, Differences>(rt, alloc, walk, step);
    tell::<R, Searches>(rt, alloc, walk, step);
    tell::<R, Bounds>(rt, alloc, walk, step);
    true
}

fn is_below<R: Abort, K: OneKind>(rt: &R, alloc: Global, walk: &Walk) -> bool {
    let first = table::<R, K>(rt, alloc, &walk.known);
    let second = table::<R, K>(rt, alloc, &walk.others);
    first.leq(&second)
}

fn are_below<R: Abort>(rt: &R, alloc: Global, walk: &Walk, answers: [bool; 6]) -> bool {
    is_below::<R, Ranges>(rt, alloc, walk) == answers[0]
        && is_below::<R, Lows>(rt, alloc, walk) == answers[1]
        && is_below::<R, Lengths>(rt, alloc, walk) == answers[2]
        && is_below::<R, Differences>(rt, alloc, walk) == answers[3]
        && is_below::<R, Searches>(rt, alloc, walk) == answers[4]
        && is_below::<R, Bounds>(rt, alloc, walk) == answers[5]
}

fn begin(walk: &mut Walk) -> bool {
    walk.row = walk.row.saturating_add(1);
    walk.known.clear();
    walk.others.clear();
    walk.found.clear();
    walk.seen = 0;
    true
}

fn add_to<R: Abort>(rt: &R, facts: &mut Vec<Fact>, fact: &Fact) -> bool {
    facts.push(*fact).expect(rt, "memory");
    true
}

fn draw_to<R: Abort>(rt: &R, alloc: Global, facts: &mut Vec<Fact>, start: u32, count: u32) -> bool {
    *facts = drawn_facts(alloc, start, count).expect(rt, "memory");
    true
}

/// Whether this is the next fact.
fn is_next(walk: &mut Walk, fact: &Fact) -> bool {
    match walk.found.get(walk.seen) {
        None => false,
        Some(found) => {
            walk.seen = walk.seen.saturating_add(1);
            is_fact(found, fact)
        }
    }
}

fn checksum(facts: &[Fact]) -> i64 {
    let mut sum = 0i64;
    for fact in facts {
        sum = with_fact(sum, fact);
    }
    sum
}

/// Takes a step: whether it is as it says.
fn take<R: Abort>(rt: &R, alloc: Global, walk: &mut Walk, step: &Step) -> bool {
    match step {
        Step::New => begin(walk),
        Step::Known(fact) => add_to(rt, &mut walk.known, fact),
        Step::Other(fact) => add_to(rt, &mut walk.others, fact),
        Step::Drawn(start, count) => draw_to(rt, alloc, &mut walk.known, *start, *count),
        Step::OtherDrawn(start, count) => draw_to(rt, alloc, &mut walk.others, *start, *count),
        Step::Below(answers) => are_below(rt, alloc, walk, *answers),
        Step::Facts(count) => walk.found.len() == *count,
        Step::Has(fact) => is_next(walk, fact),
        Step::Checksum(sum) => checksum(&walk.found) == *sum,
        _ => tell_all(rt, alloc, walk, step),
    }
}

/// Each row is as it says.
pub fn agree<R: Abort + AllocGlobal>(rt: &R, steps: &[Step]) {
    let alloc = rt.alloc();
    let mut walk = Walk {
        known: Vec::new(alloc),
        others: Vec::new(alloc),
        found: Vec::new(alloc),
        seen: 0,
        row: 0,
    };
    for step in steps {
        assert!(rt; take(rt, alloc, &mut walk, step), "row {}", walk.row);
    }
}
