//! Rows of stores: steps from store to store, with what is known behind them.

use ix_core::{Base, Fact, Field, Path, PathClaim, PathOff, Profile, Program, Test, Type_};
use ix_fact_rows::{Does, Holds, is_among, is_small, operation, type_of};
use ix_facts::{Know, Landmarks};
use ix_lattice::Lattice;
use ix_num::Rel;
use ix_refine::branch_test;
use ix_store::Store;
use ix_text::{List, Span, Text};
use std::alloc::{AllocError, Global};
use std::process::Abort;

/// A question to a store, and its answer: bounds, whether a fact is known, and how many facts, ints and arrays there are.
#[derive(Clone, Copy)]
pub enum Question {
    Lo(Path, i64),
    Hi(Path, i64),
    Shortest(Path, i64),
    Longest(Path, i64),
    Upper(Path, Path, PathOff, Option<i64>),
    Less(Path, Path, Option<i64>),
    Difference(Path, Path, Option<i64>),
    Same(Path, Path, bool),
    IsLength(Path, Path, bool),
    Search(Path, Path, bool),
    Negative(Path, Path, bool),
    Count(u64, u64, u64),
}

/// A step of a row. Stores that are kept have numbers from 0.
#[derive(Clone, Copy)]
pub enum Step {
    /// a row begins: nothing is known, and no store is kept
    New,
    /// the store of which nothing is known
    Empty,
    /// the store at a place where no state is
    Unreachable,
    /// a fact is added
    Know(Fact),
    /// a claim of the path is assumed
    Assume(Path, PathClaim),
    /// a test of two slots is true
    If(u32, Rel, u32, Holds),
    /// a test of two slots is false
    Unless(u32, Rel, u32, Holds),
    /// the constants move to these landmarks, and no slot from this one on is named
    Round(u32, &'static [i32]),
    Forget(Path),
    /// a field is written, and the slot whose object is spared
    Field(u32, Option<u32>),
    /// a call, and the slot whose object is spared
    Call(Option<u32>),
    /// a call with its target, whether it is free of side effects, and the slot whose object is spared
    Called(u32, bool, Option<u32>),
    /// the same of a call of the parent's constructor
    Parent(u32, bool, Option<u32>),
    Do(Does),
    /// the first path gets the value of the second
    Copied(Path, Path, Holds),
    /// the store is kept
    Keep,
    /// back to the kept store
    Back(usize),
    /// the join with the kept store
    Join(usize),
    /// whether the store says all that the kept one says
    Below(usize, bool),
    /// whether the store proves the claim of the path
    Proves(Path, PathClaim, bool),
    Ask(Question),
    /// the store is that of a place where no state is
    Nowhere,
    /// how many facts the store has
    Facts(usize),
    /// a fact of the store
    Has(Fact),
}

/// The store that the steps have come to, its facts where they have been listed, the stores that are kept, and how many rows have begun.
#[derive(Drop)]
struct Walk {
    store: Store,
    facts: Vec<Fact>,
    kept: Vec<Store>,
    row: u32,
}

#[tactic(auto, using(crate::proofs::KnownOne::one_class))]
fn known<R: Abort>(rt: &R, alloc: Global, store: &Store, fact: Fact) -> Result<Store, AllocError> {
    assert!(rt; is_small(&fact), "a number is too large");
    store.add(alloc, &[fact])
}

fn marks_of(alloc: Global, marks: &[i32]) -> Result<Landmarks, AllocError> {
    let mut ints = List::new(alloc);
    for mark in marks {
        ints.push(*mark)?;
    }
    Ok(Landmarks { ints })
}

fn rounded(alloc: Global, store: &Store, scope: u32, marks: &[i32]) -> Result<Store, AllocError> {
    let marks = marks_of(alloc, marks)?;
    store.round(alloc, &marks, scope)
}

fn test_of(alloc: Global, left: u32, rel: Rel, right: u32, holds: Holds) -> Test {
    let place = Span { from: 0, to: 0 };
    Test {
        rel,
        left,
        right,
        ty: type_of(alloc, holds),
        left_span: place,
        right_span: place,
    }
}

/// The stores where a test is true and where it is false: one of them.
fn tested(alloc: Global, store: &Store, test: &Test, answer: bool) -> Result<Store, AllocError> {
    let (holds, fails) = branch_test(alloc, store, test)?;
    if answer { Ok(holds) } else { Ok(fails) }
}

fn copied(
    alloc: Global,
    store: &Store,
    target: &Path,
    source: &Path,
    holds: Holds,
) -> Result<Store, AllocError> {
    store.copy(alloc, target, source, &type_of(alloc, holds))
}

fn push_field(fields: &mut List<Field>, alloc: Global, is_final: bool) -> Result<(), AllocError> {
    let name = Text::from_str(alloc, "f")?;
    let field = Field {
        name,
        class: 0,
        ty: Type_::Plain(Base::Int),
        is_final,
        claims: List::new(alloc),
    };
    fields.push(field).map_err(AllocError::from)
}

fn push_fields(fields: &mut List<Field>, alloc: Global) -> Result<(), AllocError> {
    push_field(fields, alloc, false)
        .and(push_field(fields, alloc, true))
        .and(push_field(fields, alloc, false))
}

/// A program with three fields, of which that with the number 1 is final.
fn three_fields(alloc: Global) -> Result<Program, AllocError> {
    let mut fields = List::new(alloc);
    push_fields(&mut fields, alloc).and(Ok(Program {
        classes: List::new(alloc),
        methods: List::new(alloc),
        fields,
        accesses: 0,
    }))
}

/// The store behind a call.
fn behind_call(alloc: Global, store: &Store, step: &Step) -> Result<Store, AllocError> {
    let program = three_fields(alloc)?;
    match *step {
        Step::Call(spared) => store.forget_call(alloc, &program, spared),
        Step::Called(target, free, spared) => {
            store.forget_called(alloc, &program, target, free, spared)
        }
        Step::Parent(target, free, spared) => {
            store.forget_parent(alloc, &program, target, free, spared)
        }
        _ => store.share(),
    }
}

fn operated(
    alloc: Global,
    store: &Store,
    profile: Profile,
    does: Does,
) -> Result<Store, AllocError> {
    let kind = operation(alloc, does)?;
    store.after(alloc, profile, &kind)
}

/// The store behind a step that changes it.
fn behind<R: Abort>(
    rt: &R,
    alloc: Global,
    store: &Store,
    profile: Profile,
    step: &Step,
) -> Result<Store, AllocError> {
    match step {
        Step::Empty => Store::empty(alloc),
        Step::Unreachable => Ok(Store::unreachable()),
        Step::Know(fact) => known(rt, alloc, store, *fact),
        Step::Assume(p, claim) => store.assume(alloc, claim, p),
        Step::If(left, rel, right, holds) => {
            tested(
                alloc,
                store,
                &test_of(alloc, *left, *rel, *right, *holds),
                true,
            )
        }
        Step::Unless(left, rel, right, holds) => {
            tested(
                alloc,
                store,
                &test_of(alloc, *left, *rel, *right, *holds),
                false,
            )
        }
        Step::Round(scope, marks) => rounded(alloc, store, *scope, marks),
        Step::Forget(path) => store.forget(alloc, path),
        Step::Field(field, spared) => store.forget_field(alloc, *field, *spared),
        Step::Do(does) => operated(alloc, store, profile, *does),
        Step::Copied(target, source, holds) => copied(alloc, store, target, source, *holds),
        _ => behind_call(alloc, store, step),
    }
}

/// How many facts, named ints and named arrays there are: each of them is looked at.
fn counts<K: Know>(know: &K) -> (u64, u64, u64) {
    let mut facts = 0u64;
    for k in 0..know.facts() {
        let _fact = know.fact(k);
        facts = facts.saturating_add(1);
    }
    let mut ints = 0u64;
    for k in 0..know.ints() {
        let _int = know.int(k);
        ints = ints.saturating_add(1);
    }
    let mut arrays = 0u64;
    for k in 0..know.arrays() {
        let _array = know.array(k);
        arrays = arrays.saturating_add(1);
    }
    (facts, ints, arrays)
}

/// Whether the answer is that of the store.
fn is_so<K: Know>(know: &K, question: &Question) -> bool {
    match question {
        Question::Lo(p, n) => know.lo(p) == *n,
        Question::Hi(p, n) => know.hi(p) == *n,
        Question::Shortest(a, n) => know.len_lo(a) == *n,
        Question::Longest(a, n) => know.len_hi(a) == *n,
        Question::Upper(p, a, offset, n) => know.upper(p, a, offset) == *n,
        Question::Less(p, q, n) => know.less(p, q) == *n,
        Question::Difference(p, q, n) => know.difference(p, q) == *n,
        Question::Same(a, b, so) => know.same(a, b) == *so,
        Question::IsLength(p, a, so) => know.is_len(p, a) == *so,
        Question::Search(p, a, so) => know.search(p, a) == *so,
        Question::Negative(p, a, so) => know.negative(p, a) == *so,
        Question::Count(facts, ints, arrays) => counts(know) == (*facts, *ints, *arrays),
    }
}

fn begin<R: Abort>(rt: &R, alloc: Global, walk: &mut Walk) -> bool {
    walk.row = walk.row.saturating_add(1);
    walk.store = Store::empty(alloc).expect(rt, "memory");
    walk.kept.clear();
    true
}

fn keep<R: Abort>(rt: &R, walk: &mut Walk) -> bool {
    let store = walk.store.share().expect(rt, "memory");
    walk.kept.push(store).expect(rt, "memory");
    true
}

fn go_back<R: Abort>(rt: &R, walk: &mut Walk, k: usize) -> bool {
    match walk.kept.get(k) {
        None => false,
        Some(kept) => {
            walk.store = kept.share().expect(rt, "memory");
            true
        }
    }
}

fn join<R: Abort>(rt: &R, alloc: Global, walk: &mut Walk, k: usize) -> bool {
    match walk.kept.get(k) {
        None => false,
        Some(kept) => {
            walk.store = walk.store.join(alloc, kept).expect(rt, "memory");
            true
        }
    }
}

fn is_below(walk: &Walk, k: usize, answer: bool) -> bool {
    match walk.kept.get(k) {
        None => false,
        Some(kept) => walk.store.leq(kept) == answer,
    }
}

/// Lists the facts: whether there are so many, or, where none are asked for, whether no state is.
fn list<R: Abort>(rt: &R, alloc: Global, walk: &mut Walk, count: Option<usize>) -> bool {
    match walk.store.facts(alloc).expect(rt, "memory") {
        None => count.is_none(),
        Some(facts) => {
            walk.facts = facts;
            count == Some(walk.facts.len())
        }
    }
}

fn go<R: Abort>(rt: &R, alloc: Global, walk: &mut Walk, profile: Profile, step: &Step) -> bool {
    walk.store = behind(rt, alloc, &walk.store, profile, step).expect(rt, "memory");
    true
}

/// Takes a step: whether it is as it says.
fn take<R: Abort>(rt: &R, alloc: Global, walk: &mut Walk, profile: Profile, step: &Step) -> bool {
    match step {
        Step::New => begin(rt, alloc, walk),
        Step::Keep => keep(rt, walk),
        Step::Back(k) => go_back(rt, walk, *k),
        Step::Join(k) => join(rt, alloc, walk, *k),
        Step::Below(k, answer) => is_below(walk, *k, *answer),
        Step::Proves(p, claim, answer) => walk.store.proves(claim, p) == *answer,
        Step::Ask(question) => is_so(&walk.store, question),
        Step::Nowhere => list(rt, alloc, walk, None),
        Step::Facts(count) => list(rt, alloc, walk, Some(*count)),
        Step::Has(fact) => is_among(fact, &walk.facts),
        _ => go(rt, alloc, walk, profile, step),
    }
}

fn agree<R: Abort + AllocGlobal>(rt: &R, profile: Profile, steps: &[Step]) {
    let alloc = rt.alloc();
    let mut walk = Walk {
        store: Store::unreachable(),
        facts: Vec::new(alloc),
        kept: Vec::new(alloc),
        row: 0,
    };
    for step in steps {
        assert!(rt;
            take(rt, alloc, &mut walk, profile, step),
            "row {}",
            walk.row
        );
    }
}

/// Each row is as it says with ideal sums.
pub fn ideal<R: Abort + AllocGlobal>(rt: &R, steps: &[Step]) {
    agree(rt, Profile::Ideal, steps);
}

/// Each row is as it says with sums of 32 bits.
pub fn int32<R: Abort + AllocGlobal>(rt: &R, steps: &[Step]) {
    agree(rt, Profile::Int32, steps);
}

/// Each row is as it says in both profiles.
pub fn in_both<R: Abort + AllocGlobal>(rt: &R, steps: &[Step]) {
    ideal(rt, steps);
    int32(rt, steps);
}
