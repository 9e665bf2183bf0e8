//! The walk over a method's body with given labels.

ghost use Rattle.std.specs.Prelude.{◌≡◌, ◌↔◌, ◌++◌, [], true, false, None, option_map, IsTrue, IfOk, OnOk};
ghost use Rattle.ix_core.specs.Code.{block_code, cond_code, item_code};
ghost use Rattle.ix_flow.specs.Flow.{Doing, Returning, Ending};
ghost use Rattle.ix_core.specs.Tables.{body_of};
ghost use Rattle.ix_flow.specs.Walk.{IsLeast, Joins, WalksBody};
ghost use Rattle.ix_errors.specs.Exactly.{IsListed};
ghost use Rattle.ix_store.specs.StoredFacts.{stored};
ghost use Rattle.ix_verify.specs.AtLabels.{label_of};
ghost use Rattle.ix_verify.specs.Walking as spec;

use crate::done::{last_op, op_of, written_answer};
use ix_core::{Block, Cond, Item, Method, Op, Profile, Program};
use ix_errors::{
    Ranked, push_constructor_errors, push_missing_return, push_op_errors, push_post_errors,
    push_return_errors,
};
use ix_facts::Landmarks;
use ix_lattice::Lattice;
use ix_refine::branch_test;
use ix_sign::{after, enter, tell};
use ix_store::Store;
use ix_text::Span;
use std::alloc::{AllocError, Global};
use std::mem;

/// What was found so far: what is known at `break`s and at `continue`s, the loops whose labels failed, the errors at the points that were passed.
#[derive(Drop)]
pub(crate) struct Found {
    pub(crate) breaks: Store,
    pub(crate) continues: Store,
    pub(crate) failed: Vec<u32>,
    pub(crate) errors: Vec<Ranked>,
}

/// The loops whose labels fail, and the errors at points.
#[derive(Drop)]
pub(crate) struct Findings {
    pub(crate) failed: Vec<u32>,
    pub(crate) errors: Vec<Ranked>,
}

/// What is one all over a body: the method, the labels of its loops, and the store of a loop that has none.
#[derive(Drop)]
pub(crate) struct Walk<'a> {
    pub(crate) alloc: Global,
    pub(crate) program: &'a Program,
    pub(crate) within: &'a Method,
    pub(crate) number: u32,
    pub(crate) profile: Profile,
    pub(crate) marks: &'a Landmarks,
    pub(crate) labels: &'a [Store],
    pub(crate) nowhere: &'a Store,
}

/// Adds a loop whose label doesn't hold.
fn note(failed: &mut Vec<u32>, loop_number: u32, holds: bool) -> Result<(), AllocError>
    ensures { OnOk result (failed.new.items ≡ failed.old.items ++ spec.one_unless holds loop_number) }
{
    if !holds {
        failed.push(loop_number)?;
    }
    Ok(())
}

impl<'a> Walk<'a> {
    /// The least store above both.
    pub(crate) fn join(&self, one: &Store, other: &Store) -> Result<Store, AllocError>
        ensures { IfOk result (λ joined. Joins (spec.rules self.now) (stored one.now) (stored other.now) (stored joined)) }
    {
        one.join(self.alloc, other)
    }

    /// The label of a loop.
    fn label(&self, loop_number: u32) -> &Store
        requires walk { spec.IsWalk self.now }
        ensures { stored result.now ≡ label_of (spec.labels_in self.now) loop_number }
    {
        match self.labels.get(loop_number as usize) {
            Some(label) => label,
            None => self.nowhere,
        }
    }

    /// An operation: its errors, and the store behind it.
    fn done(&self, errors: &mut Vec<Ranked>, op: &Op, before: &Store) -> Result<Store, AllocError>
        requires walk { spec.IsWalk self.now }
        ensures errors { IfOk result (λ _. spec.AddsAt self.now (Doing op.now) (stored before.now) errors.old.items errors.new.items) }
        ensures least { IfOk result (λ after. IsLeast (spec.rules self.now) ((spec.rules self.now).After op.now (stored before.now)) (stored after)) }
    {
        push_op_errors(
            self.alloc,
            errors,
            before,
            self.program,
            self.within,
            self.number,
            op,
        )?;
        after(
            self.alloc,
            before,
            self.program,
            self.within,
            self.profile,
            op,
        )
    }

    /// The errors at a `return`.
    fn returned(
        &self,
        errors: &mut Vec<Ranked>,
        before: &Store,
        value: Option<u32>,
        known: Option<bool>,
        span: Span,
    ) -> Result<(), AllocError>
        requires walk { spec.IsWalk self.now }
        ensures { OnOk result (spec.AddsAt self.now (Returning value known span) (stored before.now) errors.old.items errors.new.items) }
    {
        push_return_errors(errors, before, self.within, self.number, value, span)?;
        push_constructor_errors(self.alloc, errors, before, self.program, self.within)?;
        push_post_errors(errors, before, self.within, self.number, value, known, span)
    }

    /// The errors at the end of the body.
    pub(crate) fn ended(&self, errors: &mut Vec<Ranked>, before: &Store) -> Result<(), AllocError>
        requires walk { spec.IsWalk self.now }
        ensures { OnOk result (spec.AddsAt self.now Ending (stored before.now) errors.old.items errors.new.items) }
    {
        push_constructor_errors(self.alloc, errors, before, self.program, self.within)?;
        push_missing_return(errors, before, self.within)?;
        push_post_errors(
            errors,
            before,
            self.within,
            self.number,
            None,
            None,
            self.within.span,
        )
    }

    /// Whether the label of a loop is above what comes to its head, rounded.
    fn holds(&self, loop_number: u32, scope: u32, joined: &Store) -> Result<bool, AllocError>
        requires walk { spec.IsWalk self.now }
        ensures { IfOk result (λ holds. IsTrue holds ↔ (spec.rules self.now).Rounded scope (stored joined.now) (label_of (spec.labels_in self.now) loop_number)) }
    {
        let rounded = joined.round(self.alloc, self.marks, scope)?;
        Ok(rounded.leq(self.label(loop_number)))
    }

    /// Judges the label of a loop by what comes to its head.
    fn judge(
        &self,
        failed: &mut Vec<u32>,
        loop_number: u32,
        scope: u32,
        entry: &Store,
        back: &Store,
    ) -> Result<(), AllocError>
        requires walk { spec.IsWalk self.now }
        ensures { OnOk result (spec.JudgesLoop self.now loop_number scope (stored entry.now) (stored back.now) failed.old.items failed.new.items) }
    {
        let joined = self.join(entry, back)?;
        let holds = self.holds(loop_number, scope, &joined)?;
        note(failed, loop_number, holds)
    }

    /// Behind a loop's body: what is known before the next turn. From here on `continue` is that of the loop around.
    fn again(&self, found: &mut Found, outer: Store, done: &Store) -> Result<Store, AllocError>
        ensures joins { IfOk result (λ again. Joins (spec.rules self.now) (stored found.old.continues) (stored done.now) (stored again)) }
        ensures found { IfOk result (λ _. found.new ≡ record found.old { continues = outer }) }
    {
        let inner = mem::replace(&mut found.continues, outer);
        self.join(&inner, done)
    }

    /// Behind a loop: judges its label, and answers what is known there. From here on `break` is that of the loop around.
    fn behind(
        &self,
        found: &mut Found,
        around: Store,
        loop_number: u32,
        scope: u32,
        entry: &Store,
        back: &Store,
    ) -> Result<Store, AllocError>
        requires walk { spec.IsWalk self.now }
        ensures judged { IfOk result (λ _. spec.JudgesLoop self.now loop_number scope (stored entry.now) (stored back.now) found.old.failed.items found.new.failed.items) }
        ensures out { IfOk result (λ out. out ≡ found.old.breaks) }
        ensures found { IfOk result (λ _. found.new ≡ record found.old { breaks = around; failed = found.new.failed }) }
    {
        self.judge(&mut found.failed, loop_number, scope, entry, back)?;
        let out = mem::replace(&mut found.breaks, around);
        Ok(out)
    }

    /// A block: the store at its end.
    #[cycle(walk)]
    pub(crate) fn block(
        &self,
        found: &mut Found,
        block: &Block,
        last: Option<&Op>,
        before: &Store,
    ) -> Result<Store, AllocError>
        requires walk { spec.IsWalk self.now }
        ensures { IfOk result (λ end. spec.WalksCode self.now (option_map (λ op. op.now) last.entry) (block_code block.now) (stored before.now) (spec.notes found.old) (stored end) (spec.notes found.new)) }
    {
        let mut done = last;
        let mut at = before.share()?;
        for item in block.items.as_slice() {
            at = self.item(found, item, done, &at)?;
            done = op_of(item);
        }
        Ok(at)
    }

    /// An item: the store behind it.
    #[cycle(walk)]
    fn item(
        &self,
        found: &mut Found,
        item: &Item,
        last: Option<&Op>,
        before: &Store,
    ) -> Result<Store, AllocError>
        requires walk { spec.IsWalk self.now }
        ensures { IfOk result (λ behind. spec.WalksItem self.now (option_map (λ op. op.now) last.entry) (item_code item.now) (stored before.now) (spec.notes found.old) (stored behind) (spec.notes found.new)) }
    {
        match item {
            Item::Do(op) => self.done(&mut found.errors, op, before),
            Item::If(cond, first, second) => {
                let ways = self.cond(found, cond, last, before)?;
                let one = self.block(found, first, None, &ways.0)?;
                let two = self.block(found, second, None, &ways.1)?;
                self.join(&one, &two)
            }
            Item::Break => {
                let breaks = self.join(&found.breaks, before)?;
                found.breaks = breaks;
                Ok(Store::unreachable())
            }
            Item::Continue => {
                let continues = self.join(&found.continues, before)?;
                found.continues = continues;
                Ok(Store::unreachable())
            }
            Item::Return(value, span) => {
                let known = written_answer(last, *value);
                self.returned(&mut found.errors, before, *value, known, *span)?;
                Ok(Store::unreachable())
            }
            Item::Throw(_, _) => Ok(Store::unreachable()),
            Item::Loop {
                test_first,
                cond,
                body,
                next,
                number,
                scope,
            } => {
                let label = self.label(*number);
                let around = mem::replace(&mut found.breaks, Store::unreachable());
                if *test_first {
                    let turn = self.ask(found, cond, label)?;
                    let outer = mem::replace(&mut found.continues, Store::unreachable());
                    let done = self.block(found, body, None, &turn)?;
                    let again = self.again(found, outer, &done)?;
                    let back = self.block(found, next, None, &again)?;
                    self.behind(found, around, *number, *scope, before, &back)
                } else {
                    let outer = mem::replace(&mut found.continues, Store::unreachable());
                    let done = self.block(found, body, None, label)?;
                    let again = self.again(found, outer, &done)?;
                    let tested = self.block(found, next, None, &again)?;
                    let back = self.ask(found, cond, &tested)?;
                    self.behind(found, around, *number, *scope, before, &back)
                }
            }
        }
    }

    /// A loop's condition, which goes on behind the loop where it fails: the store where it holds.
    #[cycle(walk)]
    fn ask(&self, found: &mut Found, cond: &Cond, before: &Store) -> Result<Store, AllocError>
        requires walk { spec.IsWalk self.now }
        ensures { IfOk result (λ holds. spec.AsksOn self.now (cond_code cond.now) (stored before.now) (spec.notes found.old) (stored holds) (spec.notes found.new)) }
    {
        let ways = self.cond(found, cond, None, before)?;
        let breaks = self.join(&found.breaks, &ways.1)?;
        found.breaks = breaks;
        let (holds, fails) = ways;
        drop(fails);
        Ok(holds)
    }

    /// A condition: the stores where it holds and where it fails.
    #[cycle(walk)]
    fn cond(
        &self,
        found: &mut Found,
        cond: &Cond,
        last: Option<&Op>,
        before: &Store,
    ) -> Result<(Store, Store), AllocError>
        requires walk { spec.IsWalk self.now }
        ensures { IfOk result (λ ways. spec.SplitsOn self.now (option_map (λ op. op.now) last.entry) (cond_code cond.now) (stored before.now) (spec.notes found.old) (stored ways.0) (stored ways.1) (spec.notes found.new)) }
    {
        match cond {
            Cond::Known(true) => Ok((before.share()?, Store::unreachable())),
            Cond::Known(false) => Ok((Store::unreachable(), before.share()?)),
            Cond::Compare(block, test) => {
                let behind = self.block(found, block, last, before)?;
                branch_test(self.alloc, &behind, test)
            }
            Cond::Truth(block, slot) => {
                let behind = self.block(found, block, last, before)?;
                self.told(&behind, last_op(block), *slot)
            }
            Cond::Both(first, second) => {
                let one = self.cond(found, first.get(), last, before)?;
                let mut two = self.cond(found, second.get(), None, &one.0)?;
                let fails = self.join(&one.1, &two.1)?;
                two.1 = fails;
                Ok(two)
            }
            Cond::Either(first, second) => {
                let one = self.cond(found, first.get(), last, before)?;
                let mut two = self.cond(found, second.get(), None, &one.1)?;
                let holds = self.join(&one.0, &two.0)?;
                two.0 = holds;
                Ok(two)
            }
            Cond::Opposite(asked) => {
                let ways = self.cond(found, asked.get(), last, before)?;
                let (fails, holds) = ways;
                Ok((holds, fails))
            }
        }
    }

    /// Where a boolean slot is true, and where it is false.
    fn told(
        &self,
        behind: &Store,
        last: Option<&Op>,
        slot: u32,
    ) -> Result<(Store, Store), AllocError>
        requires walk { spec.IsWalk self.now }
        ensures holds { IfOk result (λ ways. IsLeast (spec.rules self.now) ((spec.rules self.now).Told true (option_map (λ op. op.now) last.entry) slot (stored behind.now)) (stored ways.0)) }
        ensures fails { IfOk result (λ ways. IsLeast (spec.rules self.now) ((spec.rules self.now).Told false (option_map (λ op. op.now) last.entry) slot (stored behind.now)) (stored ways.1)) }
    {
        let holds = tell(self.alloc, behind, self.program, last, slot, true)?;
        let fails = tell(self.alloc, behind, self.program, last, slot, false)?;
        Ok((holds, fails))
    }

    /// The walk over the whole body.
    pub(crate) fn body(&self) -> Result<Findings, AllocError>
        requires walk { spec.IsWalk self.now }
        ensures { IfOk result (λ findings. WalksBody (spec.rules self.now) (spec.DerivesHere self.now) IsListed (label_of (spec.labels_in self.now)) [] (body_of self.now.within.now) findings.failed.items findings.errors.items) }
    {
        let entry = enter(self.alloc, self.program, self.within)?;
        let mut found = Found {
            breaks: Store::unreachable(),
            continues: Store::unreachable(),
            failed: Vec::new(self.alloc),
            errors: Vec::new(self.alloc),
        };
        let behind = self.block(&mut found, &self.within.body, None, &entry)?;
        let Found {
            breaks,
            continues,
            failed,
            mut errors,
        } = found;
        let left = self.join(&behind, &breaks)?;
        let end = self.join(&left, &continues)?;
        self.ended(&mut errors, &end)?;
        Ok(Findings { failed, errors })
    }
}
