//! The open places of a frame: a stack of what is still to be done, the innermost last.
//! What every step does with a place is inlined: as a call it would hand a copy of the place through memory. What is rare isn't, so that a step stays short.
ghost use Rattle.std.specs.Prelude.{◌≡◌, ◌+◌, ◌<◌, ◌≤◌, List, reverse, [], ◌∷◌, ◌++◌, if◌then◌else◌, IfOk, IfNone, IfSome, IsFalse, IsTrue, MatchOption, length, vec_len, vec_capacity};
ghost use Rattle.ix_machine_state.specs.declared.places.Place.{Place as Place_};
ghost use Rattle.ix_core.specs.Code.{cond_code, items_code, End, If, Loop};
ghost use Rattle.ix_core.specs.Machine.{step_condition};
ghost use Rattle.ix_core.specs.Tasks.{Empty, Ask, code_then, behind_loop, next_turn, followed_by};
ghost use Rattle.ix_machine_state.specs.declared.places.Place.TheVariants as place;
ghost use Rattle.ix_machine_state.specs.Places.{IsTask, StaysOpen, around, outer, tasks_open, tasks_of, branches_of, loop_tasks, again_of, head_of};
ghost use Rattle.ix_machine_state.specs.Fits.{reach, most_values, IsFree, IsFreeFor, turn_above, turn_values};

use crate::places::{Place, Turn};
use crate::room::Room;
use ix_core::{Cond, Item};
use std::alloc::{AllocError, Global};

/// The open places of a frame, with room for all that its code needs.
#[derive(Drop)]
pub struct Stack<'p> {
    places: Vec<Place<'p>>,
    room: Room,
    ghost fits: { reach 0 places.items ≤ room.places },
    ghost passes: { most_values places.items ≤ room.values },
    ghost roomy: { room.places ≤ vec_capacity places },
}

impl<'p> Stack<'p> {
    /// A stack without places. The one error is want of memory.
    pub fn new(alloc: Global, room: Room) -> Result<Stack<'p>, AllocError>
        ensures empty { IfOk result (λ stack. stack.places.items ≡ []) }
        ensures room { IfOk result (λ stack. stack.room ≡ room) }
    {
        let places = Vec::with_capacity(alloc, room.places)?;
        Ok(Stack { places, room })
    }

    /// Opens a place inside the others.
    #[inline(always)]
    pub fn put(&mut self, place: Place<'p>)
        requires { IsFree (length self.old.places.items) self.old.room place }
        ensures { record {
          tasks : tasks_open self.new.places.items ≡ tasks_of (place.entry ∷ reverse self.old.places.items);
          items : self.new.places.items ≡ self.old.places.items ++ place.entry ∷ [];
          room : self.new.room ≡ self.old.room;
        } }
    {
        self.places.push_reserved(place);
    }

    /// Opens a place inside the others, and one inside that.
    #[inline(always)]
    fn put_two(&mut self, place: Place<'p>, inner: Place<'p>)
        requires { record {
          outer : IsFree (length self.old.places.items) self.old.room place;
          inner : IsFree (length self.old.places.items + 1) self.old.room inner;
        } }
        ensures { record {
          tasks : tasks_open self.new.places.items ≡ tasks_of (inner.entry ∷ place.entry ∷ reverse self.old.places.items);
          items : self.new.places.items ≡ (self.old.places.items ++ place.entry ∷ []) ++ inner.entry ∷ [];
          room : self.new.room ≡ self.old.room;
        } }
    {
        self.put(place);
        self.put(inner);
    }

    /// Takes the innermost place away.
    #[inline(always)]
    fn pop(&mut self) -> Option<Place<'p>>
        ensures items { MatchOption result (self.old.places.items ≡ []) (λ place. self.old.places.items ≡ self.new.places.items ++ place ∷ []) }
        ensures none { IfNone result (self.new.places.items ≡ []) }
        ensures free { IfSome result (λ place. IsFree (length self.new.places.items) self.new.room place) }
        ensures room { self.new.room ≡ self.old.room }
    {
        match pop_place(&mut self.places) {
            Some(place) => Some(place),
            None => None,
        }
    }

    /// Begins a body, where nothing else is open.
    pub fn begin(&mut self, body: &'p [Item])
        requires { IsFreeFor 0 self.old.room (items_code body.now) }
        ensures { record {
          tasks : tasks_open self.new.places.items ≡ code_then (items_code body.now) Empty;
          room : self.new.room ≡ self.old.room;
        } }
    {
        self.places.clear();
        self.put(Place::Rest(body));
    }

    /// The innermost place, if there is one.
    #[inline(always)]
    fn innermost(&self) -> Option<Place<'p>>
        ensures items { MatchOption result (self.now.places.items ≡ []) (λ place. self.now.places.items ≡ outer self.now.places.items ++ place ∷ []) }
        ensures free { IfSome result (λ place. IsFree (length (outer self.now.places.items)) self.now.room place) }
    {
        match last_of(&self.places) {
            Some(place) => Some(place),
            None => None,
        }
    }

    /// Closes the innermost place, if there is one.
    #[inline(always)]
    pub fn close(&mut self)
        ensures { record {
          items : self.new.places.items ≡ outer self.old.places.items;
          room : self.new.room ≡ self.old.room;
        } }
    {
        pop_place(&mut self.places);
    }

    /// Goes on with the rest of a block in place of the innermost place.
    #[inline(always)]
    pub fn go_on(&mut self, rest: &'p [Item])
        requires some { 0 < length self.old.places.items }
        requires free { IsFree (length (outer self.old.places.items)) self.old.room (place.Rest rest) }
        ensures { record {
          tasks : tasks_open self.new.places.items ≡ code_then (items_code rest.now) (tasks_open (outer self.old.places.items));
          room : self.new.room ≡ self.old.room;
        } }
    {
        replace_last(&mut self.places, Place::Rest(rest));
    }

    /// What is left of a block, where that is the innermost place.
    #[inline(always)]
    pub fn block(&self) -> Option<&'p [Item]>
        ensures { record {
          tasks : IfSome result (λ items. tasks_open self.now.places.items ≡ code_then (items_code items.now) (tasks_open (outer self.now.places.items)));
          some : IfSome result (λ items. 0 < length self.now.places.items);
          free : IfSome result (λ items. IsFree (length (outer self.now.places.items)) self.now.room (place.Rest items));
        } }
    {
        match self.innermost() {
            Some(Place::Rest(items)) => Some(items),
            _ => None,
        }
    }

    /// The innermost task; none where nothing is left to do.
    pub fn task(&self) -> Option<Place<'p>>
        ensures { record {
          some : IfSome result IsTask;
          tasks : IfSome result (λ place. (more : List Place_) × (tasks_open self.now.places.items ≡ tasks_of (place ∷ more)));
          none : IfNone result (tasks_open self.now.places.items ≡ Empty);
        } }
    {
        let mut left = self.places.len();
        while left > 0 {
            let place = self.places[left - 1];
            if is_task(place) {
                return Some(place);
            }
            left -= 1;
        }
        None
    }

    /// The innermost task, which is closed, but for what is left of a block; none where nothing is left to do.
    #[inline(always)]
    pub fn next(&mut self) -> Option<Place<'p>>
        ensures tasks { MatchOption result (tasks_open self.old.places.items ≡ Empty)
            (λ place. IsTask place × (tasks_open self.old.places.items ≡ tasks_of (place ∷ reverse (around place self.new.places.items)))) }
        ensures none { IfNone result (self.new.places.items ≡ []) }
        ensures open { IfSome result (λ place. StaysOpen place (length self.new.places.items)) }
        ensures free { IfSome result (λ place. IsFree (length (around place self.new.places.items)) self.new.room place) }
        ensures room { self.new.room ≡ self.old.room }
    {
        while let Some(place) = self.innermost() {
            match place {
                Place::Rest(items) => {
                    if !items.is_empty() {
                        return Some(place);
                    }
                    self.close();
                }
                Place::Ask(_)
                | Place::Decide(_)
                | Place::DecideTruth(_)
                | Place::Head(_)
                | Place::Again(_)
                | Place::Out => {
                    self.close();
                    return Some(place);
                }
                Place::Branch(_, _)
                | Place::Enter(_)
                | Place::BothLeft(_)
                | Place::EitherLeft(_)
                | Place::Not => self.close(),
            }
        }
        None
    }

    /// Begins a choice: its condition is asked, and the rest of the block follows (JLS 14.9).
    pub fn choose(
        &mut self,
        cond: &'p Cond,
        first: &'p [Item],
        second: &'p [Item],
        rest: &'p [Item],
    )
        requires { IsFreeFor (length self.old.places.items) self.old.room (If (cond_code cond.now) (items_code first.now) (items_code second.now) (items_code rest.now)) }
        ensures tasks { tasks_open self.new.places.items
            ≡ Ask (cond_code cond.now) (code_then (items_code first.now) Empty) (code_then (items_code second.now) Empty) (code_then (items_code rest.now) (tasks_open self.old.places.items)) }
        ensures room { self.new.room ≡ self.old.room }
    {
        self.put(Place::Rest(rest));
        self.put_two(Place::Branch(first, second), Place::Ask(cond));
    }

    /// Begins a loop, at its condition or at its body, and the rest of the block follows (JLS 14.12, 14.13, 14.14.1).
    pub fn begin_loop(&mut self, test_first: bool, turn: Turn<'p>, rest: &'p [Item])
        requires { IsFreeFor (length self.old.places.items) self.old.room (Loop test_first (cond_code turn.cond.now) (items_code turn.body.now) (items_code turn.next.now) 0 0 (items_code rest.now)) }
        ensures tasks { tasks_open self.new.places.items
            ≡ loop_tasks test_first (cond_code turn.entry.cond.now) (items_code turn.entry.body.now) (items_code turn.entry.next.now) (code_then (items_code rest.now) (tasks_open self.old.places.items)) }
        ensures room { self.new.room ≡ self.old.room }
    {
        self.put_two(Place::Rest(rest), Place::Out);
        if test_first {
            self.put(Place::Head(turn));
            return;
        }
        self.put_two(Place::Again(turn), Place::Rest(turn.body));
    }

    /// Asks a loop's condition; where it is true the body follows, and the way back.
    pub fn begin_turn(&mut self, turn: Turn<'p>)
        requires { IsFree (length self.old.places.items) self.old.room (place.Head turn) }
        ensures tasks { tasks_open self.new.places.items
            ≡ Ask (cond_code turn.entry.cond.now) (code_then (items_code turn.entry.body.now) (again_of turn.entry Empty)) Empty (tasks_open self.old.places.items) }
        ensures room { self.new.room ≡ self.old.room }
    {
        self.put_two(Place::Enter(turn), Place::Ask(turn.cond));
    }

    /// Goes the way back to a loop's head, by the part before the next turn.
    pub fn come_back(&mut self, turn: Turn<'p>)
        requires { IsFree (length self.old.places.items) self.old.room (place.Again turn) }
        ensures { record {
          tasks : tasks_open self.new.places.items ≡ code_then (items_code turn.entry.next.now) (head_of turn.entry (tasks_open self.old.places.items));
          room : self.new.room ≡ self.old.room;
        } }
    {
        self.put_two(Place::Head(turn), Place::Rest(turn.next));
    }

    /// Goes on behind the innermost loop (JLS 14.15).
    #[inline(never)]
    pub fn leave_loop(&mut self)
        ensures { record {
          tasks : tasks_open self.new.places.items ≡ behind_loop (tasks_open self.old.places.items);
          room : self.new.room ≡ self.old.room;
        } }
    {
        while let Some(place) = self.pop() {
            if let Place::Out = place {
                return;
            }
        }
    }

    /// Goes on at the innermost loop's way back (JLS 14.16).
    #[inline(never)]
    pub fn turn_on(&mut self)
        ensures { record {
          tasks : tasks_open self.new.places.items ≡ next_turn (tasks_open self.old.places.items);
          room : self.new.room ≡ self.old.room;
        } }
    {
        while let Some(place) = self.pop() {
            if let Place::Again(_) = place {
                self.put(place);
                return;
            }
        }
    }

    /// Goes on after a condition with that answer.
    pub fn decided(&mut self, answer: bool)
        ensures tasks { tasks_open self.new.places.items
            ≡ followed_by (if answer then (branches_of (reverse self.old.places.items)).when_true else (branches_of (reverse self.old.places.items)).when_false) (branches_of (reverse self.old.places.items)).after }
        ensures room { self.new.room ≡ self.old.room }
    {
        let mut now = answer;
        while let Some(place) = self.pop() {
            match place {
                Place::Not => now = !now,
                Place::BothLeft(cond) => {
                    if now {
                        self.put(Place::Ask(cond));
                        return;
                    }
                }
                Place::EitherLeft(cond) => {
                    if !now {
                        self.put(Place::Ask(cond));
                        return;
                    }
                }
                Place::Branch(first, second) => {
                    self.put(Place::Rest(if now { first } else { second }));
                    return;
                }
                Place::Enter(turn) => {
                    if now {
                        self.put_two(Place::Again(turn), Place::Rest(turn.body));
                    }
                    return;
                }
                other => {
                    self.put(other);
                    return;
                }
            }
        }
    }

    /// Goes on with a condition that is asked (JLS 15.23, 15.24, 15.15.6).
    pub fn ask(&mut self, cond: &'p Cond)
        requires { IsFree (length self.old.places.items) self.old.room (place.Ask cond) }
        ensures tasks { tasks_open self.new.places.items
            ≡ step_condition (cond_code cond.now) (branches_of (reverse self.old.places.items)).when_true (branches_of (reverse self.old.places.items)).when_false (branches_of (reverse self.old.places.items)).after }
        ensures room { self.new.room ≡ self.old.room }
    {
        match cond {
            Cond::Known(answer) => self.decided(*answer),
            Cond::Compare(block, test) => {
                self.put_two(Place::Decide(test), Place::Rest(block.items.as_slice()));
            }
            Cond::Truth(block, slot) => {
                self.put_two(
                    Place::DecideTruth(*slot),
                    Place::Rest(block.items.as_slice()),
                );
            }
            Cond::Both(first, second) => {
                self.put_two(Place::BothLeft(second.get()), Place::Ask(first.get()));
            }
            Cond::Either(first, second) => {
                self.put_two(Place::EitherLeft(second.get()), Place::Ask(first.get()));
            }
            Cond::Opposite(asked) => {
                self.put_two(Place::Not, Place::Ask(asked.get()));
            }
        }
    }
}

/// Takes the last place away.
#[inline(always)]
fn pop_place<'p>(places: &mut Vec<Place<'p>>) -> Option<Place<'p>>
    ensures { record {
      items : MatchOption result ((places.old.items ≡ []) × (places.new.items ≡ [])) (λ place. places.old.items ≡ places.new.items ++ place ∷ []);
      rest : places.new.items ≡ outer places.old.items;
      room : vec_capacity places.old ≤ vec_capacity places.new;
    } }
{
    places.pop()
}

/// Whether a place stands for a task of its own.
fn is_task(place: Place<'_>) -> bool
    ensures { record {
      task : IsTrue result → IsTask place.entry;
      none : IsFalse result → (more : List Place_) → tasks_of (place.entry ∷ more) ≡ tasks_of more;
    } }
{
    match place {
        Place::Rest(items) => !items.is_empty(),
        Place::Ask(_)
        | Place::Decide(_)
        | Place::DecideTruth(_)
        | Place::Head(_)
        | Place::Again(_)
        | Place::Out => true,
        Place::Branch(_, _)
        | Place::Enter(_)
        | Place::BothLeft(_)
        | Place::EitherLeft(_)
        | Place::Not => false,
    }
}

/// The last place, if there is one.
#[inline(always)]
fn last_of<'p>(places: &Vec<Place<'p>>) -> Option<Place<'p>>
    ensures items { MatchOption result (places.now.items ≡ []) (λ place. places.now.items ≡ outer places.now.items ++ place ∷ []) }
{
    let count = places.len();
    if count == 0 {
        return None;
    }
    Some(places[count - 1])
}

/// Puts a place in the last one's stead.
#[inline(always)]
fn replace_last<'p>(places: &mut Vec<Place<'p>>, place: Place<'p>)
    requires { 0 < length places.old.items }
    ensures items { places.new.items ≡ outer places.old.items ++ place.entry ∷ [] }
    ensures room { vec_capacity places.old ≤ vec_capacity places.new }
{
    let last = places.len() - 1;
    places[last] = place;
}
