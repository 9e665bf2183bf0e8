//! The frames: the one that runs, those that wait for a call, and those that are reserved and free.
ghost use Rattle.std.specs.Prelude.{◌≡◌, ◌+◌, ◌-◌, ◌<◌, ◌≤◌, ◌++◌, [], ◌∷◌, ℕ, Bool, IsTrue, ◌↔◌, length, map, max, replicate, reverse, vec_len, vec_capacity, slice_get, slice_set, pos, IfOk, IfSome, IfNone, MatchOption, IsSome, Some, None, drop, take, option_map};
ghost use Rattle.ix_core.specs.Code.{items_code};
ghost use Rattle.ix_core.specs.Heap as model;
ghost use Rattle.ix_core.specs.Heap.{value_at, Num};
ghost use Rattle.ix_core.specs.Machine.{slots_with, frame};
ghost use Rattle.ix_core.specs.Tasks.{Empty, code_then};
ghost use Rattle.ix_machine_state.specs.Rows.{held_of};
ghost use Rattle.ix_machine_state.specs.Values.{receivers};
ghost use Rattle.ix_machine_state.specs.Fits.{IsFreeFor};
ghost use Rattle.ix_machine_state.specs.Places.{tasks_open};

use crate::held::Held;
use crate::room::Room;
use crate::stack::Stack;
use ix_core::{Arg, Item};
use std::alloc::{AllocError, Global};
use std::mem;

/// A called method: its number, what it still has to do, and its slots.
#[derive(Drop)]
pub struct Frame<'p> {
    pub method: u32,
    pub stack: Stack<'p>,
    slots: Vec<Held>,
    ghost roomy: { stack.room.values ≤ vec_capacity slots },
}

impl<'p> Frame<'p> {
    ghost use Rattle.ix_machine_state.specs.Frames.{slots_of, frame_of};

    /// A frame in which nothing is to do. The one error is want of memory.
    pub fn new(alloc: Global, room: Room) -> Result<Frame<'p>, AllocError>
        ensures empty { IfOk result (λ made. frame_of made ≡ frame 0 Empty []) }
        ensures room { IfOk result (λ made. made.stack.room ≡ room) }
    {
        let stack = Stack::new(alloc, room)?;
        let slots = Vec::with_capacity(alloc, room.values)?;
        Ok(Frame {
            method: 0,
            stack,
            slots,
        })
    }

    /// What a slot holds; 0 where there is none.
    pub fn value(&self, slot: u32) -> Held
        ensures { held_of result ≡ value_at (slots_of self.now) slot }
    {
        value_in(self.slots.as_slice(), slot)
    }

    /// The slots.
    pub fn slots(&self) -> &[Held]
        ensures { map held_of result.now ≡ slots_of self.now }
    {
        self.slots.as_slice()
    }

    /// Writes a slot; nothing where there is none.
    pub fn set(&mut self, slot: u32, value: Held)
        ensures slots { slots_of self.new ≡ slice_set (slots_of self.old) slot (held_of value) }
        ensures method { self.new.method ≡ self.old.method }
        ensures stack { self.new.stack ≡ self.old.stack }
    {
        let at = slot as usize;
        if at < self.slots.len() {
            self.slots[at] = value;
        }
    }

    /// Becomes the frame of a method with that many slots, of which the first hold the values.
    pub fn start(&mut self, method: u32, body: &'p [Item], count: u32, values: &[Held])
        requires fits { IsFreeFor 0 self.old.stack.room (items_code body.now) }
        requires count { count ≤ self.old.stack.room.values }
        requires values { length values.now ≤ self.old.stack.room.values }
        ensures { record {
          frame : frame_of self.new ≡ frame method (code_then (items_code body.now) Empty) (slots_with count (map held_of values.now));
          room : self.new.stack.room ≡ self.old.stack.room;
        } }
    {
        self.method = method;
        self.stack.begin(body);
        self.slots.clear();
        put_all(&mut self.slots, values);
        fill(&mut self.slots, count as usize);
    }

    /// Becomes the frame of a method with that many slots that is called from another frame: the first slots hold the receiver, if there is one, and the
    /// arguments.
    pub(crate) fn begin(
        &mut self,
        method: u32,
        body: &'p [Item],
        count: u32,
        from: &Frame<'p>,
        receiver: Option<Held>,
        args: &[Arg],
    )
        requires fits { IsFreeFor 0 self.old.stack.room (items_code body.now) }
        requires count { count ≤ self.old.stack.room.values }
        requires values { length args.now + 1 ≤ self.old.stack.room.values }
        ensures frame { frame_of self.new ≡ frame method (code_then (items_code body.now) Empty)
            (slots_with count (receivers receiver ++ map (λ arg. value_at (slots_of from.now) arg.slot) args.now)) }
        ensures room { self.new.stack.room ≡ self.old.stack.room }
    {
        self.method = method;
        self.stack.begin(body);
        self.slots.clear();
        put_receiver(&mut self.slots, receiver);
        put_args(&mut self.slots, from.slots.as_slice(), args);
        fill(&mut self.slots, count as usize);
    }
}

/// What a slot holds; 0 where there is none.
fn value_in(slots: &[Held], slot: u32) -> Held
    ensures { held_of result ≡ value_at (map held_of slots.now) slot }
{
    match slots.get(slot as usize) {
        Some(value) => *value,
        None => Held::Int(0),
    }
}

/// Adds a receiver, if there is one.
fn put_receiver(slots: &mut Vec<Held>, receiver: Option<Held>)
    requires { vec_len slots.old + 1 ≤ vec_capacity slots.old }
    ensures { record {
      items : map held_of slots.new.items ≡ map held_of slots.old.items ++ receivers receiver;
      len : vec_len slots.new ≤ vec_len slots.old + 1;
      room : vec_capacity slots.old ≤ vec_capacity slots.new;
    } }
{
    if let Some(value) = receiver {
        slots.push_reserved(value);
    }
}

/// Adds the values of a call's arguments.
fn put_args(slots: &mut Vec<Held>, from: &[Held], args: &[Arg])
    requires { vec_len slots.old + length args.now ≤ vec_capacity slots.old }
    ensures { record {
      items : map held_of slots.new.items ≡ map held_of slots.old.items ++ map (λ arg. value_at (map held_of from.now) arg.slot) args.now;
      room : vec_capacity slots.old ≤ vec_capacity slots.new;
    } }
{
    for arg in args {
        slots.push_reserved(value_in(from, arg.slot));
    }
}

/// Adds values.
fn put_all(slots: &mut Vec<Held>, values: &[Held])
    requires { vec_len slots.old + length values.now ≤ vec_capacity slots.old }
    ensures { record {
      items : slots.new.items ≡ slots.old.items ++ values.now;
      room : vec_capacity slots.old ≤ vec_capacity slots.new;
    } }
{
    for value in values {
        slots.push_reserved(*value);
    }
}

/// Adds zeros, up to that many values.
fn fill(slots: &mut Vec<Held>, count: usize)
    requires { count ≤ vec_capacity slots.old }
    ensures { record {
      items : map held_of slots.new.items ≡ slots_with count (map held_of slots.old.items);
      room : vec_capacity slots.old ≤ vec_capacity slots.new;
    } }
{
    let missing = count.saturating_sub(slots.len());
    for done in 0..missing {
        slots.push_reserved(Held::Int(0));
    }
}
