//! The frames besides the one that runs: those that wait for a call, and those that are reserved and free.
ghost use Rattle.std.specs.Prelude.{◌≡◌, ◌+◌, ◌<◌, ◌≤◌, ◌++◌, [], ◌∷◌, IsTrue, ◌↔◌, length, map, vec_len, vec_capacity, IfOk, IfSome, MatchOption};
ghost use Rattle.ix_core.specs.Code.{items_code};
ghost use Rattle.ix_core.specs.Heap.{value_at};
ghost use Rattle.ix_core.specs.Machine.{slots_with, frame};
ghost use Rattle.ix_core.specs.Tasks.{Empty, code_then};
ghost use Rattle.ix_machine_state.specs.Fits.{IsFreeFor};
ghost use Rattle.ix_machine_state.specs.Frames.{frame_of, slots_of};
ghost use Rattle.ix_machine_state.specs.Values.{receivers};
ghost use Rattle.ix_machine_state.specs.Waiting.{HasRoom, AllHaveRoom, AllWithRoom, all_once, waiting_once, waits_of};

use crate::frames::Frame;
use crate::held::Held;
use crate::room::Room;
use ix_core::{Arg, Item};
use std::alloc::{AllocError, Global};
use std::mem;

/// A frame that waits for a call, and the slot that gets the value, if one does.
#[derive(Drop)]
pub struct Waiting<'p> {
    frame: Frame<'p>,
    target: Option<u32>,
}

/// The frames that wait, and the free ones, each with the same room; with the frame that runs they are so many as there may be.
#[derive(Drop)]
pub struct Pool<'p> {
    below: Vec<Waiting<'p>>,
    spare: Vec<Frame<'p>>,
    room: Room,
    most: u32,
    ghost spare_fit: { AllHaveRoom room spare.items } by { all_once room spare.items },
    ghost below_fit: { AllWithRoom room below.items } by { waiting_once room below.items },
    ghost count: { vec_len below + vec_len spare + 1 ≡ most },
    ghost below_room: { most ≤ vec_capacity below + 1 },
    ghost spare_room: { most ≤ vec_capacity spare + 1 },
}

impl<'p> Pool<'p> {
    /// No frame that waits, and free frames, so that with the one that runs there may be that many. The one error is want of memory.
    pub fn new(alloc: Global, room: Room, most: u32) -> Result<Pool<'p>, AllocError>
        requires { 0 < most }
        ensures none { IfOk result (λ pool. waits_of pool.below.items ≡ []) }
        ensures room { IfOk result (λ pool. pool.room ≡ room) }
        ensures most { IfOk result (λ pool. pool.most ≡ most) }
    {
        let below = Vec::with_capacity(alloc, most as usize)?;
        let spare = spare_frames(alloc, room, most - 1)?;
        Ok(Pool {
            below,
            spare,
            room,
            most,
        })
    }

    /// Whether a call would make more frames than there may be.
    pub fn is_full(&self) -> bool
        ensures { IsTrue result ↔ (self.now.most < length (waits_of self.now.below.items) + 2) }
    {
        self.spare.is_empty()
    }

    /// Begins a call, whose frame runs from here on; the one that ran waits.
    pub fn enter(
        &mut self,
        top: &mut Frame<'p>,
        method: u32,
        body: &'p [Item],
        count: u32,
        receiver: Option<Held>,
        args: &[Arg],
        target: Option<u32>,
    )
        requires spare { length (waits_of self.old.below.items) + 2 ≤ self.old.most }
        requires room { HasRoom self.old.room top.old }
        requires fits { IsFreeFor 0 self.old.room (items_code body.now) }
        requires count { count ≤ self.old.room.values }
        requires values { length args.now + 1 ≤ self.old.room.values }
        ensures frame { frame_of top.new ≡ frame method (code_then (items_code body.now) Empty)
            (slots_with count (receivers receiver ++ map (λ arg. value_at (slots_of top.old) arg.slot) args.now)) }
        ensures below { waits_of self.new.below.items ≡ record { frame = frame_of top.old; target = target } ∷ waits_of self.old.below.items }
        ensures fits { HasRoom self.new.room top.new }
        ensures room { self.new.room ≡ self.old.room }
        ensures most { self.new.most ≡ self.old.most }
    {
        let Some(mut callee) = take_last(&mut self.spare) else {
            unreachable!()
        };
        callee.begin(method, body, count, top, receiver, args);
        let frame = mem::replace(top, callee);
        self.below.push_reserved(Waiting { frame, target });
    }

    /// Ends the frame that runs, and goes on with the last that waits: the answer is the slot that gets the value. None where no frame waits.
    pub fn leave(&mut self, top: &mut Frame<'p>) -> Option<Option<u32>>
        requires { HasRoom self.old.room top.old }
        ensures below { MatchOption result (waits_of self.old.below.items ≡ []) (λ target. waits_of self.old.below.items ≡ record { frame = frame_of top.new; target = target } ∷ waits_of self.new.below.items) }
        ensures last { MatchOption result ((frame_of top.new ≡ frame_of top.old) × (waits_of self.new.below.items ≡ [])) (λ target. Unit {0}) }
        ensures fits { HasRoom self.new.room top.new }
        ensures room { self.new.room ≡ self.old.room }
        ensures most { self.new.most ≡ self.old.most }
    {
        let Some(waiting) = take_last(&mut self.below) else {
            return None;
        };
        let Waiting { frame, target } = waiting;
        let ended = mem::replace(top, frame);
        self.spare.push_reserved(ended);
        Some(target)
    }
}

/// That many free frames with this room, and memory for one more. The one error is want of memory.
fn spare_frames<'p>(alloc: Global, room: Room, count: u32) -> Result<Vec<Frame<'p>>, AllocError>
    ensures { record {
      fit : IfOk result (λ frames. AllHaveRoom room frames.items);
      memory : IfOk result (λ frames. count + 1 ≤ vec_capacity frames);
      count : IfOk result (λ frames. vec_len frames ≡ count);
    } }
{
    let mut frames = Vec::with_capacity(alloc, count as usize + 1)?;
    for made in 0..count {
        frames.push_reserved(Frame::new(alloc, room)?);
    }
    Ok(frames)
}

/// Takes the last value away.
fn take_last<T>(values: &mut Vec<T>) -> Option<T>
    ensures { record {
      items : MatchOption result ((values.old.items ≡ []) × (values.new.items ≡ [])) (λ value. values.old.items ≡ values.new.items ++ value ∷ []);
      len : MatchOption result (vec_len values.new ≡ 0) (λ _. vec_len values.old ≡ vec_len values.new + 1);
      room : vec_capacity values.old ≤ vec_capacity values.new;
    } }
{
    values.pop()
}
