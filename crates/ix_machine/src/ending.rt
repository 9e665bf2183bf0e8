//! Ends of frames.
//! An end of a frame is rare beside steps, and so not inlined among them.
ghost use Rattle.std.specs.Prelude.{◌≡◌, ◌∷◌, ◌++◌, List, length, option_map, Option, Some, None, Bool};
ghost use Rattle.ix_core.specs.Heap.{value_at};
ghost use Rattle.ix_core.specs.Machine as model;
ghost use Rattle.ix_core.specs.Tables.{tables_of, method_at};
ghost use Rattle.ix_machine_state.specs.Rows.{held_of};
ghost use Rattle.ix_machine_state.specs.View.{heap_of};
ghost use Rattle.ix_machine_state.specs.Frames.{slots_of, frame_of};
ghost use Rattle.ix_machine_state.specs.Waiting.{waits_of, HasRoom};
ghost use Rattle.ix_machine.specs.Turns.{state_with, after, IsQuiet};

use crate::calls::default_in;
use crate::operations::Done;
use ix_core::{Outcome, Program, Value};
use ix_machine_state::{Frame, Heap, Held, Pool};

/// Whether a method is a constructor.
fn is_constructor(program: &Program, method: u32) -> bool
    ensures { result ≡ (method_at program.now method).constructor }
{
    match program.methods.as_slice().get(method as usize) {
        Some(found) => found.constructor,
        None => false,
    }
}

/// What a `return` gives: the value of its slot, or the default where it has none.
fn returned_or<'p>(frame: &Frame<'p>, default: Held, slot: Option<u32>) -> Held
    ensures { held_of result ≡ model.returned_or (held_of default) (slots_of frame.now) slot }
{
    match slot {
        None => default,
        Some(slot) => frame.value(slot),
    }
}

/// What a frame ends with: a constructor its object, a method without a result nothing, another the value of its `return` or its default.
fn result_in<'p>(program: &Program, frame: &Frame<'p>, slot: Option<u32>) -> Option<Held>
    ensures { option_map held_of result ≡ model.result_of ((tables_of program.now).routines frame.now.method) (slots_of frame.now) slot }
{
    if is_constructor(program, frame.method) {
        return Some(frame.value(0));
    }
    match default_in(program, frame.method) {
        Some(default) => Some(returned_or(frame, default, slot)),
        None => None,
    }
}

/// Writes what a called frame ended with into the slot that gets it, if one does.
fn set_target<'p>(frame: &mut Frame<'p>, target: Option<u32>, value: Option<Held>)
    ensures { record {
      slots : slots_of frame.new ≡ model.set_target target (option_map held_of value) (slots_of frame.old);
      method : frame.new.method ≡ frame.old.method;
      stack : frame.new.stack ≡ frame.old.stack;
    } }
{
    match target {
        Some(slot) => match value {
            Some(held) => frame.set(slot, held),
            None => {}
        },
        None => {}
    }
}

/// The value that a run ends with, as it is shown.
fn shown<'p>(heap: &Heap<'p>, value: Option<Held>) -> Value
    ensures { result ≡ model.result_shown (heap_of heap.now) (option_map held_of value) }
{
    match value {
        Some(held) => heap.shown(held),
        None => Value::Nothing,
    }
}

/// Ends the frame that runs, with the value of that slot, and goes on with the last that waits, or ends the run.
#[inline(never)]
pub fn leave<'p>(
    program: &Program,
    frame: &mut Frame<'p>,
    pool: &mut Pool<'p>,
    heap: &Heap<'p>,
    slot: Option<u32>,
) -> Done<'p>
    requires { HasRoom pool.old.room frame.old }
    ensures resumed { (wrapped : Bool) → model.resumed (model.result_of ((tables_of program.now).routines frame.old.method) (slots_of frame.old) slot)
        (state_with (frame_of frame.old) (waits_of pool.old.below.items) (heap_of heap.now) wrapped) (waits_of pool.old.below.items)
        ≡ after result (state_with (frame_of frame.new) (waits_of pool.new.below.items) (heap_of heap.now) wrapped) }
    ensures quiet { IsQuiet result }
    ensures fits { HasRoom pool.new.room frame.new }
    ensures room { pool.new.room ≡ pool.old.room }
    ensures most { pool.new.most ≡ pool.old.most }
{
    let value = result_in(program, frame, slot);
    match pool.leave(frame) {
        Some(target) => {
            set_target(frame, target, value);
            Done::Done
        }
        None => Done::Stopped(Outcome::Ended(shown(heap, value))),
    }
}
