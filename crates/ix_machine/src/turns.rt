//! One step of a run.
//! The step is inlined where steps are made; a call takes long beside it, and isn't.
ghost use Rattle.std.specs.Prelude.{◌≡◌, ◌≤◌, ◌+◌, List, length, Option, Some, None, Bool};
ghost use Rattle.ix_core.specs.Code.{items_code};
ghost use Rattle.ix_core.specs.Machine as model;
ghost use Rattle.ix_core.specs.Machine.{with_limits};
ghost use Rattle.ix_core.specs.Tables.{tables_of};
ghost use Rattle.ix_core.specs.Tasks.{code_then};
ghost use Rattle.ix_machine_state.specs.View.{heap_of};
ghost use Rattle.ix_machine_state.specs.declared.places.Place.TheVariants as place_;
ghost use Rattle.ix_machine_state.specs.Fits.{IsFree};
ghost use Rattle.ix_machine_state.specs.Frames.{slots_of, frame_of};
ghost use Rattle.ix_machine_state.specs.Places.{tasks_open};
ghost use Rattle.ix_machine_state.specs.Waiting.{waits_of, HasRoom};
ghost use Rattle.ix_machine.specs.Kinds.{kind_of};
ghost use Rattle.ix_machine.specs.Programs.{places_of, values_of};
ghost use Rattle.ix_machine.specs.Turns.{state_with, after, event_of, IsQuiet};

use crate::call::{enter, method_of};
use crate::calls::Call;
use crate::ending::leave;
use crate::operations::Done;
use crate::rows::Rows;
use crate::task::{Move, advance};
use ix_core::Item;
use ix_machine_state::{Frame, Heap, Place, Pool};

/// Begins a call, or stops the run, and then the frame has its items again.
#[inline(never)]
fn begin_call<'p>(
    rows: &Rows<'p>,
    frame: &mut Frame<'p>,
    pool: &mut Pool<'p>,
    heap: &mut Heap<'p>,
    call: Call<'p>,
    place: u32,
    items: &'p [Item],
    rest: &'p [Item],
) -> Done<'p>
    requires fits { HasRoom pool.old.room frame.old }
    requires places { places_of rows.now.program.now.methods ≤ pool.old.room.places }
    requires values { values_of rows.now.program.now.methods ≤ pool.old.room.values }
    requires free { IsFree (length frame.old.stack.places.items) frame.old.stack.room (place_.Rest items) }
    requires left { IsFree (length frame.old.stack.places.items) frame.old.stack.room (place_.Rest rest) }
    requires passed { length call.op.now.args + 1 ≤ frame.old.stack.room.values }
    ensures called { (wrapped : Bool) → model.called (with_limits heap.old.most pool.old.most) (tables_of rows.now.program.now) (kind_of call.entry.kind) call.entry.op.now place
        (code_then (items_code rest.now) (tasks_open frame.old.stack.places.items))
        (state_with (model.frame frame.old.method (code_then (items_code items.now) (tasks_open frame.old.stack.places.items)) (slots_of frame.old)) (waits_of pool.old.below.items) (heap_of heap.old) wrapped)
        (model.callee_of (tables_of rows.now.program.now) (kind_of call.entry.kind) call.entry.op.now (slots_of frame.old) (heap_of heap.old))
        ≡ after result (state_with (frame_of frame.new) (waits_of pool.new.below.items) (heap_of heap.new) wrapped) }
    ensures quiet { IsQuiet result }
    ensures fits { HasRoom pool.new.room frame.new }
    ensures kept { record {
      room : pool.new.room ≡ pool.old.room;
      most : pool.new.most ≡ pool.old.most;
      cells : heap.new.most ≡ heap.old.most;
    } }
{
    match method_of(rows, frame, pool, heap, call, place) {
        Ok(method) => {
            enter(rows, frame, pool, heap, call, method, rest);
            Done::Done
        }
        Err(outcome) => {
            frame.stack.put(Place::Rest(items));
            Done::Stopped(outcome)
        }
    }
}

/// One step of a run that has not ended.
#[inline(always)]
pub fn turn<'p>(
    rows: &Rows<'p>,
    frame: &mut Frame<'p>,
    pool: &mut Pool<'p>,
    heap: &mut Heap<'p>,
) -> Done<'p>
    requires { record {
      fits : HasRoom pool.old.room frame.old;
      places : places_of rows.now.program.now.methods ≤ pool.old.room.places;
      values : values_of rows.now.program.now.methods ≤ pool.old.room.values;
    } }
    ensures state { (wrapped : Bool) → model.step (with_limits heap.old.most pool.old.most) (tables_of rows.now.program.now)
        (state_with (frame_of frame.old) (waits_of pool.old.below.items) (heap_of heap.old) wrapped)
        ≡ after result (state_with (frame_of frame.new) (waits_of pool.new.below.items) (heap_of heap.new) wrapped) }
    ensures event { (wrapped : Bool) → model.step_event (with_limits heap.old.most pool.old.most) (tables_of rows.now.program.now)
        (state_with (frame_of frame.old) (waits_of pool.old.below.items) (heap_of heap.old) wrapped) ≡ event_of result }
    ensures fits { HasRoom pool.new.room frame.new }
    ensures room { pool.new.room ≡ pool.old.room }
    ensures most { pool.new.most ≡ pool.old.most }
    ensures cells { heap.new.most ≡ heap.old.most }
{
    match advance(rows, frame, heap) {
        Move::Went => Done::Done,
        Move::Wrapped => Done::Wrapped,
        Move::Printed(value) => Done::Printed(value),
        Move::Enter(call, place, items, rest) => begin_call(
            rows, frame, pool, heap, call, place, items, rest,
        ),
        Move::Left(slot) => leave(rows.program, frame, pool, heap, slot),
        Move::Stopped(outcome) => Done::Stopped(outcome),
    }
}
