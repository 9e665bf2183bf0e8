//! Calls.
ghost use Rattle.std.specs.Prelude.{◌≡◌, ◌≤◌, ◌+◌, ◌<◌, ℕ, [], ◌∷◌, ◌++◌, List, length, map, option_map, Option, Some, None, true, false, IfOk, IfErr};
ghost use Rattle.ix_core.specs.Code.{items_code};
ghost use Rattle.ix_core.specs.Heap.{value_at};
ghost use Rattle.ix_core.specs.Machine as model;
ghost use Rattle.ix_core.specs.Machine.{with_limits, is_past, slots_with, call_values};
ghost use Rattle.ix_core.specs.Tables.{tables_of};
ghost use Rattle.ix_core.specs.Tasks as tasks;
ghost use Rattle.ix_core.specs.Tasks.{Tasks, code_then};
ghost use Rattle.ix_machine_state.specs.View.{heap_of};
ghost use Rattle.ix_machine_state.specs.declared.places.Place.TheVariants as place;
ghost use Rattle.ix_machine_state.specs.Fits.{IsFree};
ghost use Rattle.ix_machine_state.specs.Frames.{slots_of, frame_of};
ghost use Rattle.ix_machine_state.specs.Places.{tasks_open};
ghost use Rattle.ix_machine_state.specs.Waiting.{waits_of, HasRoom};
ghost use Rattle.ix_machine.specs.Kinds.{kind_of};
ghost use Rattle.ix_machine.specs.Programs.{places_of, values_of};

use crate::calls::{Call, body_in, callee, lacks_cells, make_object, receiver, slots_in, target};
use crate::rows::Rows;
use ix_core::{Item, Outcome};
use ix_machine_state::{Frame, Heap, Place, Pool};

/// The method that a call runs, or why it stops the run: null is tested first, then cells, then frames.
pub fn method_of<'p>(
    rows: &Rows<'p>,
    frame: &Frame<'p>,
    pool: &Pool<'p>,
    heap: &Heap<'p>,
    call: Call<'p>,
    place: u32,
) -> Result<u32, Outcome<'p>>
    ensures callee { IfOk result (λ method. model.callee_of (tables_of rows.now.program.now) (kind_of call.entry.kind) call.entry.op.now (slots_of frame.now) (heap_of heap.now) ≡ Some method) }
    ensures cells { IfOk result (λ method. model.lacks_cells (with_limits heap.now.most pool.now.most) (tables_of rows.now.program.now) (kind_of call.entry.kind) (heap_of heap.now) ≡ false) }
    ensures frames { IfOk result (λ method. length (waits_of pool.now.below.items) + 2 ≤ pool.now.most) }
    ensures stopped { IfErr result (λ outcome. (left : Tasks) (state : model.State) → state.heap ≡ heap_of heap.now → state.below ≡ waits_of pool.now.below.items
        → model.called (with_limits heap.now.most pool.now.most) (tables_of rows.now.program.now) (kind_of call.entry.kind) call.entry.op.now place left state
        (model.callee_of (tables_of rows.now.program.now) (kind_of call.entry.kind) call.entry.op.now (slots_of frame.now) (heap_of heap.now))
        ≡ model.stopped (model.ending_of outcome) state) }
{
    match callee(rows, call, frame, heap) {
        None => Err(Outcome::Null(place)),
        Some(method) => {
            if lacks_cells(rows, call.kind, heap) {
                return Err(Outcome::HeapFull(place));
            }
            if pool.is_full() {
                return Err(Outcome::FrameFull(place));
            }
            Ok(method)
        }
    }
}

/// Begins the frame of a call, behind which the rest stands.
pub fn enter<'p>(
    rows: &Rows<'p>,
    frame: &mut Frame<'p>,
    pool: &mut Pool<'p>,
    heap: &mut Heap<'p>,
    call: Call<'p>,
    method: u32,
    rest: &'p [Item],
)
    requires cells { (frames : ℕ) → model.lacks_cells (with_limits heap.old.most frames) (tables_of rows.now.program.now) (kind_of call.kind) (heap_of heap.old) ≡ false }
    requires frames { length (waits_of pool.old.below.items) + 2 ≤ pool.old.most }
    requires free { IsFree (length frame.old.stack.places.items) frame.old.stack.room (place.Rest rest) }
    requires passed { length call.op.now.args + 1 ≤ frame.old.stack.room.values }
    requires fits { HasRoom pool.old.room frame.old }
    requires places { places_of rows.now.program.now.methods ≤ pool.old.room.places }
    requires values { values_of rows.now.program.now.methods ≤ pool.old.room.values }
    ensures frame { frame_of frame.new ≡ model.frame method (code_then ((tables_of rows.now.program.now).routines method).body tasks.Empty)
        (slots_with ((tables_of rows.now.program.now).routines method).slots (call_values (kind_of call.entry.kind) call.entry.op.now (length (heap_of heap.old)) (slots_of frame.old))) }
    ensures below { waits_of pool.new.below.items ≡ record {
      frame = model.frame frame.old.method (code_then (items_code rest.now) (tasks_open frame.old.stack.places.items)) (slots_of frame.old);
      target = model.target_of (tables_of rows.now.program.now) (kind_of call.entry.kind) call.entry.op.now;
    } ∷ waits_of pool.old.below.items }
    ensures heap { heap_of heap.new ≡ model.call_heap (tables_of rows.now.program.now) (kind_of call.entry.kind) (heap_of heap.old) }
    ensures fits { HasRoom pool.new.room frame.new }
    ensures room { pool.new.room ≡ pool.old.room }
    ensures most { pool.new.most ≡ pool.old.most }
    ensures cells { heap.new.most ≡ heap.old.most }
{
    frame.stack.put(Place::Rest(rest));
    let number = make_object(rows, call.kind, heap);
    let this = receiver(call, number, frame);
    let result = target(rows.program, call);
    pool.enter(
        frame,
        method,
        body_in(rows.program, method),
        slots_in(rows.program, method),
        this,
        call.op.args.as_slice(),
        result,
    );
}
