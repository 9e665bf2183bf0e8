//! Operations of a block, one after another: many steps of one frame, with no look at its open places between them.
//! What is done for each operation is inlined, so that their loop has no call in it.
ghost use Rattle.std.specs.Prelude.{◌≡◌, ◌-◌, ◌<◌, ◌≤◌, ℕ, Bool, List, IfSome, IsTrue, IsFalse, length};
ghost use Rattle.ix_core.specs.Code.{Code, Do, items_code};
ghost use Rattle.ix_core.specs.Machine as model;
ghost use Rattle.ix_core.specs.Machine.{with_limits, Waiting};
ghost use Rattle.ix_core.specs.Tables.{tables_of};
ghost use Rattle.ix_core.specs.Tasks.{Tasks, code_then};
ghost use Rattle.ix_machine_state.specs.View.{heap_of};
ghost use Rattle.ix_machine_state.specs.Frames.{slots_of, frame_of};
ghost use Rattle.ix_machine_state.specs.Fits.{IsFree};
ghost use Rattle.ix_machine_state.specs.Places.{outer};
ghost use Rattle.ix_machine_state.specs.declared.places.Place.TheVariants as place;
ghost use Rattle.ix_machine.specs.Quiet.{LeadsTo};
ghost use Rattle.ix_machine.specs.Turns.{state_with};

use crate::calls::call_in;
use crate::operations::{Done, operate};
use crate::rows::Rows;
use ix_core::{Item, Op};
use ix_machine_state::{Frame, Heap};

/// The items behind operations that were done, and how many these were.
#[derive(Clone, Copy)]
pub struct Ran<'p> {
    pub rest: &'p [Item],
    pub made: u32,
}

/// The operation that items begin with, and the items behind it; none where they begin with another item.
#[inline(always)]
fn first_op<'p>(items: &'p [Item]) -> Option<(&'p Op, &'p [Item])>
    ensures { IfSome result (λ first. items_code items.now ≡ Do first.0.now (items_code first.1.now)) }
{
    match items {
        [Item::Do(op), rest @ ..] => Some((op, rest)),
        _ => None,
    }
}

/// Does an operation that is no call, and after which the run goes on with nothing printed; of another, nothing is done and the answer is no. Notes where the
/// exact result is no int.
#[inline(always)]
fn goes_on<'p>(
    rows: &Rows<'p>,
    frame: &mut Frame<'p>,
    heap: &mut Heap<'p>,
    op: &'p Op,
    wrapped: &mut bool,
) -> bool
    ensures step { IsTrue result → (frames : ℕ) (rest : Code) (tasks : Tasks) (below : List Waiting)
        → LeadsTo (with_limits heap.old.most frames) (tables_of rows.now.program.now) 1
        (state_with (model.frame frame.old.method (code_then (Do op.now rest) tasks) (slots_of frame.old)) below (heap_of heap.old) wrapped.old)
        (state_with (model.frame frame.old.method (code_then rest tasks) (slots_of frame.new)) below (heap_of heap.new) wrapped.new) }
    ensures slots { IsFalse result → slots_of frame.new ≡ slots_of frame.old }
    ensures heap { IsFalse result → heap_of heap.new ≡ heap_of heap.old }
    ensures wrapped { IsFalse result → wrapped.new ≡ wrapped.old }
    ensures method { frame.new.method ≡ frame.old.method }
    ensures stack { frame.new.stack ≡ frame.old.stack }
    ensures most { heap.new.most ≡ heap.old.most }
{
    if call_in(&op.kind).is_some() {
        return false;
    }
    match operate(rows, frame, heap, op) {
        Done::Done => true,
        Done::Wrapped => {
            *wrapped = true;
            true
        }
        Done::Printed(_) | Done::Stopped(_) => false,
    }
}

/// Does the operations that these items begin with, at most so many, up to a call or one that prints or stops the run.
fn do_row<'p>(
    rows: &Rows<'p>,
    frame: &mut Frame<'p>,
    heap: &mut Heap<'p>,
    items: &'p [Item],
    most: u32,
    wrapped: &mut bool,
) -> Ran<'p>
    requires free { IsFree (length (outer frame.old.stack.places.items)) frame.old.stack.room (place.Rest items) }
    ensures steps { (frames : ℕ) (tasks : Tasks) (below : List Waiting)
        → LeadsTo (with_limits heap.old.most frames) (tables_of rows.now.program.now) result.made
        (state_with (model.frame frame.old.method (code_then (items_code items.now) tasks) (slots_of frame.old)) below (heap_of heap.old) wrapped.old)
        (state_with (model.frame frame.old.method (code_then (items_code result.rest.now) tasks) (slots_of frame.new)) below (heap_of heap.new) wrapped.new) }
    ensures made { result.made ≤ most }
    ensures free { IsFree (length (outer frame.old.stack.places.items)) frame.old.stack.room (place.Rest result.rest) }
    ensures method { frame.new.method ≡ frame.old.method }
    ensures stack { frame.new.stack ≡ frame.old.stack }
    ensures most { heap.new.most ≡ heap.old.most }
{
    let mut rest = items;
    let mut made = 0;
    while made < most {
        let Some((op, after)) = first_op(rest) else {
            return Ran { rest, made };
        };
        if !goes_on(rows, frame, heap, op, wrapped) {
            return Ran { rest, made };
        }
        rest = after;
        made += 1;
    }
    Ran { rest, made }
}

/// Does operations of the innermost block, at most so many, up to a call or one that prints or stops the run; answers how many steps these were.
#[inline(always)]
pub fn do_operations<'p>(
    rows: &Rows<'p>,
    frame: &mut Frame<'p>,
    heap: &mut Heap<'p>,
    most: u32,
    wrapped: &mut bool,
) -> u32
    ensures steps { (frames : ℕ) (below : List Waiting) → LeadsTo (with_limits heap.old.most frames) (tables_of rows.now.program.now) result
        (state_with (frame_of frame.old) below (heap_of heap.old) wrapped.old) (state_with (frame_of frame.new) below (heap_of heap.new) wrapped.new) }
    ensures made { result ≤ most }
    ensures room { frame.new.stack.room ≡ frame.old.stack.room }
    ensures most { heap.new.most ≡ heap.old.most }
{
    match frame.stack.block() {
        Some(items) => {
            let ran = do_row(rows, frame, heap, items, most, wrapped);
            frame.stack.go_on(ran.rest);
            ran.made
        }
        None => 0,
    }
}
