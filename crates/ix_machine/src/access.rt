//! The access that the next step makes, before it is made.
ghost use Rattle.std.specs.Prelude.{◌≡◌, ◌<◌, IfNone, IfSome, length, option_map};
ghost use Rattle.ix_core.specs.Code.{items_code};
ghost use Rattle.ix_core.specs.Heap as cells;
ghost use Rattle.ix_core.specs.Heap.{value_at};
ghost use Rattle.ix_core.specs.Machine.{int_at};
ghost use Rattle.ix_core.specs.Traces as trace;
ghost use Rattle.ix_machine_state.specs.Frames.{slots_of, frame_of};
ghost use Rattle.ix_machine_state.specs.View.{heap_of};
ghost use Rattle.ix_machine.specs.Accesses.{access_of, HasSize, IsNoOp, IsOp};

use crate::task::int_of;
use ix_core::{Item, Op, OpKind};
use ix_machine_state::{Frame, Heap, Held, Place};

/// A cell of an array that an operation asks for: the index, the array's length, and the place, which is where the index starts.
#[derive(Clone, Copy)]
pub struct Access {
    pub index: i32,
    pub length: i32,
    pub at: u32,
}

/// The access of an operation on these slots; none where the array is null.
fn access_on(frame: &Frame<'_>, heap: &Heap<'_>, array: u32, index: u32, at: u32) -> Option<Access>
    ensures { record {
      access : option_map access_of result ≡ trace.access_on (value_at (slots_of frame.now) array) (int_at (slots_of frame.now) index) (heap_of heap.now) at;
      size : IfSome result HasSize;
    } }
{
    match frame.value(array) {
        Held::At(number) => Some(Access {
            index: int_of(frame.value(index)),
            length: heap.array_len(number) as i32,
            at,
        }),
        _ => None,
    }
}

/// The access of an operation; none where it is no load or store, or the array is null.
fn op_access(frame: &Frame<'_>, heap: &Heap<'_>, kind: &OpKind, at: u32) -> Option<Access>
    ensures { record {
      access : option_map access_of result ≡ trace.op_access kind.now (slots_of frame.now) (heap_of heap.now) at;
      size : IfSome result HasSize;
    } }
{
    match kind {
        OpKind::Load(_, array, index, _) => access_on(frame, heap, *array, *index, at),
        OpKind::Store(array, index, _, _) => access_on(frame, heap, *array, *index, at),
        _ => None,
    }
}

/// The operation that items begin with; none where they begin with another item.
fn begun_op<'p>(items: &'p [Item]) -> Option<&'p Op>
    ensures { record {
      some : IfSome result (λ op. IsOp op.now (items_code items.now));
      none : IfNone result (0 < length items.now → IsNoOp (items_code items.now));
    } }
{
    let [item, ..] = items else {
        return None;
    };
    match item {
        Item::Do(op) => Some(op),
        Item::If(_, _, _)
        | Item::Break
        | Item::Continue
        | Item::Return(_, _)
        | Item::Throw(_, _)
        | Item::Loop { .. } => None,
    }
}

/// The access that the next step of a run that has not ended makes; none where it makes none.
pub fn access_in(frame: &Frame<'_>, heap: &Heap<'_>) -> Option<Access>
    ensures { record {
      access : option_map access_of result ≡ trace.task_access (frame_of frame.now).tasks (slots_of frame.now) (heap_of heap.now);
      size : IfSome result HasSize;
    } }
{
    match frame.stack.task()? {
        Place::Rest(items) => {
            let op = begun_op(items)?;
            op_access(frame, heap, &op.kind, op.span.from)
        }
        Place::Ask(_)
        | Place::Decide(_)
        | Place::DecideTruth(_)
        | Place::Head(_)
        | Place::Again(_)
        | Place::Out
        | Place::Branch(_, _)
        | Place::Enter(_)
        | Place::BothLeft(_)
        | Place::EitherLeft(_)
        | Place::Not => None,
    }
}
