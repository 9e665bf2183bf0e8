//! Calls: the method that runs, the values that it gets, and the slot that gets its result.
ghost use Rattle.std.specs.Prelude.{◌≡◌, ◌≤◌, ◌+◌, ◌<◌, ℕ, false, Option, option_map, Some, None, IfSome, IfNone, nat_lt, length};
ghost use Rattle.ix_core.specs.Code.{items_code};
ghost use Rattle.ix_core.specs.Heap.{value_at};
ghost use Rattle.ix_core.specs.Machine as model;
ghost use Rattle.ix_core.specs.Machine.{with_limits};
ghost use Rattle.ix_core.specs.Tables.{tables_of, body_of, method_at, no_method, default_result};
ghost use Rattle.ix_machine_state.specs.Rows.{held_of};
ghost use Rattle.ix_machine_state.specs.View.{heap_of};
ghost use Rattle.ix_machine_state.specs.Frames.{slots_of};
ghost use Rattle.ix_machine_state.specs.Values.{receivers};
ghost use Rattle.ix_machine.specs.Calls.{call_of};
ghost use Rattle.ix_machine.specs.Kinds.{kind_of, called_of};

use crate::rows::Rows;
use ix_core::{CallOp, Item, Method, OpKind, Program, Type_, found};
use ix_machine_state::{Frame, Heap, Held, default_of};

/// How a method is called (JLS 15.9, 15.12, 8.8.7.1).
#[derive(Clone, Copy)]
pub enum CallKind {
    Static,
    Instance,
    /// `new`, of that class.
    New(u32),
    Super,
}

/// A call with its kind.
#[derive(Clone, Copy)]
pub struct Call<'p> {
    pub kind: CallKind,
    pub op: &'p CallOp,
}

/// The call that an operation is; none of another operation.
pub fn call_in<'p>(kind: &'p OpKind) -> Option<Call<'p>>
    ensures { option_map called_of result ≡ call_of kind.now }
{
    match kind {
        OpKind::NewObject(op) => Some(Call {
            kind: CallKind::New(op.class),
            op,
        }),
        OpKind::StaticCall(op) => Some(Call {
            kind: CallKind::Static,
            op,
        }),
        OpKind::InstanceCall(op) => Some(Call {
            kind: CallKind::Instance,
            op,
        }),
        OpKind::SuperCall(op) => Some(Call {
            kind: CallKind::Super,
            op,
        }),
        _ => None,
    }
}

/// The slot of the object that a call is of.
fn receiver_slot(op: &CallOp) -> u32
    ensures { result ≡ model.receiver_slot op.now.receiver }
{
    match op.receiver {
        Some(slot) => slot,
        None => 0,
    }
}

/// The method that a call runs (JLS 15.12.4.4); none where the receiver is null.
pub fn callee<'p>(
    rows: &Rows<'p>,
    call: Call<'p>,
    frame: &Frame<'p>,
    heap: &Heap<'p>,
) -> Option<u32>
    ensures { result ≡ model.callee_of (tables_of rows.now.program.now) (kind_of call.entry.kind) call.entry.op.now (slots_of frame.now) (heap_of heap.now) }
{
    match call.kind {
        CallKind::Instance => match frame.value(receiver_slot(call.op)) {
            Held::At(number) => match heap.class_of(number) {
                Some(class) => Some(found(rows.program, class, call.op.method)),
                None => None,
            },
            _ => None,
        },
        _ => Some(call.op.method),
    }
}

/// Whether the object of `new` would pass the most cells.
pub fn lacks_cells<'p>(rows: &Rows<'p>, kind: CallKind, heap: &Heap<'p>) -> bool
    ensures { (frames : ℕ) → result ≡ model.lacks_cells (with_limits heap.now.most frames) (tables_of rows.now.program.now) (kind_of kind) (heap_of heap.now) }
{
    match kind {
        CallKind::New(class) => heap.lacks(rows.fields(class).len()),
        _ => false,
    }
}

/// Makes the object of `new`, whose number is the answer.
pub fn make_object<'p>(rows: &Rows<'p>, kind: CallKind, heap: &mut Heap<'p>) -> u32
    requires { (frames : ℕ) → model.lacks_cells (with_limits heap.old.most frames) (tables_of rows.now.program.now) (kind_of kind) (heap_of heap.old) ≡ false }
    ensures { record {
      made : heap_of heap.new ≡ model.call_heap (tables_of rows.now.program.now) (kind_of kind) (heap_of heap.old);
      number : (class : ℕ) → kind_of kind ≡ model.New class → result ≡ length (heap_of heap.old);
      most : heap.new.most ≡ heap.old.most;
    } }
{
    match kind {
        CallKind::New(class) => heap.make_object(rows.program, class, rows.fields(class)),
        _ => 0,
    }
}

/// The object that the method is called on, where `new` made that number.
pub fn receiver<'p>(call: Call<'p>, number: u32, frame: &Frame<'p>) -> Option<Held>
    ensures { receivers result ≡ model.receiver (kind_of call.entry.kind) call.entry.op.now number (slots_of frame.now) }
{
    match call.kind {
        CallKind::Static => None,
        CallKind::New(_) => Some(Held::At(number)),
        CallKind::Instance => Some(frame.value(receiver_slot(call.op))),
        CallKind::Super => Some(frame.value(receiver_slot(call.op))),
    }
}

/// The method of that number; none where there is none.
fn method_in(program: &Program, method: u32) -> Option<&Method>
    ensures { record {
      found : IfSome result (λ found. method_at program.now method ≡ found.now);
      none : IfNone result (method_at program.now method ≡ no_method);
    } }
{
    program.methods.as_slice().get(method as usize)
}

/// What a method gives back where its body ends without a `return`; none of a method without a result.
pub fn default_in(program: &Program, method: u32) -> Option<Held>
    ensures { option_map held_of result ≡ default_result (method_at program.now method).result }
{
    match method_in(program, method) {
        Some(found) => match &found.result {
            Type_::Void => None,
            result => Some(default_of(result)),
        },
        None => None,
    }
}

/// The slot that gets what the called frame ends with, if one does.
pub fn target<'p>(program: &Program, call: Call<'p>) -> Option<u32>
    ensures { result ≡ model.target_of (tables_of program.now) (kind_of call.entry.kind) call.entry.op.now }
{
    match call.kind {
        CallKind::New(_) => Some(call.op.target),
        CallKind::Super => None,
        _ => match default_in(program, call.op.method) {
            Some(_) => Some(call.op.target),
            None => None,
        },
    }
}

/// A method's body, which is empty where there is no such method.
pub fn body_in<'p>(program: &'p Program, method: u32) -> &'p [Item]
    ensures { items_code result.now ≡ body_of (method_at program.entry.now method) }
{
    match method_in(program, method) {
        Some(found) => found.body.items.as_slice(),
        None => &[],
    }
}

/// How many slots a method's frame has.
pub fn slots_in(program: &Program, method: u32) -> u32
    ensures { result ≡ (method_at program.now method).slots }
{
    match method_in(program, method) {
        Some(found) => found.slots,
        None => 0,
    }
}
