//! The operations that are no calls.
//! Operations are inlined where they are done in a row, so that none is a call; those that make an array take longer than a call does, and aren't.
ghost use Rattle.std.specs.Prelude.{◌≡◌, true, ◌+◌, ◌<◌, ◌≤◌, ◌^◌, ℕ, pos, length, map, Some, None, IfSome, IfNone};
ghost use Rattle.ix_num.specs.Arithmetic.{exact_of};
ghost use Rattle.ix_core.specs.Heap as cells;
ghost use Rattle.ix_core.specs.Heap.{value_at, array_at, object_at, place_in, write_at};
ghost use Rattle.ix_core.specs.Machine.{Limits, assign, assign_length, assign_int, assign_result, at_array, at_index, at_field, unary_of, int_at, is_int, with_limits, literal_value, new_array, allocate};
ghost use Rattle.ix_core.specs.Machine as model;
ghost use Rattle.ix_core.specs.Tables.{Tables, tables_of};
ghost use Rattle.ix_machine_state.specs.Rows.{held_of};
ghost use Rattle.ix_machine_state.specs.View.{heap_of};
ghost use Rattle.ix_machine_state.specs.Frames.{slots_of, frame_of};
ghost use Rattle.ix_machine.specs.Calls.{call_of};
ghost use Rattle.ix_machine.specs.Effects.{effect_of, IsPrinted, IsStopped};

use crate::rows::Rows;
use ix_core::{Literal, Op, OpKind, Outcome, Type_, UnaryNum};
use ix_machine_state::{Frame, Heap, Held, Kind};
use ix_num::{Arith, exact, wrap};

/// What an operation that is no call does.
pub enum Done<'p> {
    Done,
    /// Done; the exact result is no int.
    Wrapped,
    Printed(Held),
    Stopped(Outcome<'p>),
}

/// The int that a slot holds; 0 where none is.
fn int_in<'p>(frame: &Frame<'p>, slot: u32) -> i32
    ensures { result ≡ int_at (slots_of frame.now) slot }
{
    match frame.value(slot) {
        Held::Int(n) => n,
        _ => 0,
    }
}

/// Keeps the low 32 bits of an exact result in a slot (JLS 4.2.2).
fn keep<'p>(frame: &mut Frame<'p>, target: u32, exact: &i128) -> Done<'p>
    ensures { record {
      done : (limits : Limits) (tables : Tables) (place : ℕ) (heap : cells.Heap) → assign_int limits tables place (slots_of frame.old) heap target exact.now ≡ effect_of result (slots_of frame.new) heap;
      printed : IsPrinted result → ⊥;
      stopped : IsStopped result → slots_of frame.new ≡ slots_of frame.old;
      method : frame.new.method ≡ frame.old.method;
      stack : frame.new.stack ≡ frame.old.stack;
    } }
{
    match i32::try_from(*exact) {
        Ok(int) => {
            frame.set(target, Held::Int(int));
            Done::Done
        }
        Err(_) => {
            frame.set(target, Held::Int(wrap(*exact)));
            Done::Wrapped
        }
    }
}

/// The exact result of `+`, `-` or `*` where it is an int, as it mostly is: found without a wider number.
fn int_result(arith: Arith, x: i32, y: i32) -> Option<i32>
    ensures { record {
      exact : IfSome result (λ int. exact_of arith x y ≡ Some int);
      int : IfSome result (λ int. is_int int ≡ true);
    } }
{
    match arith {
        Arith::Add => x.checked_add(y),
        Arith::Sub => x.checked_sub(y),
        Arith::Mul => x.checked_mul(y),
        _ => None,
    }
}

/// Arithmetic on two ints (JLS 15.17 to 15.19, 15.22.1).
#[inline(always)]
fn num<'p>(
    frame: &mut Frame<'p>,
    place: u32,
    target: u32,
    arith: Arith,
    left: u32,
    right: u32,
) -> Done<'p>
    ensures { record {
      done : (limits : Limits) (tables : Tables) (heap : cells.Heap)
          → assign_result limits tables place (slots_of frame.old) heap target (exact_of arith (int_at (slots_of frame.old) left) (int_at (slots_of frame.old) right)) ≡ effect_of result (slots_of frame.new) heap;
      printed : IsPrinted result → ⊥;
      stopped : IsStopped result → slots_of frame.new ≡ slots_of frame.old;
      method : frame.new.method ≡ frame.old.method;
      stack : frame.new.stack ≡ frame.old.stack;
    } }
{
    let x = int_in(frame, left);
    let y = int_in(frame, right);
    if let Some(int) = int_result(arith, x, y) {
        frame.set(target, Held::Int(int));
        return Done::Done;
    }
    match exact(arith, x, y) {
        Some(exact) => keep(frame, target, &exact),
        None => Done::Stopped(Outcome::ZeroDivisor(place)),
    }
}

/// The exact result of an operator on the int of a slot.
fn exact_unary<'p>(frame: &Frame<'p>, unary: UnaryNum, operand: u32) -> i128
    ensures { result ≡ unary_of unary (int_at (slots_of frame.now) operand) }
{
    let x = int_in(frame, operand);
    match unary {
        UnaryNum::Neg => -(x as i128),
        UnaryNum::Flip => (-1 - x) as i128,
    }
}

/// Arithmetic on one int (JLS 15.15.4, 15.15.5).
fn unary<'p>(frame: &mut Frame<'p>, target: u32, unary: UnaryNum, operand: u32) -> Done<'p>
    ensures { record {
      done : (limits : Limits) (tables : Tables) (place : ℕ) (heap : cells.Heap)
          → assign_int limits tables place (slots_of frame.old) heap target (unary_of unary (int_at (slots_of frame.old) operand)) ≡ effect_of result (slots_of frame.new) heap;
      printed : IsPrinted result → ⊥;
      stopped : IsStopped result → slots_of frame.new ≡ slots_of frame.old;
      method : frame.new.method ≡ frame.old.method;
      stack : frame.new.stack ≡ frame.old.stack;
    } }
{
    let exact = exact_unary(frame, unary, operand);
    keep(frame, target, &exact)
}

/// The length of an array (JLS 10.7).
fn array_length<'p>(
    frame: &mut Frame<'p>,
    heap: &Heap<'p>,
    place: u32,
    target: u32,
    array: u32,
) -> Done<'p>
    ensures { record {
      done : (limits : Limits) (tables : Tables) → assign_length limits tables place (slots_of frame.old) (heap_of heap.now) target (value_at (slots_of frame.old) array) ≡ effect_of result (slots_of frame.new) (heap_of heap.now);
      printed : IsPrinted result → ⊥;
      stopped : IsStopped result → slots_of frame.new ≡ slots_of frame.old;
      method : frame.new.method ≡ frame.old.method;
      stack : frame.new.stack ≡ frame.old.stack;
    } }
{
    let size = match frame.value(array) {
        Held::Null => return Done::Stopped(Outcome::Null(place)),
        Held::At(number) => heap.array_len(number) as i32,
        _ => 0,
    };
    frame.set(target, Held::Int(size));
    Done::Done
}

/// Reads a cell of an array (JLS 15.10.4).
fn load<'p>(
    frame: &mut Frame<'p>,
    heap: &Heap<'p>,
    place: u32,
    target: u32,
    array: u32,
    index: u32,
) -> Done<'p>
    ensures { record {
      done : (limits : Limits) (tables : Tables) → at_array limits tables place (slots_of frame.old) (heap_of heap.now) array
          (λ number items. at_index limits tables place (slots_of frame.old) (heap_of heap.now) (int_at (slots_of frame.old) index) items
          (λ cell. assign limits tables place (slots_of frame.old) (heap_of heap.now) target (value_at items cell))) ≡ effect_of result (slots_of frame.new) (heap_of heap.now);
      printed : IsPrinted result → ⊥;
      stopped : IsStopped result → slots_of frame.new ≡ slots_of frame.old;
      method : frame.new.method ≡ frame.old.method;
      stack : frame.new.stack ≡ frame.old.stack;
    } }
{
    let index = int_in(frame, index);
    match frame.value(array) {
        Held::At(number) => match heap.load(number, index) {
            Ok(value) => {
                frame.set(target, value);
                Done::Done
            }
            Err(size) => Done::Stopped(Outcome::Outside(index, size as i32, place)),
        },
        _ => Done::Stopped(Outcome::Null(place)),
    }
}

/// Writes a cell of an array (JLS 15.26.1).
fn store<'p>(
    frame: &Frame<'p>,
    heap: &mut Heap<'p>,
    place: u32,
    array: u32,
    index: u32,
    value: u32,
) -> Done<'p>
    ensures { record {
      done : (limits : Limits) (tables : Tables) → at_array limits tables place (slots_of frame.now) (heap_of heap.old) array
          (λ number items. at_index limits tables place (slots_of frame.now) (heap_of heap.old) (int_at (slots_of frame.now) index) items
          (λ cell. model.Done (slots_of frame.now) (write_at (heap_of heap.old) number cell (value_at (slots_of frame.now) value)))) ≡ effect_of result (slots_of frame.now) (heap_of heap.new);
      printed : IsPrinted result → ⊥;
      stopped : IsStopped result → heap_of heap.new ≡ heap_of heap.old;
      most : heap.new.most ≡ heap.old.most;
    } }
{
    let index = int_in(frame, index);
    match frame.value(array) {
        Held::At(number) => match heap.store(number, index, frame.value(value)) {
            Ok(()) => Done::Done,
            Err(size) => Done::Stopped(Outcome::Outside(index, size as i32, place)),
        },
        _ => Done::Stopped(Outcome::Null(place)),
    }
}

/// The object of a slot and the place of a field in it, if it has one.
fn field_at<'p>(
    rows: &Rows<'p>,
    frame: &Frame<'p>,
    heap: &Heap<'p>,
    object: u32,
    field: u32,
) -> Option<(u32, usize)>
    ensures { record {
      found : IfSome result (λ at. (value_at (slots_of frame.now) object ≡ cells.At at.0) × (place_in (tables_of rows.now.program.now).place (object_at (heap_of heap.now) at.0).kind field ≡ Some at.1));
      none : IfNone result ((place : ℕ) (limits : Limits) (next : ℕ → ℕ → model.Effect) → model.Stopped (model.NullUsed place) ≡ model.at_field limits (tables_of rows.now.program.now) place (slots_of frame.now) (heap_of heap.now) object field next);
    } }
{
    match frame.value(object) {
        Held::At(number) => match heap.class_of(number) {
            Some(class) => match rows.place(class, field) {
                Some(place) => Some((number, place)),
                None => None,
            },
            None => None,
        },
        _ => None,
    }
}

/// Reads a field (JLS 15.11).
fn read_field<'p>(
    rows: &Rows<'p>,
    frame: &mut Frame<'p>,
    heap: &Heap<'p>,
    place: u32,
    target: u32,
    object: u32,
    field: u32,
) -> Done<'p>
    ensures { record {
      done : (limits : Limits) → at_field limits (tables_of rows.now.program.now) place (slots_of frame.old) (heap_of heap.now) object field
          (λ number cell. assign limits (tables_of rows.now.program.now) place (slots_of frame.old) (heap_of heap.now) target (value_at (object_at (heap_of heap.now) number).cells cell)) ≡ effect_of result (slots_of frame.new) (heap_of heap.now);
      printed : IsPrinted result → ⊥;
      stopped : IsStopped result → slots_of frame.new ≡ slots_of frame.old;
      method : frame.new.method ≡ frame.old.method;
      stack : frame.new.stack ≡ frame.old.stack;
    } }
{
    match field_at(rows, frame, heap, object, field) {
        Some((number, cell)) => {
            frame.set(target, heap.read(number, cell));
            Done::Done
        }
        None => Done::Stopped(Outcome::Null(place)),
    }
}

/// Writes a field (JLS 15.26.1).
fn write_field<'p>(
    rows: &Rows<'p>,
    frame: &Frame<'p>,
    heap: &mut Heap<'p>,
    place: u32,
    object: u32,
    field: u32,
    value: u32,
) -> Done<'p>
    ensures { record {
      done : (limits : Limits) → at_field limits (tables_of rows.now.program.now) place (slots_of frame.now) (heap_of heap.old) object field
          (λ number cell. model.Done (slots_of frame.now) (write_at (heap_of heap.old) number cell (value_at (slots_of frame.now) value))) ≡ effect_of result (slots_of frame.now) (heap_of heap.new);
      printed : IsPrinted result → ⊥;
      stopped : IsStopped result → heap_of heap.new ≡ heap_of heap.old;
      most : heap.new.most ≡ heap.old.most;
    } }
{
    match field_at(rows, frame, heap, object, field) {
        Some((number, cell)) => {
            heap.write(number, cell, frame.value(value));
            Done::Done
        }
        None => Done::Stopped(Outcome::Null(place)),
    }
}

/// Makes an array of default cells (JLS 15.10.2).
#[inline(never)]
fn new_array<'p>(
    frame: &mut Frame<'p>,
    heap: &mut Heap<'p>,
    place: u32,
    target: u32,
    ty: &'p Type_,
    size: u32,
) -> Done<'p>
    ensures { record {
      done : (frames : ℕ) (tables : Tables) → new_array (with_limits heap.old.most frames) tables place (slots_of frame.old) (heap_of heap.old) target ty.now (int_at (slots_of frame.old) size)
          ≡ effect_of result (slots_of frame.new) (heap_of heap.new);
      printed : IsPrinted result → ⊥;
      stopped : IsStopped result → slots_of frame.new ≡ slots_of frame.old;
      method : frame.new.method ≡ frame.old.method;
      stack : frame.new.stack ≡ frame.old.stack;
      unmade : IsStopped result → heap_of heap.new ≡ heap_of heap.old;
      most : heap.new.most ≡ heap.old.most;
    } }
{
    let size = int_in(frame, size);
    if size < 0 {
        return Done::Stopped(Outcome::Negative(size, place));
    }
    let len = size.unsigned_abs() as usize;
    if heap.lacks(len) {
        return Done::Stopped(Outcome::HeapFull(place));
    }
    let number = heap.make_array(ty, len);
    frame.set(target, Held::At(number));
    Done::Done
}

/// Makes an array of these entries (JLS 10.6).
#[inline(never)]
fn fill<'p>(
    frame: &mut Frame<'p>,
    heap: &mut Heap<'p>,
    place: u32,
    target: u32,
    ty: &'p Type_,
    entries: &[u32],
) -> Done<'p>
    ensures { record {
      done : (frames : ℕ) (tables : Tables) → allocate (with_limits heap.old.most frames) tables place (slots_of frame.old) (heap_of heap.old) target ty.now (length entries.now) (map (value_at (slots_of frame.old)) entries.now)
          ≡ effect_of result (slots_of frame.new) (heap_of heap.new);
      printed : IsPrinted result → ⊥;
      stopped : IsStopped result → slots_of frame.new ≡ slots_of frame.old;
      method : frame.new.method ≡ frame.old.method;
      stack : frame.new.stack ≡ frame.old.stack;
      unmade : IsStopped result → heap_of heap.new ≡ heap_of heap.old;
      most : heap.new.most ≡ heap.old.most;
    } }
{
    if heap.lacks(entries.len()) {
        return Done::Stopped(Outcome::HeapFull(place));
    }
    let number = heap.make_list(ty, entries, frame.slots());
    frame.set(target, Held::At(number));
    Done::Done
}

/// The value of a literal.
fn literal_held(value: &Literal) -> Held
    ensures { held_of result ≡ literal_value value.now }
{
    match value {
        Literal::Int(n) => Held::Int(*n),
        Literal::Bool(answer) => Held::Bool(*answer),
        Literal::NullOf(_) => Held::Null,
    }
}

/// Does an operation that is no call.
#[inline(always)]
pub fn operate<'p>(
    rows: &Rows<'p>,
    frame: &mut Frame<'p>,
    heap: &mut Heap<'p>,
    op: &'p Op,
) -> Done<'p>
    requires { call_of op.now.kind ≡ None }
    ensures done { (frames : ℕ) → model.operate (with_limits heap.old.most frames) (tables_of rows.now.program.now) op.now.span.from (slots_of frame.old) (heap_of heap.old) op.now.kind
        ≡ effect_of result (slots_of frame.new) (heap_of heap.new) }
    ensures printed { IsPrinted result → (frame.new ≡ frame.old) × (heap.new ≡ heap.old) }
    ensures stopped { IsStopped result → (slots_of frame.new ≡ slots_of frame.old) × (heap_of heap.new ≡ heap_of heap.old) }
    ensures method { frame.new.method ≡ frame.old.method }
    ensures stack { frame.new.stack ≡ frame.old.stack }
    ensures most { heap.new.most ≡ heap.old.most }
{
    let place = op.span.from;
    match &op.kind {
        OpKind::Const(target, value) => {
            frame.set(*target, literal_held(value));
            Done::Done
        }
        OpKind::Copy(target, source, _) => {
            let value = frame.value(*source);
            frame.set(*target, value);
            Done::Done
        }
        OpKind::Num(target, arith, left, right) => num(
            frame, place, *target, *arith, *left, *right,
        ),
        OpKind::Unary(target, sign, operand) => unary(frame, *target, *sign, *operand),
        OpKind::Length(target, array) => array_length(frame, heap, place, *target, *array),
        OpKind::NewArray(target, ty, size) => new_array(frame, heap, place, *target, ty, *size),
        OpKind::Fill(target, ty, entries) => fill(
            frame,
            heap,
            place,
            *target,
            ty,
            entries.as_slice(),
        ),
        OpKind::Load(target, array, index, _) => load(frame, heap, place, *target, *array, *index),
        OpKind::Store(array, index, value, _) => store(frame, heap, place, *array, *index, *value),
        OpKind::ReadField(target, object, field) => read_field(
            rows, frame, heap, place, *target, *object, *field,
        ),
        OpKind::WriteField(object, field, value) => write_field(
            rows, frame, heap, place, *object, *field, *value,
        ),
        OpKind::Print(value) => Done::Printed(frame.value(*value)),
        OpKind::NewObject(_)
        | OpKind::StaticCall(_)
        | OpKind::InstanceCall(_)
        | OpKind::SuperCall(_) => unreachable!(),
    }
}
