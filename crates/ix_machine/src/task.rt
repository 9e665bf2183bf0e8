//! A step of one frame: its innermost task.
//! The step itself is inlined where steps are made; an operation alone isn't, since most are done in a row (`straight`).
ghost use Rattle.std.specs.Prelude.{◌≡◌, ◌+◌, ◌<◌, ◌≤◌, ◌++◌, ◌∷◌, [], ℕ, Bool, if◌then◌else◌, length, reverse, Option, Some, None, IfSome, IfNone};
ghost use Rattle.ix_core.specs.Code.{Do, If, Loop, items_code, item_code, cond_code, block_code};
ghost use Rattle.ix_core.specs.Heap as cells;
ghost use Rattle.ix_core.specs.Heap.{value_at, Heap as Heap_};
ghost use Rattle.ix_num.specs.declared.rel.Rel.{Rel as Rel_};
ghost use Rattle.ix_core.specs.Machine.{step_code, step_tasks, with_limits, test_of, is_true, is_same, int_test, same_test};
ghost use Rattle.ix_core.specs.Machine as model;
ghost use Rattle.ix_core.specs.Tables.{tables_of, Tables};
ghost use Rattle.ix_core.specs.Tasks.{Empty, Ask, code_then};
ghost use Rattle.ix_machine_state.specs.Rows.{held_of};
ghost use Rattle.ix_machine_state.specs.View.{heap_of};
ghost use Rattle.ix_machine_state.specs.Frames.{slots_of};
ghost use Rattle.ix_machine_state.specs.Fits.{IsFree, IsFreeFor};
ghost use Rattle.ix_machine_state.specs.Places.{IsTask, around, outer, tasks_of, tasks_open, loop_tasks};
ghost use Rattle.ix_machine_state.specs.declared.places.Place.TheVariants as place;
ghost use Rattle.ix_machine.specs.Moves.{move_of, KeepsValues, IsBack, IsCall};

use crate::calls::{Call, call_in};
use crate::operations::{Done, operate};
use crate::rows::Rows;
use ix_core::{Base, Block, Cond, Item, Op, Outcome, Test, Type_};
use ix_machine_state::{Frame, Heap, Held, Place, Turn};
use ix_num::Rel;

/// What a step of a frame does.
pub enum Move<'p> {
    Went,
    /// The exact result of an operation is no int.
    Wrapped,
    Printed(Held),
    /// A call from a place, the items that it begins, and those behind it.
    Enter(Call<'p>, u32, &'p [Item], &'p [Item]),
    /// The frame ends, with the value of that slot.
    Left(Option<u32>),
    Stopped(Outcome<'p>),
}

/// The relation of two ints (JLS 15.20.1, 15.21.1).
fn ints_meet(rel: Rel, left: i32, right: i32) -> bool
    ensures { result ≡ int_test rel left right }
{
    match rel {
        Rel::Lt => left < right,
        Rel::Le => left <= right,
        Rel::Gt => left > right,
        Rel::Ge => left >= right,
        Rel::Eq => left == right,
        Rel::Ne => left != right,
    }
}

/// Whether two booleans or two references are the same (JLS 15.21.2, 15.21.3).
fn are_same(left: Held, right: Held) -> bool
    ensures { result ≡ is_same (held_of left) (held_of right) }
{
    match (left, right) {
        (Held::Bool(x), Held::Bool(y)) => { if x { y } else { !y } }
        (Held::Null, Held::Null) => true,
        (Held::At(x), Held::At(y)) => x == y,
        _ => false,
    }
}

/// The int of a value; 0 where it is none.
pub(crate) fn int_of(value: Held) -> i32
    ensures { result ≡ cells.int_of (held_of value) }
{
    match value {
        Held::Int(n) => n,
        _ => 0,
    }
}

/// Whether the values of a type are ints.
fn is_int_type(ty: &Type_) -> bool
    ensures { (relation : Rel_) (left right : cells.Held) → test_of ty.now relation left right ≡ (if result then int_test relation (cells.int_of left) (cells.int_of right) else same_test relation (is_same left right)) }
{
    match ty {
        Type_::Plain(Base::Int) => true,
        _ => false,
    }
}

/// Whether the relation is met, where two values are the same or not.
fn same_meets(rel: Rel, same: bool) -> bool
    ensures { result ≡ same_test rel same }
{
    match rel {
        Rel::Ne => !same,
        _ => same,
    }
}

/// The test of two values.
fn tested(test: &Test, left: Held, right: Held) -> bool
    ensures { result ≡ test_of test.now.ty test.now.rel (held_of left) (held_of right) }
{
    if is_int_type(&test.ty) {
        return ints_meet(test.rel, int_of(left), int_of(right));
    }
    same_meets(test.rel, are_same(left, right))
}

/// Whether a value is `true`.
fn is_truth(value: Held) -> bool
    ensures { result ≡ is_true (held_of value) }
{
    match value {
        Held::Bool(answer) => answer,
        _ => false,
    }
}

/// Does an operation that is the first of these items, or says which call it is.
#[inline(never)]
fn do_op<'p>(
    rows: &Rows<'p>,
    frame: &mut Frame<'p>,
    heap: &mut Heap<'p>,
    op: &'p Op,
    items: &'p [Item],
    rest: &'p [Item],
) -> Move<'p>
    requires open { 0 < length frame.old.stack.places.items }
    requires free { IsFree (length (outer frame.old.stack.places.items)) frame.old.stack.room (place.Rest items) }
    requires left { IsFree (length (outer frame.old.stack.places.items)) frame.old.stack.room (place.Rest rest) }
    requires first { items_code items.now ≡ Do op.now (items_code rest.now) }
    ensures moved { (frames : ℕ) → step_code (with_limits heap.old.most frames) (tables_of rows.now.program.now) (slots_of frame.old) (heap_of heap.old) (Do op.now (items_code rest.now)) (tasks_open (outer frame.old.stack.places.items))
        ≡ move_of result (tasks_open frame.new.stack.places.items) (slots_of frame.new) (heap_of heap.new) }
    ensures values { KeepsValues result → (slots_of frame.new ≡ slots_of frame.old) × (heap_of heap.new ≡ heap_of heap.old) }
    ensures back { IsBack result → tasks_open frame.new.stack.places.items ≡ code_then (items_code items.now) (tasks_open (outer frame.old.stack.places.items)) }
    ensures call { IsCall result frame.new.stack.room (tasks_open frame.new.stack.places.items) (code_then (items_code items.now) (tasks_open (outer frame.old.stack.places.items))) (length frame.new.stack.places.items) }
    ensures kept { record {
      method : frame.new.method ≡ frame.old.method;
      room : frame.new.stack.room ≡ frame.old.stack.room;
      most : heap.new.most ≡ heap.old.most;
    } }
{
    if let Some(call) = call_in(&op.kind) {
        frame.stack.close();
        return Move::Enter(call, op.span.from, items, rest);
    }
    match operate(rows, frame, heap, op) {
        Done::Done => {
            frame.stack.go_on(rest);
            Move::Went
        }
        Done::Wrapped => {
            frame.stack.go_on(rest);
            Move::Wrapped
        }
        Done::Printed(value) => {
            frame.stack.go_on(rest);
            Move::Printed(value)
        }
        Done::Stopped(outcome) => {
            frame.stack.go_on(items);
            Move::Stopped(outcome)
        }
    }
}

/// Begins a choice.
fn choose<'p>(
    frame: &mut Frame<'p>,
    cond: &'p Cond,
    first: &'p Block,
    second: &'p Block,
    rest: &'p [Item],
)
    requires { IsFreeFor (length frame.old.stack.places.items) frame.old.stack.room (If (cond_code cond.now) (block_code first.now) (block_code second.now) (items_code rest.now)) }
    ensures { record {
      tasks : tasks_open frame.new.stack.places.items ≡ Ask (cond_code cond.now) (code_then (block_code first.now) Empty) (code_then (block_code second.now) Empty) (code_then (items_code rest.now) (tasks_open frame.old.stack.places.items));
      slots : slots_of frame.new ≡ slots_of frame.old;
      method : frame.new.method ≡ frame.old.method;
      room : frame.new.stack.room ≡ frame.old.stack.room;
    } }
{
    frame.stack.choose(cond, first.items.as_slice(), second.items.as_slice(), rest);
}

/// Begins a loop.
fn begin_loop<'p>(
    frame: &mut Frame<'p>,
    test_first: bool,
    cond: &'p Cond,
    body: &'p Block,
    next: &'p Block,
    rest: &'p [Item],
)
    requires { IsFreeFor (length frame.old.stack.places.items) frame.old.stack.room (Loop test_first (cond_code cond.now) (block_code body.now) (block_code next.now) 0 0 (items_code rest.now)) }
    ensures { record {
      tasks : tasks_open frame.new.stack.places.items ≡ loop_tasks test_first (cond_code cond.now) (block_code body.now) (block_code next.now) (code_then (items_code rest.now) (tasks_open frame.old.stack.places.items));
      slots : slots_of frame.new ≡ slots_of frame.old;
      method : frame.new.method ≡ frame.old.method;
      room : frame.new.stack.room ≡ frame.old.stack.room;
    } }
{
    let turn = Turn {
        cond,
        body: body.items.as_slice(),
        next: next.items.as_slice(),
    };
    frame.stack.begin_loop(test_first, turn, rest);
}

/// Does the first of these items, behind which the rest stands.
fn run_item<'p>(
    rows: &Rows<'p>,
    frame: &mut Frame<'p>,
    heap: &mut Heap<'p>,
    item: &'p Item,
    items: &'p [Item],
    rest: &'p [Item],
) -> Move<'p>
    requires open { 0 < length frame.old.stack.places.items }
    requires free { IsFree (length (outer frame.old.stack.places.items)) frame.old.stack.room (place.Rest items) }
    requires first { items_code items.now ≡ item_code item.now (items_code rest.now) }
    ensures moved { (frames : ℕ) → step_tasks (with_limits heap.old.most frames) (tables_of rows.now.program.now) (slots_of frame.old) (heap_of heap.old) (code_then (items_code items.now) (tasks_open (outer frame.old.stack.places.items)))
        ≡ move_of result (tasks_open frame.new.stack.places.items) (slots_of frame.new) (heap_of heap.new) }
    ensures values { KeepsValues result → (slots_of frame.new ≡ slots_of frame.old) × (heap_of heap.new ≡ heap_of heap.old) }
    ensures back { IsBack result → tasks_open frame.new.stack.places.items ≡ code_then (items_code items.now) (tasks_open (outer frame.old.stack.places.items)) }
    ensures call { IsCall result frame.new.stack.room (tasks_open frame.new.stack.places.items) (code_then (items_code items.now) (tasks_open (outer frame.old.stack.places.items))) (length frame.new.stack.places.items) }
    ensures kept { record {
      method : frame.new.method ≡ frame.old.method;
      room : frame.new.stack.room ≡ frame.old.stack.room;
      most : heap.new.most ≡ heap.old.most;
    } }
{
    match item {
        Item::Do(op) => do_op(rows, frame, heap, op, items, rest),
        Item::If(cond, first, second) => {
            frame.stack.close();
            choose(frame, cond, first, second, rest);
            Move::Went
        }
        Item::Break => {
            frame.stack.close();
            frame.stack.leave_loop();
            Move::Went
        }
        Item::Continue => {
            frame.stack.close();
            frame.stack.turn_on();
            Move::Went
        }
        Item::Return(slot, _) => {
            frame.stack.go_on(items);
            Move::Left(*slot)
        }
        Item::Throw(name, span) => {
            frame.stack.go_on(items);
            Move::Stopped(Outcome::Thrown(name, span.from))
        }
        Item::Loop {
            test_first,
            cond,
            body,
            next,
            ..
        } => {
            frame.stack.close();
            begin_loop(frame, *test_first, cond, body, next, rest);
            Move::Went
        }
    }
}

/// Does the first of these items.
fn run_items<'p>(
    rows: &Rows<'p>,
    frame: &mut Frame<'p>,
    heap: &mut Heap<'p>,
    items: &'p [Item],
) -> Move<'p>
    requires open { 0 < length frame.old.stack.places.items }
    requires free { IsFree (length (outer frame.old.stack.places.items)) frame.old.stack.room (place.Rest items) }
    requires some { 0 < length items.now }
    ensures moved { (frames : ℕ) → step_tasks (with_limits heap.old.most frames) (tables_of rows.now.program.now) (slots_of frame.old) (heap_of heap.old) (code_then (items_code items.now) (tasks_open (outer frame.old.stack.places.items)))
        ≡ move_of result (tasks_open frame.new.stack.places.items) (slots_of frame.new) (heap_of heap.new) }
    ensures values { KeepsValues result → (slots_of frame.new ≡ slots_of frame.old) × (heap_of heap.new ≡ heap_of heap.old) }
    ensures back { IsBack result → tasks_open frame.new.stack.places.items ≡ code_then (items_code items.now) (tasks_open (outer frame.old.stack.places.items)) }
    ensures call { IsCall result frame.new.stack.room (tasks_open frame.new.stack.places.items) (code_then (items_code items.now) (tasks_open (outer frame.old.stack.places.items))) (length frame.new.stack.places.items) }
    ensures kept { record {
      method : frame.new.method ≡ frame.old.method;
      room : frame.new.stack.room ≡ frame.old.stack.room;
      most : heap.new.most ≡ heap.old.most;
    } }
{
    match items {
        [item, rest @ ..] => run_item(rows, frame, heap, item, items, rest),
        [] => unreachable!(),
    }
}

/// Does a task that is taken off the open places. What is left of a block isn't done yet, but is the answer.
#[inline(always)]
fn do_task<'p>(frame: &mut Frame<'p>, task: Place<'p>) -> Option<&'p [Item]>
    requires task { IsTask task }
    requires free { IsFree (length (around task frame.old.stack.places.items)) frame.old.stack.room task }
    ensures { record {
      done : IfNone result ((limits : model.Limits) (tables : Tables) (heap : Heap_) → step_tasks limits tables (slots_of frame.old) heap (tasks_of (task.entry ∷ reverse (around task.entry frame.old.stack.places.items)))
          ≡ model.Go (tasks_open frame.new.stack.places.items) (slots_of frame.new) heap);
      items : IfSome result (λ items. (task.entry ≡ place.Rest items) × (frame.new ≡ frame.old));
      method : frame.new.method ≡ frame.old.method;
      room : frame.new.stack.room ≡ frame.old.stack.room;
    } }
{
    match task {
        Place::Rest(items) => Some(items),
        Place::Ask(cond) => {
            frame.stack.ask(cond);
            None
        }
        Place::Decide(test) => {
            let answer = tested(test, frame.value(test.left), frame.value(test.right));
            frame.stack.decided(answer);
            None
        }
        Place::DecideTruth(slot) => {
            let answer = is_truth(frame.value(slot));
            frame.stack.decided(answer);
            None
        }
        Place::Head(turn) => {
            frame.stack.begin_turn(turn);
            None
        }
        Place::Again(turn) => {
            frame.stack.come_back(turn);
            None
        }
        Place::Out => None,
        _ => unreachable!(),
    }
}

/// Does the innermost task of the frame.
#[inline(always)]
pub fn advance<'p>(rows: &Rows<'p>, frame: &mut Frame<'p>, heap: &mut Heap<'p>) -> Move<'p>
    ensures moved { (frames : ℕ) → step_tasks (with_limits heap.old.most frames) (tables_of rows.now.program.now) (slots_of frame.old) (heap_of heap.old) (tasks_open frame.old.stack.places.items)
        ≡ move_of result (tasks_open frame.new.stack.places.items) (slots_of frame.new) (heap_of heap.new) }
    ensures values { KeepsValues result → (slots_of frame.new ≡ slots_of frame.old) × (heap_of heap.new ≡ heap_of heap.old) }
    ensures back { IsBack result → tasks_open frame.new.stack.places.items ≡ tasks_open frame.old.stack.places.items }
    ensures call { IsCall result frame.new.stack.room (tasks_open frame.new.stack.places.items) (tasks_open frame.old.stack.places.items) (length frame.new.stack.places.items) }
    ensures method { frame.new.method ≡ frame.old.method }
    ensures room { frame.new.stack.room ≡ frame.old.stack.room }
    ensures most { heap.new.most ≡ heap.old.most }
{
    match frame.stack.next() {
        None => Move::Left(None),
        Some(task) => match do_task(frame, task) {
            Some(items) => run_items(rows, frame, heap, items),
            None => Move::Went,
        },
    }
}
