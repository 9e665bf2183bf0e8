//! How much room the code of a program needs.
ghost use Rattle.std.specs.Prelude.{◌≡◌, ◌+◌, ◌<◌, ◌^◌, max, length, IfOk};
ghost use Rattle.ix_core.specs.Code.{cond_code, item_code, items_code, End};
ghost use Rattle.ix_machine_state.specs.Room.{counted, code_above, condition_above, code_values, condition_values, op_values};

use ix_core::{Cond, Item, OpKind};
use std::alloc::AllocError;

/// How many open places there may be in a frame, and how many values in its slots.
#[derive(Clone, Copy)]
pub struct Room {
    pub places: usize,
    pub values: usize,
}

/// How many places there may be above that of some code, and how many values its calls pass at most.
#[derive(Clone, Copy)]
pub struct Needs {
    pub above: usize,
    pub values: usize,
}

/// What the one and the other need, one after the other.
fn larger(first: Needs, second: Needs) -> Needs
    ensures { result ≡ record { above = max first.above second.above; values = max first.values second.values } }
{
    Needs {
        above: first.above.max(second.above),
        values: first.values.max(second.values),
    }
}

/// What these need that many places higher, as far as it can be counted.
fn higher(needs: Needs, more: usize) -> Needs
    ensures { result ≡ record { above = counted (more + needs.above); values = needs.values } }
{
    Needs {
        above: more.saturating_add(needs.above),
        values: needs.values,
    }
}

/// How many values an operation passes to a method, as far as it can be counted.
fn op_passes(kind: &OpKind) -> usize
    ensures { result ≡ counted (op_values kind.now) }
{
    match kind {
        OpKind::NewObject(call)
        | OpKind::StaticCall(call)
        | OpKind::InstanceCall(call)
        | OpKind::SuperCall(call) => call.args.len().saturating_add(1),
        _ => 0,
    }
}

/// What the code of items needs. The one error is want of memory: more than can be counted is more than there is memory for.
pub fn items_needs(items: &[Item]) -> Result<Needs, AllocError>
    ensures { record {
      above : IfOk result (λ needs. needs.above ≡ code_above (items_code items.now));
      values : IfOk result (λ needs. needs.values ≡ code_values (items_code items.now));
      counted : IfOk result (λ needs. needs.above + 1 < 2 ^ 64);
    } }
{
    let needs = block_needs(items);
    if needs.above == usize::MAX || needs.values == usize::MAX {
        return Err(AllocError);
    }
    Ok(needs)
}

/// What a block needs, as far as it can be counted.
#[cycle(needs)]
fn block_needs(items: &[Item]) -> Needs
    ensures { record {
      above : result.above ≡ counted (code_above (items_code items.now));
      values : result.values ≡ counted (code_values (items_code items.now));
    } }
{
    let mut needs = Needs {
        above: 0,
        values: 0,
    };
    for item in items {
        needs = larger(needs, item_needs(item));
    }
    needs
}

/// What an item needs, as far as it can be counted.
#[cycle(needs)]
fn item_needs(item: &Item) -> Needs
    ensures above { result.above ≡ counted (code_above (item_code item.now End)) }
    ensures values { result.values ≡ counted (code_values (item_code item.now End)) }
{
    match item {
        Item::Do(op) => Needs {
            above: 0,
            values: op_passes(&op.kind),
        },
        Item::If(cond, first, second) => {
            let asked = cond_needs(cond);
            let first = block_needs(first.items.as_slice());
            let second = block_needs(second.items.as_slice());
            larger(higher(asked, 2), higher(larger(first, second), 1))
        }
        Item::Loop {
            cond,
            body,
            next,
            ..
        } => {
            let asked = cond_needs(cond);
            let body = block_needs(body.items.as_slice());
            let next = block_needs(next.items.as_slice());
            higher(larger(asked, larger(body, next)), 3)
        }
        Item::Break | Item::Continue | Item::Return(_, _) | Item::Throw(_, _) => Needs {
            above: 0,
            values: 0,
        },
    }
}

/// What a condition needs, as far as it can be counted.
#[cycle(needs)]
fn cond_needs(cond: &Cond) -> Needs
    ensures above { result.above ≡ counted (condition_above (cond_code cond.now)) }
    ensures values { result.values ≡ counted (condition_values (cond_code cond.now)) }
{
    match cond {
        Cond::Known(_) => Needs {
            above: 0,
            values: 0,
        },
        Cond::Compare(block, _) => higher(block_needs(block.items.as_slice()), 1),
        Cond::Truth(block, _) => higher(block_needs(block.items.as_slice()), 1),
        Cond::Both(first, second) => {
            let first = cond_needs(first.get());
            let second = cond_needs(second.get());
            larger(higher(first, 1), second)
        }
        Cond::Either(first, second) => {
            let first = cond_needs(first.get());
            let second = cond_needs(second.get());
            larger(higher(first, 1), second)
        }
        Cond::Opposite(asked) => higher(cond_needs(asked.get()), 1),
    }
}
