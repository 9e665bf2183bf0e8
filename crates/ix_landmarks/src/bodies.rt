//! The numbers that a body speaks of.

ghost use Rattle.std.specs.Prelude.{◌≡◌, ◌++◌, OnOk};
ghost use Rattle.ix_core.specs.Code.{block_code, item_code, cond_code};
ghost use Rattle.ix_facts.specs.MethodLandmarks.{code_numbers, condition_numbers};
ghost use Rattle.ix_landmarks.specs.Items.{AddsItem};

use crate::numbers::push_operation;
use ix_core::{Block, Cond, Item, Program};
use std::alloc::AllocError;

/// Those of a block, conditions included.
#[cycle(body)]
pub(crate) fn push_block(
    out: &mut Vec<i32>,
    program: &Program,
    block: &Block,
) -> Result<(), AllocError>
    ensures { OnOk result (out.new.items ≡ out.old.items ++ code_numbers program.now (block_code block.now)) }
{
    for item in block.items.as_slice() {
        push_item(out, program, item)?;
    }
    Ok(())
}

#[cycle(body)]
fn push_item(out: &mut Vec<i32>, program: &Program, item: &Item) -> Result<(), AllocError>
    ensures { OnOk result (AddsItem program.now (item_code item.now) out.old.items out.new.items) }
{
    match item {
        Item::Do(op) => push_operation(out, program, &op.kind),
        Item::If(cond, first, second)
        | Item::Loop {
            cond,
            body: first,
            next: second,
            ..
        } => {
            push_condition(out, program, cond)?;
            push_block(out, program, first)?;
            push_block(out, program, second)
        }
        Item::Break | Item::Continue | Item::Return(_, _) | Item::Throw(_, _) => Ok(()),
    }
}

#[cycle(body)]
fn push_condition(out: &mut Vec<i32>, program: &Program, cond: &Cond) -> Result<(), AllocError>
    ensures { OnOk result (out.new.items ≡ out.old.items ++ condition_numbers program.now (cond_code cond.now)) }
{
    match cond {
        Cond::Known(_) => Ok(()),
        Cond::Compare(block, _) | Cond::Truth(block, _) => push_block(out, program, block),
        Cond::Both(first, second) | Cond::Either(first, second) => {
            push_condition(out, program, first.get())?;
            push_condition(out, program, second.get())
        }
        Cond::Opposite(asked) => push_condition(out, program, asked.get()),
    }
}
