//! How many loops a body has.

ghost use Rattle.std.specs.Prelude.{◌≡◌, ◌+◌, OnOk, IfOk, length};
ghost use Rattle.ix_core.specs.Code.{block_code, item_code};
ghost use Rattle.ix_core.specs.Formed.{loop_numbers};
ghost use Rattle.ix_cert.specs.Adding.{AddsLoops};
ghost use Rattle.ix_cert.specs.Labellings.{loops_of};

use ix_core::{Block, Item, Method};
use std::alloc::AllocError;

/// Adds the loops of a block. A number that no memory has room for counts as want of memory.
#[cycle(body)]
fn add_block(count: &mut usize, block: &Block) -> Result<(), AllocError>
    ensures { OnOk result (count.new ≡ count.old + length (loop_numbers (block_code block.now))) }
{
    for item in block.items.as_slice() {
        add_item(count, item)?;
    }
    Ok(())
}

#[cycle(body)]
fn add_item(count: &mut usize, item: &Item) -> Result<(), AllocError>
    ensures { OnOk result (AddsLoops (item_code item.now) count.old count.new) }
{
    match item {
        Item::If(_, first, second) => {
            add_block(count, first)?;
            add_block(count, second)
        }
        Item::Loop { body, .. } => {
            add_one(count)?;
            add_block(count, body)
        }
        Item::Do(_) | Item::Break | Item::Continue | Item::Return(_, _) | Item::Throw(_, _) => Ok(
            (),
        ),
    }
}

fn add_one(count: &mut usize) -> Result<(), AllocError>
    ensures { OnOk result (count.new ≡ count.old + 1) }
{
    *count = count.checked_add(1).ok_or(AllocError)?;
    Ok(())
}

/// How many loops a method has.
pub(crate) fn loops_of(method: &Method) -> Result<usize, AllocError>
    ensures { IfOk result (λ count. count ≡ loops_of method.now) }
{
    let mut count = 0;
    add_block(&mut count, &method.body).and(Ok(count))
}
