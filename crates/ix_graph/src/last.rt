//! The operation that a block does last.

ghost use Rattle.std.specs.Prelude.{◌≡◌, None, option_map};
ghost use Rattle.ix_core.specs.Code.{End, block_code, item_code};
ghost use Rattle.ix_core.specs.Posts.{last_done};

use ix_core::{Block, Item, Op};

/// The operation that an item is, if it is one.
fn op_of(item: &Item) -> Option<&Op>
    ensures { option_map (λ op. op.now) result ≡ last_done None (item_code item.now End) }
{
    match item {
        Item::Do(op) => Some(op),
        _ => None,
    }
}

/// The operation that stands directly before what follows the block, where one does.
pub fn last_op(block: &Block) -> Option<&Op>
    ensures { option_map (λ op. op.now) result ≡ last_done None (block_code block.now) }
{
    match block.items.as_slice().last() {
        Some(item) => op_of(item),
        None => None,
    }
}
