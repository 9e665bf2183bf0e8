//! Which operation was done last, and which answer it writes out.

ghost use Rattle.std.specs.Prelude.{◌≡◌, None, option_map};
ghost use Rattle.ix_core.specs.Code.{End, block_code, item_code};
ghost use Rattle.ix_core.specs.Posts as posts;

use ix_core::{Block, Item, Literal, Op, OpKind};

/// The operation that an item is, if it is one.
pub(crate) fn op_of(item: &Item) -> Option<&Op>
    ensures { option_map (λ op. op.now) result ≡ posts.last_done None (item_code item.now End) }
{
    match item {
        Item::Do(op) => Some(op),
        _ => None,
    }
}

/// The operation that stands directly before what follows the block, where one does.
pub(crate) fn last_op(block: &Block) -> Option<&Op>
    ensures { option_map (λ op. op.now) result ≡ posts.last_done None (block_code block.now) }
{
    match block.items.as_slice().last() {
        Some(item) => op_of(item),
        None => None,
    }
}

/// The boolean literal that an operation writes to a slot.
fn answer_of(kind: &OpKind, slot: u32) -> Option<bool>
    ensures { result ≡ posts.answer_of kind.now slot }
{
    match kind {
        OpKind::Const(target, Literal::Bool(answer)) if *target == slot => Some(*answer),
        _ => None,
    }
}

/// The answer that a `return` of this slot writes out, by the operation before it.
pub(crate) fn written_answer(last: Option<&Op>, value: Option<u32>) -> Option<bool>
    ensures { result ≡ posts.written_answer (option_map (λ op. op.now) last.entry) value }
{
    match (last, value) {
        (Some(op), Some(slot)) => answer_of(&op.kind, slot),
        _ => None,
    }
}
