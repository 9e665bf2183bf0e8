//! The errors that the text of a body gives.

ghost use Rattle.std.specs.Prelude.{OnOk};
ghost use Rattle.ix_core.specs.Code.{block_code, cond_code, item_code};
ghost use Rattle.ix_sign.specs.RuleErrors.{OpText};
ghost use Rattle.ix_verify.specs.Walking as spec;

use ix_core::{Block, Cond, Item, Method, Op, Program};
use ix_errors::{
    Ranked, push_assigned_parameter, push_effect_error, push_escapes_in, push_escapes_of,
};
use std::alloc::AllocError;

fn push_of_op(
    out: &mut Vec<Ranked>,
    program: &Program,
    within: &Method,
    done: &Op,
) -> Result<(), AllocError>
    ensures { OnOk result (spec.AddsTo (OpText program.now within.now done.now) out.old.items out.new.items) }
{
    push_effect_error(out, program, within, done)?;
    push_assigned_parameter(out, within, done)?;
    push_escapes_of(out, within, done)
}

/// Those of a block, conditions included.
#[cycle(text)]
pub(crate) fn push_of_block(
    out: &mut Vec<Ranked>,
    program: &Program,
    within: &Method,
    block: &Block,
) -> Result<(), AllocError>
    ensures { OnOk result (spec.AddsTo (spec.SomewhereIn program.now within.now (block_code block.now)) out.old.items out.new.items) }
{
    for item in block.items.as_slice() {
        push_of_item(out, program, within, item)?;
    }
    Ok(())
}

#[cycle(text)]
fn push_of_item(
    out: &mut Vec<Ranked>,
    program: &Program,
    within: &Method,
    item: &Item,
) -> Result<(), AllocError>
    ensures { OnOk result (spec.AddsItem program.now within.now (item_code item.now) out.old.items out.new.items) }
{
    match item {
        Item::Do(op) => push_of_op(out, program, within, op),
        Item::If(cond, first, second) => {
            push_of_cond(out, program, within, cond)?;
            push_of_block(out, program, within, first)?;
            push_of_block(out, program, within, second)
        }
        Item::Loop {
            cond,
            body,
            next,
            ..
        } => {
            push_of_cond(out, program, within, cond)?;
            push_of_block(out, program, within, body)?;
            push_of_block(out, program, within, next)
        }
        Item::Break => Ok(()),
        Item::Continue => Ok(()),
        Item::Return(_, _) => Ok(()),
        Item::Throw(_, _) => Ok(()),
    }
}

#[cycle(text)]
fn push_of_cond(
    out: &mut Vec<Ranked>,
    program: &Program,
    within: &Method,
    cond: &Cond,
) -> Result<(), AllocError>
    ensures { OnOk result (spec.AddsTo (spec.SomewhereOf program.now within.now (cond_code cond.now)) out.old.items out.new.items) }
{
    match cond {
        Cond::Known(_) => Ok(()),
        Cond::Compare(block, test) => {
            push_of_block(out, program, within, block)?;
            push_escapes_in(out, within, test)
        }
        Cond::Truth(block, _) => push_of_block(out, program, within, block),
        Cond::Both(first, second) => {
            push_of_cond(out, program, within, first.get())?;
            push_of_cond(out, program, within, second.get())
        }
        Cond::Either(first, second) => {
            push_of_cond(out, program, within, first.get())?;
            push_of_cond(out, program, within, second.get())
        }
        Cond::Opposite(asked) => push_of_cond(out, program, within, asked.get()),
    }
}
