//! How many loops a body has, and how many operations its plain form has.
ghost use Rattle.std.specs.Prelude.{◌≡◌, map};
ghost use Rattle.ix_plain.specs.Counts as spec;

use ix_core::{Block, Cond, Item};
use ix_tree::{Stmt, StmtKind};

/// One more, up to the greatest number that is counted.
pub fn one_more(count: u32) -> u32
    ensures { result ≡ spec.one count }
{
    if count < u32::MAX { count + 1 } else { count }
}

/// So many loops, and those of a statement.
#[cycle(loops)]
fn loops_in(stmt: &Stmt, count: u32) -> u32
    ensures { result ≡ spec.loops_in stmt.now count }
{
    match &stmt.kind {
        StmtKind::Block(statements) => loops(statements.as_slice(), count),
        StmtKind::If(_, first, None) => loops_in(first.get(), count),
        StmtKind::If(_, first, Some(second)) => {
            let count = loops_in(first.get(), count);
            loops_in(second.get(), count)
        }
        StmtKind::While(_, turn) | StmtKind::Do(turn, _) => loops_in(turn.get(), one_more(count)),
        StmtKind::For(first, _, _, turn) => {
            let count = loops(first.as_slice(), count);
            loops_in(turn.get(), one_more(count))
        }
        StmtKind::Empty
        | StmtKind::Local(_)
        | StmtKind::Break
        | StmtKind::Continue
        | StmtKind::Return(_)
        | StmtKind::Throw(_)
        | StmtKind::Print(_)
        | StmtKind::Run(_) => count,
    }
}

/// So many loops, and those of statements.
#[cycle(loops)]
pub fn loops(statements: &[Stmt], count: u32) -> u32
    ensures { result ≡ spec.loops statements.now count }
{
    let mut count = count;
    for stmt in statements {
        count = loops_in(stmt, count);
    }
    count
}

/// So many operations, and those of a block.
#[cycle(operations)]
pub fn count_operations(block: &Block, count: u32) -> u32
    ensures { result ≡ spec.operations block.now count }
{
    let mut count = count;
    for item in block.items.as_slice() {
        count = count_item(item, count);
    }
    count
}

#[cycle(operations)]
fn count_item(item: &Item, count: u32) -> u32
    ensures { result ≡ spec.operations_of_item item.now count }
{
    match item {
        Item::Do(_) => one_more(count),
        Item::If(asked, first, second) => {
            let count = count_cond(asked, count);
            let count = count_operations(first, count);
            count_operations(second, count)
        }
        Item::Loop {
            test_first: _,
            cond,
            body,
            next,
            number: _,
            scope: _,
        } => {
            let count = count_cond(cond, count);
            let count = count_operations(body, count);
            count_operations(next, count)
        }
        Item::Break | Item::Continue | Item::Return(_, _) | Item::Throw(_, _) => count,
    }
}

#[cycle(operations)]
fn count_cond(cond: &Cond, count: u32) -> u32
    ensures { result ≡ spec.operations_of_cond cond.now count }
{
    match cond {
        Cond::Known(_) => count,
        Cond::Compare(block, _) | Cond::Truth(block, _) => count_operations(block, count),
        Cond::Both(first, second) | Cond::Either(first, second) => {
            let count = count_cond(first.get(), count);
            count_cond(second.get(), count)
        }
        Cond::Opposite(asked) => count_cond(asked.get(), count),
    }
}
