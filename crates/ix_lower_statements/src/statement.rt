//! Statements.
ghost use Rattle.std.specs.Prelude.{◌≡◌, Ok, Err, map, IfOk, OnOk, IsErrOf};
ghost use Rattle.ix_meaning.specs.declared.note.Which.{Which};
ghost use Rattle.ix_plain.specs.declared.made.Stop.TheVariants as stop;
ghost use Rattle.ix_plain.specs.Parts.{block, empty};
ghost use Rattle.ix_plain.specs.Statements as spec;
ghost use Rattle.ix_lower_expressions.specs.Shown.{shown_site};
ghost use Rattle.ix_lower_statements.specs.declared.statement.Form.TheVariants as form;
ghost use Rattle.ix_lower_statements.specs.Forms.{form_of};

use crate::declare::declarations;
use crate::full::{copied_text, evaluate, push_last, return_answer, run, run_all, test, test_if};
use ix_core::{Block, Item, OpKind};
use ix_lower_expressions::{Site, done, empty};
use ix_meaning::Which;
use ix_plain::{Body, Made, Stop};
use ix_text::{Boxed, List, Span};
use ix_tree::{Expr, Stmt, StmtKind};
use std::alloc::Global;
use std::mem;

/// How many loops a method may have.
pub const MOST_LOOPS: u32 = 128;

/// By which function a form of statement is made.
#[derive(Clone, Copy)]
pub enum Form {
    While,
    Do,
    For,
    /// All others.
    Plain,
}

/// Begins a loop.
fn enter_loop(body: &mut Body) -> Result<(), Stop>
    ensures { record {
      limit : (which : Which) → IsErrOf result (stop.Limit which) → spec.in_loop body.old ≡ Err which;
      body : OnOk result (spec.in_loop body.old ≡ Ok body.new);
    } }
{
    if body.loops >= MOST_LOOPS {
        return Err(Stop::Limit(Which::Loops));
    }
    body.loops += 1;
    Ok(())
}

/// Begins a block of its own; answers what was made around it.
fn begin(alloc: Global, body: &mut Body) -> Made
    ensures { record {
      around : result ≡ body.old.made;
      body : body.new ≡ record body.old { made = empty body.old.made.free };
    } }
{
    let made = empty(alloc, body.made.free);
    mem::replace(&mut body.made, made)
}

/// Ends it.
fn end_block(body: &mut Body, around: Made) -> Block
    ensures { record {
      block : result ≡ block body.old.made;
      body : body.new ≡ record body.old { made = around };
    } }
{
    let made = mem::replace(&mut body.made, around);
    Block { items: made.items }
}

fn no_block(alloc: Global) -> Block
    ensures { result ≡ spec.no_block }
{
    Block {
        items: List::new(alloc),
    }
}

/// The update of a `for`, in a block of its own.
fn update_block(
    alloc: Global,
    site: &Site<'_>,
    exprs: &[Expr],
    body: &mut Body,
) -> Result<Block, Stop>
    ensures { record {
      limit : (which : Which) → IsErrOf result (stop.Limit which) → spec.inside (spec.all_ran exprs.now (shown_site site.now)) body.old ≡ Err which;
      body : IfOk result (λ next. spec.inside (spec.all_ran exprs.now (shown_site site.now)) body.old ≡ Ok (record { block = next; body = body.new }));
    } }
{
    let around = begin(alloc, body);
    run_all(alloc, site, exprs, body)?;
    Ok(end_block(body, around))
}

fn returned(
    alloc: Global,
    site: &Site<'_>,
    value: &Option<Expr>,
    span: Span,
    body: &mut Body,
) -> Result<(), Stop>
    ensures { record {
      limit : (which : Which) → IsErrOf result (stop.Limit which) → spec.returned value.now span (shown_site site.now) body.old ≡ Err which;
      body : OnOk result (spec.returned value.now span (shown_site site.now) body.old ≡ Ok body.new);
    } }
{
    match value {
        None => push_last(body, Item::Return(None, span)),
        Some(expr) => {
            if site.answers {
                return_answer(alloc, site, expr, body)
            } else {
                let slot = evaluate(alloc, site, expr, body)?;
                push_last(body, Item::Return(Some(slot), expr.span))
            }
        }
    }
}

fn print(alloc: Global, site: &Site<'_>, value: &Expr, body: &mut Body) -> Result<(), Stop>
    ensures { record {
      limit : (which : Which) → IsErrOf result (stop.Limit which) → spec.printed value.now (shown_site site.now) body.old ≡ Err which;
      body : OnOk result (spec.printed value.now (shown_site site.now) body.old ≡ Ok body.new);
    } }
{
    let slot = evaluate(alloc, site, value, body)?;
    push_last(body, done(alloc, OpKind::Print(slot), value.span))
}

fn form_of(kind: &StmtKind) -> Form
    ensures { result ≡ form_of kind.now }
{
    match kind {
        StmtKind::While(_, _) => Form::While,
        StmtKind::Do(_, _) => Form::Do,
        StmtKind::For(_, _, _, _) => Form::For,
        _ => Form::Plain,
    }
}

/// Adds a statement to a body whose block ends at that place.
#[cycle(statements)]
fn statement(
    alloc: Global,
    site: &Site<'_>,
    stmt: &Stmt,
    end: u32,
    body: &mut Body,
) -> Result<(), Stop>
    ensures { record {
      limit : (which : Which) → IsErrOf result (stop.Limit which) → (spec.statement stmt.now).run (shown_site site.now) end body.old ≡ Err which;
      body : OnOk result ((spec.statement stmt.now).run (shown_site site.now) end body.old ≡ Ok body.new);
    } }
{
    match form_of(&stmt.kind) {
        Form::While => while_loop(alloc, site, stmt, end, body),
        Form::Do => do_loop(alloc, site, stmt, end, body),
        Form::For => for_loop(alloc, site, stmt, end, body),
        Form::Plain => plain(alloc, site, stmt, end, body),
    }
}

/// A statement that is no loop.
#[cycle(statements)]
fn plain(alloc: Global, site: &Site<'_>, stmt: &Stmt, end: u32, body: &mut Body) -> Result<(), Stop>
    requires { form_of stmt.now.kind ≡ form.Plain }
    ensures { record {
      limit : (which : Which) → IsErrOf result (stop.Limit which) → (spec.statement stmt.now).run (shown_site site.now) end body.old ≡ Err which;
      body : OnOk result ((spec.statement stmt.now).run (shown_site site.now) end body.old ≡ Ok body.new);
    } }
{
    match &stmt.kind {
        StmtKind::Block(statements) => {
            let top = body.made.free;
            each(alloc, site, statements.as_slice(), stmt.span.to, body)?;
            body.made.free = top;
            Ok(())
        }
        StmtKind::Empty => Ok(()),
        StmtKind::Local(decls) => declarations(alloc, site, decls.as_slice(), end, body),
        StmtKind::If(condition, first, second) => {
            let asked = test(alloc, site, condition, body)?;
            let holds = branch(alloc, site, first.get(), body)?;
            let fails = match second {
                Some(second) => branch(alloc, site, second.get(), body)?,
                None => no_block(alloc),
            };
            push_last(body, Item::If(asked, holds, fails))
        }
        StmtKind::Break => push_last(body, Item::Break),
        StmtKind::Continue => push_last(body, Item::Continue),
        StmtKind::Return(value) => returned(alloc, site, value, stmt.span, body),
        StmtKind::Throw(name) => {
            let text = copied_text(alloc, &name.text)?;
            push_last(body, Item::Throw(text, stmt.span))
        }
        StmtKind::Print(value) => print(alloc, site, value, body),
        StmtKind::Run(expr) => run(alloc, site, expr, body),
        _ => unreachable!(),
    }
}

/// `while`: the condition before each turn.
#[cycle(statements)]
fn while_loop(
    alloc: Global,
    site: &Site<'_>,
    stmt: &Stmt,
    end: u32,
    body: &mut Body,
) -> Result<(), Stop>
    requires { form_of stmt.now.kind ≡ form.While }
    ensures { record {
      limit : (which : Which) → IsErrOf result (stop.Limit which) → (spec.statement stmt.now).run (shown_site site.now) end body.old ≡ Err which;
      body : OnOk result ((spec.statement stmt.now).run (shown_site site.now) end body.old ≡ Ok body.new);
    } }
{
    match &stmt.kind {
        StmtKind::While(condition, turn) => {
            let number = body.loops;
            let scope = body.made.free;
            enter_loop(body)?;
            let cond = test(alloc, site, condition, body)?;
            let turn = branch(alloc, site, turn.get(), body)?;
            let item = Item::Loop {
                test_first: true,
                cond,
                body: turn,
                next: no_block(alloc),
                number,
                scope,
            };
            push_last(body, item)
        }
        _ => unreachable!(),
    }
}

/// `do`: the condition behind each turn.
#[cycle(statements)]
fn do_loop(
    alloc: Global,
    site: &Site<'_>,
    stmt: &Stmt,
    end: u32,
    body: &mut Body,
) -> Result<(), Stop>
    requires { form_of stmt.now.kind ≡ form.Do }
    ensures { record {
      limit : (which : Which) → IsErrOf result (stop.Limit which) → (spec.statement stmt.now).run (shown_site site.now) end body.old ≡ Err which;
      body : OnOk result ((spec.statement stmt.now).run (shown_site site.now) end body.old ≡ Ok body.new);
    } }
{
    match &stmt.kind {
        StmtKind::Do(turn, condition) => {
            let number = body.loops;
            let scope = body.made.free;
            enter_loop(body)?;
            let turn = branch(alloc, site, turn.get(), body)?;
            let cond = test(alloc, site, condition, body)?;
            let item = Item::Loop {
                test_first: false,
                cond,
                body: turn,
                next: no_block(alloc),
                number,
                scope,
            };
            push_last(body, item)
        }
        _ => unreachable!(),
    }
}

/// `for`: its first part, and a loop whose update runs before the next turn.
#[cycle(statements)]
fn for_loop(
    alloc: Global,
    site: &Site<'_>,
    stmt: &Stmt,
    end: u32,
    body: &mut Body,
) -> Result<(), Stop>
    requires { form_of stmt.now.kind ≡ form.For }
    ensures { record {
      limit : (which : Which) → IsErrOf result (stop.Limit which) → (spec.statement stmt.now).run (shown_site site.now) end body.old ≡ Err which;
      body : OnOk result ((spec.statement stmt.now).run (shown_site site.now) end body.old ≡ Ok body.new);
    } }
{
    match &stmt.kind {
        StmtKind::For(first, condition, update, turn) => {
            let top = body.made.free;
            each(alloc, site, first.as_slice(), stmt.span.to, body)?;
            let number = body.loops;
            let scope = body.made.free;
            enter_loop(body)?;
            let cond = test_if(alloc, site, condition, body)?;
            let turn = branch(alloc, site, turn.get(), body)?;
            let next = update_block(alloc, site, update.as_slice(), body)?;
            body.made.free = top;
            let item = Item::Loop {
                test_first: true,
                cond,
                body: turn,
                next,
                number,
                scope,
            };
            push_last(body, item)
        }
        _ => unreachable!(),
    }
}

/// Statements, one after the other.
#[cycle(statements)]
pub fn each(
    alloc: Global,
    site: &Site<'_>,
    statements: &[Stmt],
    end: u32,
    body: &mut Body,
) -> Result<(), Stop>
    ensures { record {
      limit : (which : Which) → IsErrOf result (stop.Limit which) → spec.each (map spec.statement statements.now) (shown_site site.now) end body.old ≡ Err which;
      body : OnOk result (spec.each (map spec.statement statements.now) (shown_site site.now) end body.old ≡ Ok body.new);
    } }
{
    for stmt in statements {
        statement(alloc, site, stmt, end, body)?;
    }
    Ok(())
}

/// A statement that is a part of another, in a block of its own.
#[cycle(statements)]
fn branch(alloc: Global, site: &Site<'_>, stmt: &Stmt, body: &mut Body) -> Result<Block, Stop>
    ensures { record {
      limit : (which : Which) → IsErrOf result (stop.Limit which) → spec.branch (spec.statement stmt.now) (shown_site site.now) body.old ≡ Err which;
      body : IfOk result (λ made. spec.branch (spec.statement stmt.now) (shown_site site.now) body.old ≡ Ok (record { block = made; body = body.new }));
    } }
{
    let around = begin(alloc, body);
    statement(alloc, site, stmt, stmt.span.to, body)?;
    Ok(end_block(body, around))
}
