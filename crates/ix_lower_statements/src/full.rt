//! Full expressions, whose temporaries are free again behind them.
ghost use Rattle.std.specs.Prelude.{◌≡◌, [], Ok, Err, IfOk, OnOk, IsErrOf, MatchResult};
ghost use Rattle.ix_meaning.specs.declared.note.Which.{Which};
ghost use Rattle.ix_plain.specs.declared.made.Stop.TheVariants as stop;
ghost use Rattle.ix_plain.specs.Assigned.{assigns, init_assigns};
ghost use Rattle.ix_plain.specs.Statements as spec;
ghost use Rattle.ix_lower_expressions.specs.Shown.{shown_site};

use ix_core::{Block, Cond, Item, Literal, OpKind, Type_};
use ix_lower_expressions::{
    Scope, Site, add_assigned, add_init, condition, done, filling, push, take, value,
};
use ix_plain::{Body, Stop};
use ix_text::{List, Span, Text};
use ix_tree::{Expr, Init};
use std::alloc::{AllocError, Global};

/// The slots that the expression assigns.
fn assigned_by(alloc: Global, site: &Site<'_>, expr: &Expr, body: &Body) -> Result<List<u32>, Stop>
    ensures { MatchResult result (λ slots. slots ≡ spec.assigned_by (shown_site site.now) body.now (assigns expr.now).inside) (λ cause. cause ≡ stop.Memory) }
{
    let mut assigned = List::new(alloc);
    let scope = Scope {
        site: *site,
        locals: body.locals.as_slice(),
        assigned: &[],
    };
    add_assigned(&scope, expr, &mut assigned)
        .map_err(Stop::from)
        .and(Ok(assigned))
}

/// The slots that the initialiser assigns.
fn assigned_by_init(
    alloc: Global,
    site: &Site<'_>,
    init: &Init,
    body: &Body,
) -> Result<List<u32>, Stop>
    ensures { MatchResult result (λ slots. slots ≡ spec.assigned_by (shown_site site.now) body.now (init_assigns init.now)) (λ cause. cause ≡ stop.Memory) }
{
    let mut assigned = List::new(alloc);
    let scope = Scope {
        site: *site,
        locals: body.locals.as_slice(),
        assigned: &[],
    };
    add_init(&scope, init, &mut assigned)
        .map_err(Stop::from)
        .and(Ok(assigned))
}

/// Evaluates a full expression, and answers the slot of its value.
pub fn evaluate(alloc: Global, site: &Site<'_>, expr: &Expr, body: &mut Body) -> Result<u32, Stop>
    ensures { record {
      limit : (which : Which) → IsErrOf result (stop.Limit which) → spec.evaluated (shown_site site.now) expr.now body.old ≡ Err which;
      body : IfOk result (λ slot. spec.evaluated (shown_site site.now) expr.now body.old ≡ Ok (record { slot = slot; body = body.new }));
    } }
{
    let assigned = assigned_by(alloc, site, expr, body)?;
    let top = body.made.free;
    let scope = Scope {
        site: *site,
        locals: body.locals.as_slice(),
        assigned: assigned.as_slice(),
    };
    let slot = value(alloc, &scope, expr, &mut body.made)?;
    body.most = body.most.max(body.made.free);
    body.made.free = top;
    Ok(slot)
}

/// Evaluates the initialiser of a variable of that type, and answers the slot of its value.
pub fn evaluate_init(
    alloc: Global,
    site: &Site<'_>,
    init: &Init,
    ty: &Type_,
    body: &mut Body,
) -> Result<u32, Stop>
    ensures { record {
      limit : (which : Which) → IsErrOf result (stop.Limit which) → spec.init_evaluated (shown_site site.now) init.now ty.now body.old ≡ Err which;
      body : IfOk result (λ slot. spec.init_evaluated (shown_site site.now) init.now ty.now body.old ≡ Ok (record { slot = slot; body = body.new }));
    } }
{
    let assigned = assigned_by_init(alloc, site, init, body)?;
    let top = body.made.free;
    let scope = Scope {
        site: *site,
        locals: body.locals.as_slice(),
        assigned: assigned.as_slice(),
    };
    let slot = filling(alloc, &scope, init, ty, &mut body.made)?;
    body.most = body.most.max(body.made.free);
    body.made.free = top;
    Ok(slot)
}

/// Runs a full expression whose value isn't used.
pub fn run(alloc: Global, site: &Site<'_>, expr: &Expr, body: &mut Body) -> Result<(), Stop>
    ensures { record {
      limit : (which : Which) → IsErrOf result (stop.Limit which) → spec.ran (shown_site site.now) expr.now body.old ≡ Err which;
      body : OnOk result (spec.ran (shown_site site.now) expr.now body.old ≡ Ok body.new);
    } }
{
    evaluate(alloc, site, expr, body).and(Ok(()))
}

pub fn run_all(alloc: Global, site: &Site<'_>, exprs: &[Expr], body: &mut Body) -> Result<(), Stop>
    ensures { record {
      limit : (which : Which) → IsErrOf result (stop.Limit which) → spec.all_ran exprs.now (shown_site site.now) body.old ≡ Err which;
      body : OnOk result (spec.all_ran exprs.now (shown_site site.now) body.old ≡ Ok body.new);
    } }
{
    for expr in exprs {
        run(alloc, site, expr, body)?;
    }
    Ok(())
}

/// Asks a full expression.
pub fn test(alloc: Global, site: &Site<'_>, expr: &Expr, body: &mut Body) -> Result<Cond, Stop>
    ensures { record {
      limit : (which : Which) → IsErrOf result (stop.Limit which) → spec.tested (shown_site site.now) expr.now body.old ≡ Err which;
      body : IfOk result (λ cond. spec.tested (shown_site site.now) expr.now body.old ≡ Ok (record { cond = cond; body = body.new }));
    } }
{
    let assigned = assigned_by(alloc, site, expr, body)?;
    let scope = Scope {
        site: *site,
        locals: body.locals.as_slice(),
        assigned: assigned.as_slice(),
    };
    let mut free = body.made.free;
    let cond = condition(alloc, &scope, expr, &mut free)?;
    body.most = body.most.max(free);
    Ok(cond)
}

/// Asks the condition of a `for`.
pub fn test_if(
    alloc: Global,
    site: &Site<'_>,
    expr: &Option<Expr>,
    body: &mut Body,
) -> Result<Cond, Stop>
    ensures { record {
      limit : (which : Which) → IsErrOf result (stop.Limit which) → spec.tested_if expr.now (shown_site site.now) body.old ≡ Err which;
      body : IfOk result (λ cond. spec.tested_if expr.now (shown_site site.now) body.old ≡ Ok (record { cond = cond; body = body.new }));
    } }
{
    match expr {
        Some(expr) => test(alloc, site, expr, body),
        None => Ok(Cond::Known(true)),
    }
}

/// An answer that is written out and returned.
fn answer(alloc: Global, holds: bool, slot: u32, span: Span) -> Result<Block, AllocError>
    ensures { IfOk result (λ block. block ≡ spec.answer holds slot span) }
{
    let mut items = List::new(alloc);
    let kind = OpKind::Const(slot, Literal::Bool(holds));
    items.push(done(alloc, kind, span))?;
    items.push(Item::Return(Some(slot), span))?;
    Ok(Block { items })
}

fn answer_item(alloc: Global, asked: Cond, slot: u32, span: Span) -> Result<Item, AllocError>
    ensures { IfOk result (λ item. item ≡ spec.answer_item asked slot span) }
{
    let holds = answer(alloc, true, slot, span)?;
    let fails = answer(alloc, false, slot, span)?;
    Ok(Item::If(asked, holds, fails))
}

/// Asks a full expression, and returns each answer by itself.
pub fn return_answer(
    alloc: Global,
    site: &Site<'_>,
    expr: &Expr,
    body: &mut Body,
) -> Result<(), Stop>
    ensures { record {
      limit : (which : Which) → IsErrOf result (stop.Limit which) → spec.answered (shown_site site.now) expr.now body.old ≡ Err which;
      body : OnOk result (spec.answered (shown_site site.now) expr.now body.old ≡ Ok body.new);
    } }
{
    let assigned = assigned_by(alloc, site, expr, body)?;
    let top = body.made.free;
    let scope = Scope {
        site: *site,
        locals: body.locals.as_slice(),
        assigned: assigned.as_slice(),
    };
    let cond = condition(alloc, &scope, expr, &mut body.made.free)?;
    let item = answer_item(alloc, cond, body.made.free, expr.span)?;
    take(&mut body.made, item)?;
    body.most = body.most.max(body.made.free);
    body.made.free = top;
    Ok(())
}

/// Adds an item.
pub fn push_last(body: &mut Body, item: Item) -> Result<(), Stop>
    ensures { MatchResult result (λ _. body.new ≡ spec.with_last body.old item) (λ cause. cause ≡ stop.Memory) }
{
    push(&mut body.made, item).map_err(Stop::from)
}

/// A copy of a text.
pub fn copied_text(alloc: Global, text: &Text) -> Result<Text, AllocError>
    ensures { IfOk result (λ copy. copy ≡ text.now) }
{
    Text::from_str(alloc, text.as_str())
}
