//! The variables that a full expression assigns.
ghost use Rattle.std.specs.Prelude.{◌≡◌, OnOk, map};
ghost use Rattle.ix_plain.specs.Assigned as spec;
ghost use Rattle.ix_lower_expressions.specs.Shown.{shown_scope};

use crate::scope::{Scope, meaning_at, slot_of};
use ix_meaning::Meaning;
use ix_text::List;
use ix_tree::{Expr, ExprKind, Init};
use std::alloc::AllocError;

fn add_slot(
    scope: &Scope<'_>,
    meaning: Option<Meaning>,
    known: &mut List<u32>,
) -> Result<(), AllocError>
    ensures { OnOk result (known.new ≡ spec.with_slot (shown_scope scope.now) meaning known.old) }
{
    match meaning {
        Some(Meaning::Local(_)) | Some(Meaning::Param(_)) => {
            known
                .push(slot_of(scope, meaning))
                .map_err(AllocError::from)
        }
        _ => Ok(()),
    }
}

/// Adds the slot of the expression, where it is a variable.
fn add_own(scope: &Scope<'_>, expr: &Expr, known: &mut List<u32>) -> Result<(), AllocError>
    ensures { OnOk result (known.new ≡ (spec.assigns expr.now).own (shown_scope scope.now) known.old) }
{
    match &expr.kind {
        ExprKind::Name(name) => add_slot(scope, meaning_at(scope, name.span), known),
        _ => Ok(()),
    }
}

/// Adds the slots that are assigned in an expression.
#[cycle(assigned)]
pub fn add_assigned(scope: &Scope<'_>, expr: &Expr, known: &mut List<u32>) -> Result<(), AllocError>
    ensures { OnOk result (known.new ≡ (spec.assigns expr.now).inside (shown_scope scope.now) known.old) }
{
    match &expr.kind {
        ExprKind::Select(part, _) | ExprKind::NewArray(_, part) | ExprKind::Unary(_, part) => {
            add_assigned(scope, part.get(), known)
        }
        ExprKind::Index(first, second) | ExprKind::Binary(_, first, second) => {
            add_assigned(scope, first.get(), known).and(add_assigned(scope, second.get(), known))
        }
        ExprKind::Call(None, _, args) | ExprKind::New(_, args) => {
            add_all(scope, args.as_slice(), known)
        }
        ExprKind::Call(Some(object), _, args) => {
            add_assigned(scope, object.get(), known).and(add_all(scope, args.as_slice(), known))
        }
        ExprKind::NewItems(_, items) => add_inits(scope, items.as_slice(), known),
        ExprKind::Assign(_, target, value) => add_own(scope, target.get(), known)
            .and(add_assigned(scope, target.get(), known))
            .and(add_assigned(scope, value.get(), known)),
        ExprKind::Step { target, .. } => {
            add_own(scope, target.get(), known).and(add_assigned(scope, target.get(), known))
        }
        ExprKind::Int(_)
        | ExprKind::Bool(_)
        | ExprKind::Null
        | ExprKind::This
        | ExprKind::Name(_) => Ok(()),
    }
}

/// Adds the slots that are assigned in expressions.
#[cycle(assigned)]
pub fn add_all(scope: &Scope<'_>, exprs: &[Expr], known: &mut List<u32>) -> Result<(), AllocError>
    ensures { OnOk result (known.new ≡ spec.all_assign exprs.now (shown_scope scope.now) known.old) }
{
    for expr in exprs {
        add_assigned(scope, expr, known)?;
    }
    Ok(())
}

/// Adds the slots that are assigned in an initialiser.
#[cycle(assigned)]
pub fn add_init(scope: &Scope<'_>, init: &Init, known: &mut List<u32>) -> Result<(), AllocError>
    ensures { OnOk result (known.new ≡ spec.init_assigns init.now (shown_scope scope.now) known.old) }
{
    match init {
        Init::Value(expr) => add_assigned(scope, expr, known),
        Init::Items(items, _) => add_inits(scope, items.as_slice(), known),
    }
}

#[cycle(assigned)]
fn add_inits(scope: &Scope<'_>, inits: &[Init], known: &mut List<u32>) -> Result<(), AllocError>
    ensures { OnOk result (known.new ≡ spec.all (map spec.init_assigns inits.now) (shown_scope scope.now) known.old) }
{
    for init in inits {
        add_init(scope, init, known)?;
    }
    Ok(())
}
