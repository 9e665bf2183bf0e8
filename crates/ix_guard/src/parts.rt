//! The accesses on names that an expression makes, and the names that it assigns.

ghost use Rattle.std.specs.Prelude.{◌≡◌, ◌++◌, [], List, map, option_copied, option_map, OnOk, if◌then◌else◌};
ghost use Rattle.ix_guard.specs.Accesses as spec;
ghost use Rattle.ix_guard.specs.Shown.{seen};

use ix_text::Span;
use ix_tree::{BinaryOp, Expr, ExprKind, Ident, Init, LocalDecl};
use std::alloc::{AllocError, Global};

/// An access of which both parts are names.
#[derive(Clone, Copy)]
pub struct Access<'a> {
    pub array: &'a Ident,
    pub index: &'a Ident,
}

/// What is in expressions, in the order of the text.
#[derive(Drop)]
pub(crate) struct Parts<'a> {
    pub accesses: Vec<Access<'a>>,
    /// The places of the names that are assigned.
    pub assigned: Vec<Span>,
}

impl<'a> Parts<'a> {
    pub fn new(alloc: Global) -> Parts<'a>
        ensures { record {
          accesses : result.accesses.items ≡ [];
          assigned : result.assigned.items ≡ [];
        } }
    {
        Parts {
            accesses: Vec::new(alloc),
            assigned: Vec::new(alloc),
        }
    }
}

/// The name that the expression is.
fn name_of(expr: &Expr) -> Option<&Ident>
    ensures { option_copied result ≡ (spec.reading expr.now).name }
{
    match &expr.kind {
        ExprKind::Name(name) => Some(name),
        _ => None,
    }
}

/// The access of these parts, where both are names.
fn own_access<'a>(array: &'a Expr, index: &'a Expr) -> Option<Access<'a>>
    ensures { option_map seen result ≡ spec.own_access (spec.reading array.now).name (spec.reading index.now).name }
{
    let array = name_of(array)?;
    let index = name_of(index)?;
    Some(Access { array, index })
}

/// Whether the right operand is always evaluated.
fn is_always(operator: BinaryOp) -> bool
    ensures { result ≡ spec.is_always operator }
{
    match operator {
        BinaryOp::Num(_) => true,
        BinaryOp::Compare(_) => true,
        BinaryOp::AndAlso => false,
        BinaryOp::OrElse => false,
    }
}

/// Adds the place of the name that is assigned, where the target is a name.
fn add_target(target: &Expr, places: &mut Vec<Span>) -> Result<(), AllocError>
    ensures { OnOk result (places.new.items ≡ places.old.items ++ spec.place_of (spec.reading target.now).name) }
{
    match &target.kind {
        ExprKind::Name(name) => places.push(name.span).map_err(AllocError::from),
        _ => Ok(()),
    }
}

/// Adds what is in an expression.
#[cycle(parts)]
pub(crate) fn add_parts<'a>(expr: &'a Expr, found: &mut Parts<'a>) -> Result<(), AllocError>
    ensures accesses { OnOk result (map seen found.new.accesses.items ≡ map seen found.old.accesses.items ++ (spec.parts_of expr.now).accesses) }
    ensures assigned { OnOk result (found.new.assigned.items ≡ found.old.assigned.items ++ (spec.parts_of expr.now).assigned) }
{
    match &expr.kind {
        ExprKind::Select(part, _) | ExprKind::NewArray(_, part) | ExprKind::Unary(_, part) => {
            add_parts(part.get(), found)
        }
        ExprKind::Index(array, index) => {
            if let Some(access) = own_access(array.get(), index.get()) {
                return found.accesses.push(access).map_err(AllocError::from);
            }
            add_parts(array.get(), found).and(add_parts(index.get(), found))
        }
        ExprKind::Call(None, _, args) | ExprKind::New(_, args) => add_args(args.as_slice(), found),
        ExprKind::Call(Some(object), _, args) => {
            add_parts(object.get(), found).and(add_args(args.as_slice(), found))
        }
        ExprKind::NewItems(_, items) => add_items(items.as_slice(), found),
        ExprKind::Binary(operator, left, right) => {
            add_parts(left.get(), found).and(add_right(*operator, right.get(), found))
        }
        ExprKind::Assign(_, target, value) => {
            add_as_target(target.get(), found).and(add_parts(value.get(), found))
        }
        ExprKind::Step { target, .. } => add_as_target(target.get(), found),
        ExprKind::Int(_)
        | ExprKind::Bool(_)
        | ExprKind::Null
        | ExprKind::This
        | ExprKind::Name(_) => Ok(()),
    }
}

/// Adds what is in the right operand, but not its accesses where it isn't always evaluated.
#[cycle(parts)]
fn add_right<'a>(
    operator: BinaryOp,
    right: &'a Expr,
    found: &mut Parts<'a>,
) -> Result<(), AllocError>
    ensures accesses { OnOk result (map seen found.new.accesses.items ≡ map seen found.old.accesses.items ++ (if spec.is_always operator then (spec.parts_of right.now).accesses else [])) }
    ensures assigned { OnOk result (found.new.assigned.items ≡ found.old.assigned.items ++ (spec.parts_of right.now).assigned) }
{
    let count = found.accesses.len();
    add_parts(right, found)?;
    if !is_always(operator) {
        found.accesses.truncate(count);
    }
    Ok(())
}

/// Adds what is assigned: the target, where it is a name, and what is in it.
#[cycle(parts)]
fn add_as_target<'a>(target: &'a Expr, found: &mut Parts<'a>) -> Result<(), AllocError>
    ensures { record {
      accesses : OnOk result (map seen found.new.accesses.items ≡ map seen found.old.accesses.items ++ (spec.as_target (spec.reading target.now)).accesses);
      assigned : OnOk result (found.new.assigned.items ≡ found.old.assigned.items ++ (spec.as_target (spec.reading target.now)).assigned);
    } }
{
    add_target(target, &mut found.assigned).and(add_parts(target, found))
}

#[cycle(parts)]
fn add_args<'a>(args: &'a [Expr], found: &mut Parts<'a>) -> Result<(), AllocError>
    ensures { record {
      accesses : OnOk result (map seen found.new.accesses.items ≡ map seen found.old.accesses.items ++ (spec.all_parts args.now).accesses);
      assigned : OnOk result (found.new.assigned.items ≡ found.old.assigned.items ++ (spec.all_parts args.now).assigned);
    } }
{
    for arg in args {
        add_parts(arg, found)?;
    }
    Ok(())
}

#[cycle(parts)]
fn add_items<'a>(items: &'a [Init], found: &mut Parts<'a>) -> Result<(), AllocError>
    ensures { record {
      accesses : OnOk result (map seen found.new.accesses.items ≡ map seen found.old.accesses.items ++ (spec.all_init_parts items.now).accesses);
      assigned : OnOk result (found.new.assigned.items ≡ found.old.assigned.items ++ (spec.all_init_parts items.now).assigned);
    } }
{
    for item in items {
        add_initial(item, found)?;
    }
    Ok(())
}

#[cycle(parts)]
fn add_initial<'a>(init: &'a Init, found: &mut Parts<'a>) -> Result<(), AllocError>
    ensures { record {
      accesses : OnOk result (map seen found.new.accesses.items ≡ map seen found.old.accesses.items ++ (spec.init_parts init.now).accesses);
      assigned : OnOk result (found.new.assigned.items ≡ found.old.assigned.items ++ (spec.init_parts init.now).assigned);
    } }
{
    match init {
        Init::Value(expr) => add_parts(expr, found),
        Init::Items(items, _) => add_items(items.as_slice(), found),
    }
}

fn add_declared<'a>(decl: &'a LocalDecl, found: &mut Parts<'a>) -> Result<(), AllocError>
    ensures { record {
      accesses : OnOk result (map seen found.new.accesses.items ≡ map seen found.old.accesses.items ++ (spec.decl_parts decl.now).accesses);
      assigned : OnOk result (found.new.assigned.items ≡ found.old.assigned.items ++ (spec.decl_parts decl.now).assigned);
    } }
{
    match &decl.init {
        None => Ok(()),
        Some(init) => add_initial(init, found),
    }
}

/// Adds what is in a declaration of locals.
pub(crate) fn add_all_declared<'a>(
    decls: &'a [LocalDecl],
    found: &mut Parts<'a>,
) -> Result<(), AllocError>
    ensures accesses { OnOk result (map seen found.new.accesses.items ≡ map seen found.old.accesses.items ++ (spec.all_decl_parts decls.now).accesses) }
    ensures assigned { OnOk result (found.new.assigned.items ≡ found.old.assigned.items ++ (spec.all_decl_parts decls.now).assigned) }
{
    for decl in decls {
        add_declared(decl, found)?;
    }
    Ok(())
}
