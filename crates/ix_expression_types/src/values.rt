//! The pass over an expression: each part is read once.

ghost use Rattle.std.specs.Prelude.{◌≡◌, ◌++◌, false, Some, IfOk, OnOk, map};
ghost use Rattle.ix_meaning.specs.Members as members;
ghost use Rattle.ix_meaning.specs.Scope.{Scope};
ghost use Rattle.ix_meaning.specs.Types as types;
ghost use Rattle.ix_meaning.specs.Values as spec;
ghost use Rattle.ix_text.specs.declared.span.Span.{Span};
ghost use Rattle.ix_expression_types.specs.Operators.{equates};
ghost use Rattle.ix_expression_types.specs.Here.{here};
ghost use Rattle.ix_symbols.specs.Needs as needs;
ghost use Rattle.ix_expression_types.specs.Objects as objects;
ghost use Rattle.ix_class_members.specs.World as tables;

use crate::names::{Object, name_before_dot, object_of, variable};
use crate::rules::{
    list_mismatch, not_static, note_type, note_use, null_mismatch, type_mismatch, wrong, wrong_if,
};
use crate::scope::Scopes;
use crate::selections::{
    compared, element_if, element_in, is_equality, is_null, is_this, selected,
};
use ix_class_members::{Called, World, created};
use ix_core::{Base, Type_};
use ix_meaning::{Meaning, Note, Rule};
use ix_symbols::{BOOLEAN, INT, Need, copied_option, need_like};
use ix_text::{List, Span};
use ix_tree::{BinaryOp, Expr, ExprKind, Ident, Init, TypeTree, UnaryOp};
use std::alloc::{AllocError, Global};

/// The type of the expression at that place, which is noted.
fn typed(
    alloc: Global,
    notes: &mut List<Note>,
    found: Option<Type_>,
    span: Span,
) -> Result<Option<Type_>, AllocError>
    ensures { record {
      ty : IfOk result (λ t. t ≡ found);
      notes : OnOk result (notes.new ≡ notes.old ++ types.type_note found span);
    } }
{
    note_type(alloc, notes, &found, span).and(Ok(found))
}

/// What the operand of an operator must be, and what its value is.
fn unary_type(op: UnaryOp) -> Type_
    ensures { (a : spec.Reading) (s : Scope) → spec.unary op a s ≡ types.judged (Some result) (spec.check a s (types.of result)).notes }
{
    match op {
        UnaryOp::Not => BOOLEAN,
        _ => INT,
    }
}

/// What the operands of an operator must be that is no equality, and what its value is.
fn binary_types(op: BinaryOp) -> (Type_, Type_)
    ensures { (a b : spec.Reading) (s : Scope) (p : Span) → equates op ≡ false → spec.binary op a b s p ≡ spec.both a b s (types.of result.0) result.1 }
{
    match op {
        BinaryOp::Num(_) => (INT, INT),
        BinaryOp::Compare(_) => (INT, BOOLEAN),
        _ => (BOOLEAN, BOOLEAN),
    }
}

/// An expression as a value.
#[cycle(values)]
pub fn value(
    alloc: Global,
    world: &World,
    scopes: &Scopes<'_>,
    notes: &mut List<Note>,
    e: &Expr,
) -> Result<Option<Type_>, AllocError>
    ensures { record {
      ty : IfOk result (λ t. t ≡ ((spec.reading e.now).judge (here world.now scopes.now)).ty);
      notes : OnOk result (notes.new ≡ notes.old ++ ((spec.reading e.now).judge (here world.now scopes.now)).notes);
    } }
{
    let ty = kind(alloc, world, scopes, notes, &e.kind, e.span)?;
    typed(alloc, notes, ty, e.span)
}

/// An expression at a place that needs something.
#[cycle(values)]
pub fn check(
    alloc: Global,
    world: &World,
    scopes: &Scopes<'_>,
    notes: &mut List<Note>,
    e: &Expr,
    need: Need<'_>,
) -> Result<(), AllocError>
    ensures { OnOk result (notes.new ≡ notes.old ++ (spec.check (spec.reading e.now) (here world.now scopes.now) (needs.shown need.entry)).notes) }
{
    if is_null(e) {
        return null_mismatch(alloc, notes, need, e.span);
    }
    let ty = value(alloc, world, scopes, notes, e)?;
    type_mismatch(world, notes, need, &ty, e.span)
}

/// An expression at a place that needs an int.
#[cycle(values)]
fn check_int(
    alloc: Global,
    world: &World,
    scopes: &Scopes<'_>,
    notes: &mut List<Note>,
    e: &Expr,
) -> Result<(), AllocError>
    ensures { OnOk result (notes.new ≡ notes.old ++ (spec.check (spec.reading e.now) (here world.now scopes.now) (types.of types.int)).notes) }
{
    check(alloc, world, scopes, notes, e, Need::Of(&INT))
}

/// An operand of `==` or `!=`.
#[cycle(values)]
fn operand(
    alloc: Global,
    world: &World,
    scopes: &Scopes<'_>,
    notes: &mut List<Note>,
    e: &Expr,
) -> Result<Option<Type_>, AllocError>
    ensures { record {
      ty : IfOk result (λ t. t ≡ (spec.operand (spec.reading e.now) (here world.now scopes.now)).ty);
      notes : OnOk result (notes.new ≡ notes.old ++ (spec.operand (spec.reading e.now) (here world.now scopes.now)).notes);
    } }
{
    if is_null(e) {
        return Ok(None);
    }
    value(alloc, world, scopes, notes, e)
}

#[cycle(values)]
pub fn arguments(
    alloc: Global,
    world: &World,
    scopes: &Scopes<'_>,
    notes: &mut List<Note>,
    args: &[Expr],
    params: &[Option<Type_>],
) -> Result<(), AllocError>
    ensures { OnOk result (notes.new ≡ notes.old ++ spec.arguments (here world.now scopes.now) (map spec.reading args.now) params.now) }
{
    for (i, arg) in args.iter().enumerate() {
        let need = match params.get(i) {
            None => Need::Unknown,
            Some(ty) => need_like(ty),
        };
        check(alloc, world, scopes, notes, arg, need)?;
    }
    Ok(())
}

#[cycle(values)]
pub fn given_to(
    alloc: Global,
    world: &World,
    scopes: &Scopes<'_>,
    notes: &mut List<Note>,
    args: &[Expr],
    params: &[Option<Type_>],
    span: Span,
) -> Result<(), AllocError>
    ensures { OnOk result (notes.new ≡ notes.old ++ spec.given_to (here world.now scopes.now) (map spec.reading args.now) params.now span) }
{
    wrong_if(
        notes,
        args.len() != params.len(),
        Rule::WrongArguments,
        span,
    )
    .and(arguments(alloc, world, scopes, notes, args, params))
}

#[cycle(values)]
fn called(
    alloc: Global,
    world: &World,
    scopes: &Scopes<'_>,
    notes: &mut List<Note>,
    args: &[Expr],
    method: Called<'_>,
    span: Span,
) -> Result<Option<Type_>, AllocError>
    ensures { record {
      ty : IfOk result (λ t. t ≡ (spec.called (here world.now scopes.now) span (map spec.reading args.now) (tables.callee method.entry)).ty);
      notes : OnOk result (notes.new ≡ notes.old ++ (spec.called (here world.now scopes.now) span (map spec.reading args.now) (tables.callee method.entry)).notes);
    } }
{
    note_use(notes, Some(Meaning::MethodNamed(method.number)), span)
        .and(given_to(
            alloc,
            world,
            scopes,
            notes,
            args,
            method.signature.params.as_slice(),
            span,
        ))
        .and(copied_option(alloc, &method.signature.result))
}

#[cycle(values)]
fn unknown_call(
    alloc: Global,
    world: &World,
    scopes: &Scopes<'_>,
    notes: &mut List<Note>,
    args: &[Expr],
    span: Span,
) -> Result<Option<Type_>, AllocError>
    ensures { record {
      ty : IfOk result (λ t. t ≡ (spec.unknown_call (here world.now scopes.now) span (map spec.reading args.now)).ty);
      notes : OnOk result (notes.new ≡ notes.old ++ (spec.unknown_call (here world.now scopes.now) span (map spec.reading args.now)).notes);
    } }
{
    wrong(notes, Rule::UnknownName, span)
        .and(arguments(alloc, world, scopes, notes, args, &[]))
        .and(Ok(None))
}

#[cycle(values)]
fn bare_call(
    alloc: Global,
    world: &World,
    scopes: &Scopes<'_>,
    notes: &mut List<Note>,
    args: &[Expr],
    name: &Ident,
) -> Result<Option<Type_>, AllocError>
    ensures { record {
      ty : IfOk result (λ t. t ≡ (spec.bare_call (here world.now scopes.now) name.now (map spec.reading args.now) (members.method_named (tables.shown world.now) scopes.now.class name.now.text)).ty);
      notes : OnOk result (notes.new ≡ notes.old ++ (spec.bare_call (here world.now scopes.now) name.now (map spec.reading args.now) (members.method_named (tables.shown world.now) scopes.now.class name.now.text)).notes);
    } }
{
    match world.method(scopes.class, name.text.as_str()) {
        None => unknown_call(alloc, world, scopes, notes, args, name.span),
        Some(method) => {
            not_static(scopes, notes, method.signature.is_static, name.span).and(called(
                alloc, world, scopes, notes, args, method, name.span,
            ))
        }
    }
}

#[cycle(values)]
fn class_call(
    alloc: Global,
    world: &World,
    scopes: &Scopes<'_>,
    notes: &mut List<Note>,
    args: &[Expr],
    class: u32,
    name: &Ident,
) -> Result<Option<Type_>, AllocError>
    ensures { record {
      ty : IfOk result (λ t. t ≡ (spec.class_call (here world.now scopes.now) name.now (map spec.reading args.now) (members.method_named (tables.shown world.now) class name.now.text)).ty);
      notes : OnOk result (notes.new ≡ notes.old ++ (spec.class_call (here world.now scopes.now) name.now (map spec.reading args.now) (members.method_named (tables.shown world.now) class name.now.text)).notes);
    } }
{
    match world.method(class, name.text.as_str()) {
        None => unknown_call(alloc, world, scopes, notes, args, name.span),
        Some(method) => {
            wrong_if(
                notes,
                !method.signature.is_static,
                Rule::NotStatic,
                name.span,
            )
            .and(called(alloc, world, scopes, notes, args, method, name.span))
        }
    }
}

#[cycle(values)]
fn instance_call(
    alloc: Global,
    world: &World,
    scopes: &Scopes<'_>,
    notes: &mut List<Note>,
    args: &[Expr],
    class: u32,
    name: &Ident,
) -> Result<Option<Type_>, AllocError>
    ensures { record {
      ty : IfOk result (λ t. t ≡ (spec.instance_call (here world.now scopes.now) name.now (map spec.reading args.now) (members.method_named (tables.shown world.now) class name.now.text)).ty);
      notes : OnOk result (notes.new ≡ notes.old ++ (spec.instance_call (here world.now scopes.now) name.now (map spec.reading args.now) (members.method_named (tables.shown world.now) class name.now.text)).notes);
    } }
{
    match world.method(class, name.text.as_str()) {
        None => unknown_call(alloc, world, scopes, notes, args, name.span),
        Some(method) => called(alloc, world, scopes, notes, args, method, name.span),
    }
}

#[cycle(values)]
fn call_on(
    alloc: Global,
    world: &World,
    scopes: &Scopes<'_>,
    notes: &mut List<Note>,
    args: &[Expr],
    object: &Object,
    name: &Ident,
) -> Result<Option<Type_>, AllocError>
    ensures { record {
      ty : IfOk result (λ t. t ≡ (spec.call_on (here world.now scopes.now) name.now (map spec.reading args.now) (objects.shown object.now)).ty);
      notes : OnOk result (notes.new ≡ notes.old ++ (spec.call_on (here world.now scopes.now) name.now (map spec.reading args.now) (objects.shown object.now)).notes);
    } }
{
    match object {
        Object::Nothing => arguments(alloc, world, scopes, notes, args, &[]).and(Ok(None)),
        Object::OfClass(class) => class_call(alloc, world, scopes, notes, args, *class, name),
        Object::Value(Type_::Plain(Base::Class(class))) => {
            instance_call(alloc, world, scopes, notes, args, *class, name)
        }
        Object::Value(_) => unknown_call(alloc, world, scopes, notes, args, name.span),
    }
}

#[cycle(values)]
fn creation(
    alloc: Global,
    world: &World,
    scopes: &Scopes<'_>,
    notes: &mut List<Note>,
    args: &[Expr],
    name: &Ident,
) -> Result<Option<Type_>, AllocError>
    ensures { record {
      ty : IfOk result (λ t. t ≡ (spec.creation (here world.now scopes.now) name.now (map spec.reading args.now) ((tables.shown world.now).class name.now.text)).ty);
      notes : OnOk result (notes.new ≡ notes.old ++ (spec.creation (here world.now scopes.now) name.now (map spec.reading args.now) ((tables.shown world.now).class name.now.text)).notes);
    } }
{
    match world.class(name.text.as_str()) {
        None => unknown_call(alloc, world, scopes, notes, args, name.span),
        Some(class) => {
            note_use(notes, Some(Meaning::ClassNamed(class)), name.span)
                .and(given_to(
                    alloc,
                    world,
                    scopes,
                    notes,
                    args,
                    world.constructor_params(class),
                    name.span,
                ))
                .and(Ok(Some(Type_::Plain(Base::Class(class)))))
        }
    }
}

/// A field of what stands before a dot.
#[cycle(values)]
fn selection(
    alloc: Global,
    world: &World,
    scopes: &Scopes<'_>,
    notes: &mut List<Note>,
    object: &Expr,
    name: &Ident,
    assigned: bool,
) -> Result<Option<Type_>, AllocError>
    ensures { record {
      ty : IfOk result (λ t. t ≡ (spec.selection (spec.reading object.now) name.now assigned (here world.now scopes.now)).ty);
      notes : OnOk result (notes.new ≡ notes.old ++ (spec.selection (spec.reading object.now) name.now assigned (here world.now scopes.now)).notes);
    } }
{
    let through_this = is_this(object);
    let found = receiver(alloc, world, scopes, notes, object)?;
    selected(
        alloc,
        world,
        scopes,
        notes,
        &found,
        name,
        assigned,
        through_this,
    )
}

/// The target of an assignment.
#[cycle(values)]
fn assigned(
    alloc: Global,
    world: &World,
    scopes: &Scopes<'_>,
    notes: &mut List<Note>,
    e: &Expr,
) -> Result<Option<Type_>, AllocError>
    ensures { record {
      ty : IfOk result (λ t. t ≡ ((spec.reading e.now).assigned (here world.now scopes.now)).ty);
      notes : OnOk result (notes.new ≡ notes.old ++ ((spec.reading e.now).assigned (here world.now scopes.now)).notes);
    } }
{
    let ty = assigned_kind(alloc, world, scopes, notes, &e.kind, e.span)?;
    typed(alloc, notes, ty, e.span)
}

#[cycle(values)]
fn assigned_kind(
    alloc: Global,
    world: &World,
    scopes: &Scopes<'_>,
    notes: &mut List<Note>,
    k: &ExprKind,
    span: Span,
) -> Result<Option<Type_>, AllocError>
    ensures { record {
      ty : IfOk result (λ t. t ≡ ((spec.kind_reading k.now).assigned (here world.now scopes.now) span).ty);
      notes : OnOk result (notes.new ≡ notes.old ++ ((spec.kind_reading k.now).assigned (here world.now scopes.now) span).notes);
    } }
{
    match k {
        ExprKind::Name(name) => variable(alloc, world, scopes, notes, true, name),
        ExprKind::Select(object, name) => {
            selection(alloc, world, scopes, notes, object.get(), name, true)
        }
        _ => kind(alloc, world, scopes, notes, k, span),
    }
}

/// An array, as it stands before its index.
#[cycle(values)]
fn array_part(
    alloc: Global,
    world: &World,
    scopes: &Scopes<'_>,
    notes: &mut List<Note>,
    e: &Expr,
) -> Result<Option<Type_>, AllocError>
    ensures { record {
      ty : IfOk result (λ t. t ≡ (spec.array_part (spec.reading e.now) (here world.now scopes.now)).ty);
      notes : OnOk result (notes.new ≡ notes.old ++ (spec.array_part (spec.reading e.now) (here world.now scopes.now)).notes);
    } }
{
    if is_null(e) {
        return wrong(notes, Rule::TypeMismatch, e.span).and(Ok(None));
    }
    let ty = value(alloc, world, scopes, notes, e)?;
    element_in(alloc, notes, &ty, e.span)
}

/// What the value of an expression is before a dot.
#[cycle(values)]
fn valued_object(
    alloc: Global,
    world: &World,
    scopes: &Scopes<'_>,
    notes: &mut List<Note>,
    k: &ExprKind,
    span: Span,
) -> Result<Object, AllocError>
    ensures { record {
      object : IfOk result (λ o. objects.shown o ≡ (spec.as_object ((spec.kind_reading k.now).judge (here world.now scopes.now) span) span).object);
      notes : OnOk result (notes.new ≡ notes.old ++ (spec.as_object ((spec.kind_reading k.now).judge (here world.now scopes.now) span) span).notes);
    } }
{
    let ty = kind(alloc, world, scopes, notes, k, span)?;
    object_of(alloc, notes, ty, span)
}

/// What an expression is before a dot.
#[cycle(values)]
fn receiver(
    alloc: Global,
    world: &World,
    scopes: &Scopes<'_>,
    notes: &mut List<Note>,
    e: &Expr,
) -> Result<Object, AllocError>
    ensures { record {
      object : IfOk result (λ o. objects.shown o ≡ ((spec.reading e.now).receiver (here world.now scopes.now)).object);
      notes : OnOk result (notes.new ≡ notes.old ++ ((spec.reading e.now).receiver (here world.now scopes.now)).notes);
    } }
{
    match &e.kind {
        ExprKind::Null => wrong(notes, Rule::TypeMismatch, e.span).and(Ok(Object::Nothing)),
        ExprKind::Name(name) => name_before_dot(alloc, world, scopes, notes, name, e.span),
        _ => valued_object(alloc, world, scopes, notes, &e.kind, e.span),
    }
}

/// A new array of that length (JLS 15.10.1).
#[cycle(values)]
fn sized(
    alloc: Global,
    world: &World,
    scopes: &Scopes<'_>,
    notes: &mut List<Note>,
    tree: &TypeTree,
    size: &Expr,
) -> Result<Option<Type_>, AllocError>
    ensures { record {
      ty : IfOk result (λ t. t ≡ (spec.sized (spec.reading size.now) (here world.now scopes.now) (spec.created (here world.now scopes.now) tree.now)).ty);
      notes : OnOk result (notes.new ≡ notes.old ++ (spec.sized (spec.reading size.now) (here world.now scopes.now) (spec.created (here world.now scopes.now) tree.now)).notes);
    } }
{
    let ty = created(alloc, &world.table, notes, tree);
    check_int(alloc, world, scopes, notes, size).and(ty)
}

/// A new array with these entries (JLS 15.10.1).
#[cycle(values)]
fn filled(
    alloc: Global,
    world: &World,
    scopes: &Scopes<'_>,
    notes: &mut List<Note>,
    tree: &TypeTree,
    items: &[Init],
) -> Result<Option<Type_>, AllocError>
    ensures { record {
      ty : IfOk result (λ t. t ≡ (spec.filled (map spec.filling items.now) (here world.now scopes.now) (spec.created (here world.now scopes.now) tree.now)).ty);
      notes : OnOk result (notes.new ≡ notes.old ++ (spec.filled (map spec.filling items.now) (here world.now scopes.now) (spec.created (here world.now scopes.now) tree.now)).notes);
    } }
{
    let ty = created(alloc, &world.table, notes, tree)?;
    let inner = element_if(alloc, &ty)?;
    fill_all(alloc, world, scopes, notes, items, &inner).and(Ok(ty))
}

/// An int variable that is read and written.
#[cycle(values)]
fn counted(
    alloc: Global,
    world: &World,
    scopes: &Scopes<'_>,
    notes: &mut List<Note>,
    target: &Expr,
) -> Result<Option<Type_>, AllocError>
    ensures { record {
      ty : IfOk result (λ t. t ≡ (spec.counted_target (spec.reading target.now) (here world.now scopes.now)).ty);
      notes : OnOk result (notes.new ≡ notes.old ++ (spec.counted_target (spec.reading target.now) (here world.now scopes.now)).notes);
    } }
{
    let ty = assigned(alloc, world, scopes, notes, target)?;
    type_mismatch(world, notes, Need::Of(&INT), &ty, target.span).and(Ok(ty))
}

#[cycle(values)]
fn kind(
    alloc: Global,
    world: &World,
    scopes: &Scopes<'_>,
    notes: &mut List<Note>,
    k: &ExprKind,
    span: Span,
) -> Result<Option<Type_>, AllocError>
    ensures { record {
      ty : IfOk result (λ t. t ≡ ((spec.kind_reading k.now).judge (here world.now scopes.now) span).ty);
      notes : OnOk result (notes.new ≡ notes.old ++ ((spec.kind_reading k.now).judge (here world.now scopes.now) span).notes);
    } }
{
    match k {
        ExprKind::Int(_) => Ok(Some(INT)),
        ExprKind::Bool(_) => Ok(Some(BOOLEAN)),
        ExprKind::Null => wrong(notes, Rule::TypeMismatch, span).and(Ok(None)),
        ExprKind::This => {
            let ty = Type_::Plain(Base::Class(scopes.class));
            not_static(scopes, notes, false, span).and(Ok(Some(ty)))
        }
        ExprKind::Name(name) => variable(alloc, world, scopes, notes, false, name),
        ExprKind::Select(object, name) => {
            selection(alloc, world, scopes, notes, object.get(), name, false)
        }
        ExprKind::Index(array, index) => {
            let ty = array_part(alloc, world, scopes, notes, array.get());
            check_int(alloc, world, scopes, notes, index.get()).and(ty)
        }
        ExprKind::Call(None, name, args) => bare_call(
            alloc,
            world,
            scopes,
            notes,
            args.as_slice(),
            name,
        ),
        ExprKind::Call(Some(object), name, args) => {
            let found = receiver(alloc, world, scopes, notes, object.get())?;
            call_on(alloc, world, scopes, notes, args.as_slice(), &found, name)
        }
        ExprKind::New(name, args) => creation(alloc, world, scopes, notes, args.as_slice(), name),
        ExprKind::NewArray(tree, size) => sized(alloc, world, scopes, notes, tree, size.get()),
        ExprKind::NewItems(tree, items) => {
            filled(alloc, world, scopes, notes, tree, items.as_slice())
        }
        ExprKind::Unary(op, operand) => {
            let ty = unary_type(*op);
            check(alloc, world, scopes, notes, operand.get(), Need::Of(&ty)).and(Ok(Some(ty)))
        }
        ExprKind::Binary(op, left, right) => {
            if is_equality(*op) {
                let t = operand(alloc, world, scopes, notes, left.get())?;
                let u = operand(alloc, world, scopes, notes, right.get())?;
                return compared(alloc, world, notes, left.get(), right.get(), &t, &u, span).and(Ok(
                    Some(BOOLEAN),
                ));
            }
            let (need, ty) = binary_types(*op);
            check(alloc, world, scopes, notes, left.get(), Need::Of(&need))
                .and(check(alloc, world, scopes, notes, right.get(), Need::Of(&need)))
                .and(Ok(Some(ty)))
        }
        ExprKind::Assign(None, target, source) => {
            let ty = assigned(alloc, world, scopes, notes, target.get())?;
            check(alloc, world, scopes, notes, source.get(), need_like(&ty)).and(Ok(ty))
        }
        ExprKind::Assign(Some(_), target, source) => {
            let ty = counted(alloc, world, scopes, notes, target.get());
            check_int(alloc, world, scopes, notes, source.get()).and(ty)
        }
        ExprKind::Step {
            up: _,
            after: _,
            target,
        } => counted(alloc, world, scopes, notes, target.get()),
    }
}

/// What fills a variable.
#[cycle(values)]
pub fn fill(
    alloc: Global,
    world: &World,
    scopes: &Scopes<'_>,
    notes: &mut List<Note>,
    init: &Init,
    ty: &Option<Type_>,
) -> Result<(), AllocError>
    ensures { OnOk result (notes.new ≡ notes.old ++ (spec.filling init.now) (here world.now scopes.now) ty.now) }
{
    match init {
        Init::Value(e) => check(alloc, world, scopes, notes, e, need_like(ty)),
        Init::Items(items, span) => {
            list_mismatch(notes, need_like(ty), *span)?;
            let inner = element_if(alloc, ty)?;
            fill_all(alloc, world, scopes, notes, items.as_slice(), &inner)
        }
    }
}

/// The entries of a list in braces, where the array's elements have that type.
#[cycle(values)]
fn fill_all(
    alloc: Global,
    world: &World,
    scopes: &Scopes<'_>,
    notes: &mut List<Note>,
    items: &[Init],
    ty: &Option<Type_>,
) -> Result<(), AllocError>
    ensures { OnOk result (notes.new ≡ notes.old ++ spec.fillings (map spec.filling items.now) (here world.now scopes.now) ty.now) }
{
    for item in items {
        fill(alloc, world, scopes, notes, item, ty)?;
    }
    Ok(())
}
