//! Selections (JLS 15.11), and what else is read off the types of parts.

ghost use Rattle.std.specs.Prelude.{◌≡◌, ◌++◌, true, IfOk, OnOk};
ghost use Rattle.ix_meaning.specs.Members as members;
ghost use Rattle.ix_meaning.specs.Types as types;
ghost use Rattle.ix_meaning.specs.Scope.{Scope};
ghost use Rattle.ix_meaning.specs.Values as spec;
ghost use Rattle.ix_text.specs.declared.span.Span.{Span};
ghost use Rattle.ix_expression_types.specs.Operators.{equates};
ghost use Rattle.ix_expression_types.specs.Here.{here};
ghost use Rattle.ix_expression_types.specs.Objects as objects;
ghost use Rattle.ix_class_members.specs.World as tables;

use crate::names::{Object, field_use};
use crate::rules::{cannot_compare, note_use, null_mismatch, wrong, wrong_if};
use crate::scope::Scopes;
use ix_class_members::World;
use ix_core::{Base, Type_};
use ix_meaning::{Meaning, Note, Rule};
use ix_num::Rel;
use ix_symbols::{INT, copied_option, element, need_like};
use ix_text::{List, Span};
use ix_tree::{BinaryOp, Expr, ExprKind, Ident};
use std::alloc::{AllocError, Global};

pub fn is_null(e: &Expr) -> bool
    ensures { result ≡ (spec.reading e.now).is_null }
{
    match &e.kind {
        ExprKind::Null => true,
        _ => false,
    }
}

pub fn is_this(e: &Expr) -> bool
    ensures { result ≡ (spec.reading e.now).is_this }
{
    match &e.kind {
        ExprKind::This => true,
        _ => false,
    }
}

pub fn element_in(
    alloc: Global,
    notes: &mut List<Note>,
    ty: &Option<Type_>,
    span: Span,
) -> Result<Option<Type_>, AllocError>
    ensures { record {
      notes : OnOk result (notes.new ≡ notes.old ++ spec.no_array ty.now span);
      ty : IfOk result (λ t. t ≡ types.element_in ty.now);
    } }
{
    match ty {
        None => Ok(None),
        Some(ty) => {
            let inner = element(alloc, ty)?;
            wrong_if(notes, inner.is_none(), Rule::TypeMismatch, span).and(Ok(inner))
        }
    }
}

fn instance_field(
    alloc: Global,
    world: &World,
    scopes: &Scopes<'_>,
    notes: &mut List<Note>,
    class: u32,
    name: &Ident,
    assigned: bool,
    through_this: bool,
) -> Result<Option<Type_>, AllocError>
    ensures { record {
      ty : IfOk result (λ t. t ≡ (spec.instance_field (here world.now scopes.now) assigned through_this name.now (members.field_named (tables.shown world.now) class name.now.text)).ty);
      notes : OnOk result (notes.new ≡ notes.old ++ (spec.instance_field (here world.now scopes.now) assigned through_this name.now (members.field_named (tables.shown world.now) class name.now.text)).notes);
    } }
{
    match world.field(class, name.text.as_str()) {
        None => wrong(notes, Rule::UnknownName, name.span).and(Ok(None)),
        Some(field) => {
            field_use(scopes, notes, assigned, through_this, name.span, field).and(copied_option(
                alloc, &field.ty,
            ))
        }
    }
}

fn class_field(
    alloc: Global,
    world: &World,
    scopes: &Scopes<'_>,
    notes: &mut List<Note>,
    class: u32,
    name: &Ident,
    assigned: bool,
) -> Result<Option<Type_>, AllocError>
    ensures { record {
      ty : IfOk result (λ t. t ≡ (spec.class_field (here world.now scopes.now) assigned name.now (members.field_named (tables.shown world.now) class name.now.text)).ty);
      notes : OnOk result (notes.new ≡ notes.old ++ (spec.class_field (here world.now scopes.now) assigned name.now (members.field_named (tables.shown world.now) class name.now.text)).notes);
    } }
{
    match world.field(class, name.text.as_str()) {
        None => wrong(notes, Rule::UnknownName, name.span).and(Ok(None)),
        Some(field) => {
            wrong_if(notes, !field.is_static, Rule::NotStatic, name.span)
                .and(field_use(scopes, notes, assigned, false, name.span, field))
                .and(copied_option(alloc, &field.ty))
        }
    }
}

fn array_length(
    notes: &mut List<Note>,
    name: &Ident,
    assigned: bool,
) -> Result<Option<Type_>, AllocError>
    ensures { record {
      ty : IfOk result (λ t. t ≡ (spec.array_length assigned name.now).ty);
      notes : OnOk result (notes.new ≡ notes.old ++ (spec.array_length assigned name.now).notes);
    } }
{
    if name.text.as_str() == "length" {
        return note_use(notes, Some(Meaning::LengthOf), name.span)
            .and(wrong_if(notes, assigned, Rule::NotAssignable, name.span))
            .and(Ok(Some(INT)));
    }
    wrong(notes, Rule::UnknownName, name.span).and(Ok(None))
}

pub fn selected(
    alloc: Global,
    world: &World,
    scopes: &Scopes<'_>,
    notes: &mut List<Note>,
    object: &Object,
    name: &Ident,
    assigned: bool,
    through_this: bool,
) -> Result<Option<Type_>, AllocError>
    ensures { record {
      ty : IfOk result (λ t. t ≡ (spec.selected (here world.now scopes.now) assigned through_this name.now (objects.shown object.now)).ty);
      notes : OnOk result (notes.new ≡ notes.old ++ (spec.selected (here world.now scopes.now) assigned through_this name.now (objects.shown object.now)).notes);
    } }
{
    match object {
        Object::Nothing => Ok(None),
        Object::OfClass(class) => class_field(alloc, world, scopes, notes, *class, name, assigned),
        Object::Value(Type_::Plain(Base::Class(class))) => {
            instance_field(
                alloc,
                world,
                scopes,
                notes,
                *class,
                name,
                assigned,
                through_this,
            )
        }
        Object::Value(_) => array_length(notes, name, assigned),
    }
}

fn is_equal_or_not(rel: Rel) -> bool
    ensures { result ≡ spec.is_equality rel }
{
    match rel {
        Rel::Eq => true,
        Rel::Ne => true,
        _ => false,
    }
}

/// Whether the operator is `==` or `!=`.
pub fn is_equality(op: BinaryOp) -> bool
    ensures { record {
      is : result ≡ equates op;
      then : (a b : spec.Reading) (s : Scope) (p : Span) → result ≡ true → spec.binary op a b s p ≡ spec.equality a b s p;
    } }
{
    match op {
        BinaryOp::Compare(rel) => is_equal_or_not(rel),
        _ => false,
    }
}

/// The operands of `==` or `!=`, whose types are known.
pub fn compared(
    alloc: Global,
    world: &World,
    notes: &mut List<Note>,
    a: &Expr,
    b: &Expr,
    t: &Option<Type_>,
    u: &Option<Type_>,
    span: Span,
) -> Result<(), AllocError>
    ensures { OnOk result (notes.new ≡ notes.old ++ spec.compared (tables.shown world.now) (spec.reading a.now) (spec.reading b.now) t.now u.now span) }
{
    if is_null(a) {
        if is_null(b) {
            return wrong(notes, Rule::TypeMismatch, a.span).and(wrong(
                notes,
                Rule::TypeMismatch,
                b.span,
            ));
        }
        return null_mismatch(alloc, notes, need_like(u), a.span);
    }
    if is_null(b) {
        return null_mismatch(alloc, notes, need_like(t), b.span);
    }
    cannot_compare(world, notes, t, u, span)
}

pub fn element_if(alloc: Global, ty: &Option<Type_>) -> Result<Option<Type_>, AllocError>
    ensures { IfOk result (λ t. t ≡ types.element_in ty.now) }
{
    match ty {
        None => Ok(None),
        Some(ty) => element(alloc, ty),
    }
}
