//! What the name of a variable means (JLS 6.5), and what stands before a dot.

ghost use Rattle.std.specs.Prelude.{◌≡◌, ◌++◌, ◌∷◌, IfOk, OnOk};
ghost use Rattle.ix_meaning.specs.Members as members;
ghost use Rattle.ix_meaning.specs.Values as spec;
ghost use Rattle.ix_expression_types.specs.Here.{here, known_as};
ghost use Rattle.ix_expression_types.specs.Objects as objects;
ghost use Rattle.ix_class_members.specs.World as tables;

use crate::rules::{final_assigned, not_static, note_type, note_use, wrong, wrong_if};
use crate::scope::{Known, Scopes};
use ix_class_members::World;
use ix_core::Type_;
use ix_meaning::{Field, Meaning, Note, Rule};
use ix_symbols::{copied_option, is_reference};
use ix_text::{List, Span};
use ix_tree::Ident;
use std::alloc::{AllocError, Global};

/// What stands before a dot.
pub enum Object {
    /// What has no members.
    Nothing,
    OfClass(u32),
    Value(Type_),
}

impl Drop for Object {
    fn drop(self) {
        match self {
            Object::Nothing => {}
            Object::OfClass(_) => {}
            Object::Value(ty) => drop(ty),
        }
    }
}

pub fn field_use(
    scopes: &Scopes<'_>,
    notes: &mut List<Note>,
    assigned: bool,
    through_this: bool,
    span: Span,
    field: &Field,
) -> Result<(), AllocError>
    ensures { OnOk result (notes.new ≡ notes.old ++ spec.field_use_in scopes.now.in_constructor scopes.now.class assigned through_this span field.now) }
{
    note_use(notes, field.meaning, span).and(final_assigned(
        scopes,
        notes,
        assigned,
        through_this,
        field,
        span,
    ))
}

fn bare_field(
    alloc: Global,
    world: &World,
    scopes: &Scopes<'_>,
    notes: &mut List<Note>,
    assigned: bool,
    name: &Ident,
) -> Result<Option<Type_>, AllocError>
    ensures { record {
      ty : IfOk result (λ t. t ≡ (spec.bare_field (here world.now scopes.now) assigned name.now.span (members.field_named (tables.shown world.now) scopes.now.class name.now.text)).ty);
      notes : OnOk result (notes.new ≡ notes.old ++ (spec.bare_field (here world.now scopes.now) assigned name.now.span (members.field_named (tables.shown world.now) scopes.now.class name.now.text)).notes);
    } }
{
    match world.field(scopes.class, name.text.as_str()) {
        None => wrong(notes, Rule::UnknownName, name.span).and(Ok(None)),
        Some(field) => not_static(scopes, notes, field.is_static, name.span)
            .and(field_use(scopes, notes, assigned, true, name.span, field))
            .and(copied_option(alloc, &field.ty)),
    }
}

fn known_use(
    alloc: Global,
    notes: &mut List<Note>,
    assigned: bool,
    name: &Ident,
    known: Known<'_>,
) -> Result<Option<Type_>, AllocError>
    ensures { record {
      ty : IfOk result (λ t. t ≡ known.entry.ty.now);
      notes : OnOk result (notes.new ≡ notes.old ++ spec.known_notes assigned (known_as name.now.text known.entry) name.now.span);
    } }
{
    note_use(notes, Some(known.meaning), name.span)
        .and(wrong_if(
            notes,
            assigned && known.is_fixed,
            Rule::FinalAssigned,
            name.span,
        ))
        .and(copied_option(alloc, known.ty))
}

/// A name as a variable.
pub fn variable(
    alloc: Global,
    world: &World,
    scopes: &Scopes<'_>,
    notes: &mut List<Note>,
    assigned: bool,
    name: &Ident,
) -> Result<Option<Type_>, AllocError>
    ensures { record {
      ty : IfOk result (λ t. t ≡ (spec.variable (here world.now scopes.now) assigned name.now).ty);
      notes : OnOk result (notes.new ≡ notes.old ++ (spec.variable (here world.now scopes.now) assigned name.now).notes);
    } }
{
    if scopes.is_pending(name.text.as_str()) {
        return wrong(notes, Rule::UnknownName, name.span).and(Ok(None));
    }
    match scopes.meant(name.text.as_str()) {
        Some(known) => known_use(alloc, notes, assigned, name, known),
        None => bare_field(alloc, world, scopes, notes, assigned, name),
    }
}

fn is_variable(world: &World, scopes: &Scopes<'_>, name: &str) -> bool
    ensures { result ≡ spec.is_variable (here world.now scopes.now) name.now }
{
    scopes.meant(name).is_some() || world.field(scopes.class, name).is_some()
}

/// What an expression with that type is before a dot.
pub fn object_of(
    alloc: Global,
    notes: &mut List<Note>,
    ty: Option<Type_>,
    span: Span,
) -> Result<Object, AllocError>
    ensures { record {
      object : IfOk result (λ o. objects.shown o ≡ spec.object_for ty);
      notes : OnOk result (notes.new ≡ notes.old ++ spec.object_notes ty span);
    } }
{
    note_type(alloc, notes, &ty, span)?;
    match ty {
        None => Ok(Object::Nothing),
        Some(ty) => {
            if is_reference(&ty) {
                return Ok(Object::Value(ty));
            }
            wrong(notes, Rule::TypeMismatch, span).and(Ok(Object::Nothing))
        }
    }
}

pub fn name_before_dot(
    alloc: Global,
    world: &World,
    scopes: &Scopes<'_>,
    notes: &mut List<Note>,
    name: &Ident,
    span: Span,
) -> Result<Object, AllocError>
    ensures { record {
      object : IfOk result (λ o. objects.shown o ≡ (spec.name_before_dot (here world.now scopes.now) name.now span).object);
      notes : OnOk result (notes.new ≡ notes.old ++ (spec.name_before_dot (here world.now scopes.now) name.now span).notes);
    } }
{
    if !is_variable(world, scopes, name.text.as_str()) {
        if let Some(class) = world.class(name.text.as_str()) {
            return note_use(notes, Some(Meaning::ClassNamed(class)), name.span).and(Ok(
                Object::OfClass(class),
            ));
        }
    }
    let ty = variable(alloc, world, scopes, notes, false, name)?;
    object_of(alloc, notes, ty, span)
}
