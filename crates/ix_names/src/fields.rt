//! Fields (JLS 8.3).

ghost use Rattle.std.specs.Prelude.{◌≡◌, ◌++◌, true, if◌then◌else◌, [], IfOk, OnOk};
ghost use Rattle.ix_meaning.specs.Bodies.{init_notes};
ghost use Rattle.ix_meaning.specs.Members as members;
ghost use Rattle.ix_meaning.specs.Source as spec;
ghost use Rattle.ix_expression_types.specs.Here.{here};
ghost use Rattle.ix_class_members.specs.World.{shown};
ghost use Rattle.ix_class_members.specs.Begun.{annotated};
ghost use Rattle.ix_names.specs.Places.{at};
ghost use Rattle.ix_names.specs.Declarations as parts;

use crate::locals::initialiser;
use crate::places::member_scopes;
use ix_class_members::{
    Annotations, Declaration, World, field_of, hides, of_variable, static_field, variable,
};
use ix_core::{Claim, Name, Type_};
use ix_expression_types::{InAnnotation, Scopes, note_declared, wrong_if};
use ix_meaning::{Field, Meaning, Note, Rule};
use ix_text::List;
use ix_tree::{ClassDecl, Init, LocalDecl};
use std::alloc::{AllocError, Global};

fn is_refused(field: &Field) -> bool
    ensures { result ≡ spec.is_refused field.now }
{
    field.is_static && field.meaning.is_none()
}

fn field_number(meaning: Option<Meaning>) -> u32
    ensures { result ≡ spec.field_number meaning }
{
    match meaning {
        Some(Meaning::FieldNamed(number)) => number,
        _ => 0,
    }
}

fn instance_declaration<'p>(
    alloc: Global,
    world: &'p World,
    scopes: &'p Scopes<'_>,
    notes: &mut List<Note>,
    number: u32,
    own: &Annotations<'_>,
    decl: &LocalDecl,
) -> Result<Declaration, AllocError>
    ensures { record {
      claims : IfOk result (λ d. d.claims ≡ (parts.instance_declaration (here world.now scopes.now) number (annotated own.now decl.now)).claims);
      notes : OnOk result (notes.new ≡ notes.old ++ (parts.instance_declaration (here world.now scopes.now) number (annotated own.now decl.now)).notes);
    } }
{
    let names = InAnnotation {
        world,
        scopes,
        own: Some(Name::FieldNamed(number)),
        own_local: None,
    };
    variable(
        alloc,
        &world.table,
        notes,
        &names,
        own.before.as_slice(),
        own.behind.as_slice(),
        decl.ty.get(),
    )
}

/// What an instance field declares, which no parameter is in scope of.
fn declared_at(
    alloc: Global,
    world: &World,
    notes: &mut List<Note>,
    class: u32,
    number: u32,
    own: &Annotations<'_>,
    decl: &LocalDecl,
) -> Result<Declaration, AllocError>
    ensures claims { IfOk result (λ d. d.claims ≡ (parts.instance_declaration (parts.member_scope (shown world.now) class true) number (annotated own.now decl.now)).claims) }
    ensures notes { OnOk result (notes.new ≡ notes.old ++ (parts.instance_declaration (parts.member_scope (shown world.now) class true) number (annotated own.now decl.now)).notes) }
{
    let scopes = member_scopes(alloc, class, true);
    instance_declaration(alloc, world, &scopes, notes, number, own, decl)
}

fn field_declaration(
    alloc: Global,
    world: &World,
    notes: &mut List<Note>,
    number: u32,
    class: &ClassDecl,
    field: &Field,
    own: &Annotations<'_>,
    decl: &LocalDecl,
) -> Result<Declaration, AllocError>
    ensures { record {
      claims : IfOk result (λ d. d.claims ≡ (spec.field_declaration (at world.now number class.now) field.now (annotated own.now decl.now)).claims);
      notes : OnOk result (notes.new ≡ notes.old ++ (spec.field_declaration (at world.now number class.now) field.now (annotated own.now decl.now)).notes);
    } }
{
    if field.is_static {
        return static_field(
            alloc,
            &world.table,
            notes,
            own.before.as_slice(),
            own.behind.as_slice(),
            decl.ty.get(),
        );
    }
    declared_at(
        alloc,
        world,
        notes,
        number,
        field_number(field.meaning),
        own,
        decl,
    )
}

/// The claims of a field; a static field has none.
fn own_claims(alloc: Global, field: &Field, claims: List<Claim>) -> List<Claim>
    ensures { result ≡ (if field.now.is_static then [] else claims) }
{
    if field.is_static {
        return List::new(alloc);
    }
    claims
}

/// The initialiser of a field, which no parameter is in scope of.
fn filled(
    alloc: Global,
    world: &World,
    notes: &mut List<Note>,
    class: u32,
    has_object: bool,
    init: &Option<Init>,
    ty: &Option<Type_>,
) -> Result<(), AllocError>
    ensures { OnOk result (notes.new ≡ notes.old ++ init_notes init.now (parts.member_scope (shown world.now) class has_object) ty.now) }
{
    let scopes = member_scopes(alloc, class, has_object);
    initialiser(alloc, world, &scopes, notes, init, ty)
}

fn declared(
    alloc: Global,
    world: &World,
    notes: &mut List<Note>,
    number: u32,
    class: &ClassDecl,
    field: &Field,
    own: &Annotations<'_>,
    decl: &LocalDecl,
) -> Result<(), AllocError>
    ensures { OnOk result (notes.new ≡ notes.old ++ spec.field_notes (at world.now number class.now) field.now (annotated own.now decl.now)) }
{
    let span = decl.name.span;
    wrong_if(notes, is_refused(field), Rule::NotStatic, span)?;
    wrong_if(notes, hides(world, field), Rule::DuplicateName, span)?;
    let Declaration { ty: _, claims } = field_declaration(
        alloc, world, notes, number, class, field, own, decl,
    )?;
    let claims = of_variable(alloc, own_claims(alloc, field, claims));
    note_declared(alloc, notes, span, &field.ty, claims)?;
    filled(
        alloc,
        world,
        notes,
        number,
        !field.is_static,
        &decl.init,
        &field.ty,
    )
}

/// Notes a field with its annotations; `next` is the number of the next instance field.
pub fn field(
    alloc: Global,
    world: &World,
    notes: &mut List<Note>,
    number: u32,
    class: &ClassDecl,
    next: u32,
    own: &Annotations<'_>,
    decl: &LocalDecl,
) -> Result<(), AllocError>
    ensures { OnOk result (notes.new ≡ notes.old ++ spec.field_notes (at world.now number class.now) (members.field_of (shown world.now).class number next (annotated own.now decl.now)) (annotated own.now decl.now)) }
{
    let field = field_of(alloc, &world.table, number, next, own, decl)?;
    declared(alloc, world, notes, number, class, &field, own, decl)
}
