//! Parameters, fields and classes.
ghost use Rattle.std.specs.Prelude.{◌≡◌, ◌++◌, ◌∷◌, [], IfOk, OnOk};
ghost use Rattle.ix_symbols.specs.Numbered.{shown};
ghost use Rattle.ix_class_members.specs.World.{shown as shown_world};
ghost use Rattle.ix_plain.specs.Members as spec;
ghost use Rattle.ix_plain.specs.Scope as scope;

use crate::number::{has_constructor, next_behind, next_field};
use ix_class_members::World;
use ix_core::{Claim, Class, Field, Local, Type_};
use ix_lower_expressions::copied_claims;
use ix_lower_statements::{copied_text, one_more};
use ix_plain::Next;
use ix_symbols::{Table, copied};
use ix_text::{List, Span};
use ix_tree::{ClassDecl, LocalDecl, Member};
use std::alloc::{AllocError, Global};

/// The type of what is declared at that place.
pub fn type_declared(alloc: Global, table: &Table, span: Span) -> Result<Type_, AllocError>
    ensures { IfOk result (λ ty. ty ≡ scope.declared_type ((shown table.now).declared span)) }
{
    match table.declared(span) {
        Some(declared) => copied(alloc, &declared.ty),
        None => Ok(Type_::Void),
    }
}

/// The claims of what is declared at that place.
pub fn claims_declared(alloc: Global, table: &Table, span: Span) -> Result<List<Claim>, AllocError>
    ensures { IfOk result (λ claims. claims ≡ scope.declared_claims ((shown table.now).declared span)) }
{
    match table.declared(span) {
        Some(declared) => copied_claims(alloc, declared.claims.list.as_slice()),
        None => Ok(List::new(alloc)),
    }
}

/// Whether the method that is declared at that place is marked side-effect-free.
pub fn is_effect_free(table: &Table, span: Span) -> bool
    ensures { result ≡ scope.is_effect_free ((shown table.now).declared span) }
{
    match table.declared(span) {
        Some(declared) => declared.claims.effect_free,
        None => false,
    }
}

// ---- parameters

/// The parameters, in the slots from that one on.
pub fn params(
    alloc: Global,
    table: &Table,
    first: u32,
    decls: &[LocalDecl],
) -> Result<List<Local>, AllocError>
    ensures { IfOk result (λ params. params ≡ spec.params_from (shown table.now) [] first decls.now) }
{
    let mut params = List::new(alloc);
    let mut slot = first;
    for decl in decls {
        let name = copied_text(alloc, &decl.name.text)?;
        let claims = claims_declared(alloc, table, decl.name.span)?;
        params.push(Local { slot, name, claims })?;
        slot = one_more(slot);
    }
    Ok(params)
}

/// The types of the parameters.
pub fn param_types(
    alloc: Global,
    table: &Table,
    decls: &[LocalDecl],
) -> Result<List<Type_>, AllocError>
    ensures { IfOk result (λ types. types ≡ spec.param_types_from (shown table.now) [] decls.now) }
{
    let mut types = List::new(alloc);
    for decl in decls {
        types.push(type_declared(alloc, table, decl.name.span)?)?;
    }
    Ok(types)
}

/// The first slot behind the parameters.
pub fn slot_behind(first: u32, decls: &[LocalDecl]) -> u32
    ensures { result ≡ spec.slot_behind first decls.now }
{
    let mut slot = first;
    for decl in decls {
        slot = one_more(slot);
    }
    slot
}

// ---- fields

fn field_of(alloc: Global, table: &Table, class: u32, decl: &LocalDecl) -> Result<Field, AllocError>
    ensures { IfOk result (λ field. field ≡ spec.field_of (shown table.now) class decl.now) }
{
    let name = copied_text(alloc, &decl.name.text)?;
    let ty = type_declared(alloc, table, decl.name.span)?;
    let claims = claims_declared(alloc, table, decl.name.span)?;
    Ok(Field {
        name,
        class,
        ty,
        is_final: decl.mods.get().is_final,
        claims,
    })
}

fn add_field(
    alloc: Global,
    table: &Table,
    fields: &mut List<Field>,
    class: u32,
    decl: &LocalDecl,
) -> Result<(), AllocError>
    ensures { OnOk result (fields.new ≡ spec.with_field (shown table.now) fields.old class decl.now) }
{
    if decl.mods.get().is_static {
        return Ok(());
    }
    let field = field_of(alloc, table, class, decl)?;
    fields.push(field).map_err(AllocError::from)
}

fn add_fields(
    alloc: Global,
    table: &Table,
    fields: &mut List<Field>,
    class: u32,
    members: &[Member],
) -> Result<(), AllocError>
    ensures { OnOk result (fields.new ≡ spec.fields_in (shown table.now) fields.old class members.now) }
{
    for member in members {
        if let Member::Field(decl) = member {
            add_field(alloc, table, fields, class, decl)?;
        }
    }
    Ok(())
}

/// The instance fields of all classes.
pub fn fields(alloc: Global, table: &Table, decls: &[ClassDecl]) -> Result<List<Field>, AllocError>
    ensures { IfOk result (λ fields. fields ≡ spec.fields_from (shown table.now) [] 0 decls.now) }
{
    let mut fields = List::new(alloc);
    let mut class = 0;
    for decl in decls {
        add_fields(alloc, table, &mut fields, class, decl.members.as_slice())?;
        class = one_more(class);
    }
    Ok(fields)
}

// ---- classes

fn add_own_field(fields: &mut List<u32>, next: u32, decl: &LocalDecl) -> Result<(), AllocError>
    ensures { OnOk result (fields.new ≡ spec.with_own_field fields.old next decl.now) }
{
    if decl.mods.get().is_static {
        return Ok(());
    }
    fields.push(next).map_err(AllocError::from)
}

fn own_fields(alloc: Global, first: u32, members: &[Member]) -> Result<List<u32>, AllocError>
    ensures { IfOk result (λ fields. fields ≡ spec.own_fields [] first members.now) }
{
    let mut fields = List::new(alloc);
    let mut next = first;
    for member in members {
        if let Member::Field(decl) = member {
            add_own_field(&mut fields, next, decl)?;
            next = next_field(next, decl);
        }
    }
    Ok(fields)
}

fn own_methods(alloc: Global, first: u32, members: &[Member]) -> Result<List<u32>, AllocError>
    ensures { IfOk result (λ methods. methods ≡ spec.own_methods [] first members.now) }
{
    let mut methods = List::new(alloc);
    let mut next = first;
    for member in members {
        if let Member::Method(_) = member {
            methods.push(next)?;
            next = one_more(next);
        }
    }
    Ok(methods)
}

fn add_default(methods: &mut List<u32>, default: u32, members: &[Member]) -> Result<(), AllocError>
    ensures { OnOk result (methods.new ≡ spec.with_default methods.old default members.now) }
{
    if has_constructor(members) {
        return Ok(());
    }
    methods.push(default).map_err(AllocError::from)
}

fn class_of(
    alloc: Global,
    next: Next,
    parent: Option<u32>,
    decl: &ClassDecl,
) -> Result<Class, AllocError>
    ensures { IfOk result (λ class. class ≡ spec.class_of next parent decl.now) }
{
    let members = decl.members.as_slice();
    let name = copied_text(alloc, &decl.name.text)?;
    let fields = own_fields(alloc, next.field, members)?;
    let mut methods = own_methods(alloc, next.method, members)?;
    add_default(&mut methods, next.default, members).and(Ok(Class {
        name,
        parent,
        fields,
        methods,
    }))
}

/// The classes, with the numbers of their members.
pub fn classes(
    alloc: Global,
    world: &World,
    first: Next,
    decls: &[ClassDecl],
) -> Result<List<Class>, AllocError>
    ensures { IfOk result (λ classes. classes ≡ spec.classes_from [] first (shown_world world.now).parent decls.now) }
{
    let mut classes = List::new(alloc);
    let mut next = first;
    for decl in decls {
        classes.push(class_of(alloc, next, world.parent(next.class), decl)?)?;
        next = next_behind(next, decl);
    }
    Ok(classes)
}
