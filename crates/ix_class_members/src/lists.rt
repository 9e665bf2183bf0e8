//! All fields, methods and constructors, in the order of the text. A method's number is its place; so is an instance field's, among its like.

ghost use Rattle.std.specs.Prelude.{◌≡◌, ◌++◌, ◌+◌, ◌<◌, ◌≤◌, ◌^◌, ◌&&◌, not, length, map, option_map, IfOk, OnOk};
ghost use Rattle.std.specs.HashMap.{get_by_text};
ghost use Rattle.ix_meaning.specs.Members as spec;
ghost use Rattle.ix_meaning.specs.Source.{members_in};
ghost use Rattle.ix_meaning.specs.Declarators as declared;
ghost use Rattle.ix_class_members.specs.Begun.{AllBegin, annotated, first_shown};

use crate::constant::constant;
use crate::declaration::element_claims;
use crate::declarators::{Annotations, Begun, declaration_of, field_annotations};
use crate::part::{Part, gathered};
use crate::types::{target_before, written_type};
use indexmap::IndexMap;
use ix_core::Type_;
use ix_meaning::{Field, Meaning, Signature};
use ix_text::{List, Text};
use ix_tree::{ClassDecl, LocalDecl, Member, MethodDecl};
use std::alloc::{AllocError, Global};

fn field_type(
    alloc: Global,
    classes: &IndexMap<String, u32>,
    own: &Annotations<'_>,
    decl: &LocalDecl,
) -> Result<Option<Type_>, AllocError>
    ensures { IfOk result (λ ty. ty ≡ spec.field_type (get_by_text classes.now) (annotated own.now decl.now)) }
{
    let ty = decl.ty.get();
    let mods = decl.mods.get();
    if mods.is_static {
        return Ok(written_type(classes, ty, List::new(alloc)));
    }
    let element = element_claims(alloc, target_before(ty), own.before.as_slice())?;
    Ok(written_type(classes, ty, element))
}

fn field_meaning(next: u32, decl: &LocalDecl) -> Option<Meaning>
    ensures { result ≡ spec.field_meaning next decl.now }
{
    if !decl.mods.get().is_static {
        return Some(Meaning::FieldNamed(next));
    }
    match constant(decl) {
        None => None,
        Some(n) => Some(Meaning::Constant(n)),
    }
}

/// A field of the class, with these annotations. If it is an instance field, its number is `next`.
pub fn field_of(
    alloc: Global,
    classes: &IndexMap<String, u32>,
    class: u32,
    next: u32,
    own: &Annotations<'_>,
    decl: &LocalDecl,
) -> Result<Field, AllocError>
    ensures { IfOk result (λ field. field ≡ spec.field_of (get_by_text classes.now) class next (annotated own.now decl.now)) }
{
    let ty = field_type(alloc, classes, own, decl)?;
    let name = Text::from_str(alloc, decl.name.text.as_str())?;
    let mods = decl.mods.get();
    Ok(Field {
        class,
        name,
        span: decl.name.span,
        ty,
        is_static: mods.is_static,
        is_final: mods.is_final,
        meaning: field_meaning(next, decl),
    })
}

/// A field behind one of a declaration that began so, or behind none.
fn next_field_of<'a>(
    alloc: Global,
    classes: &IndexMap<String, u32>,
    class: u32,
    next: u32,
    begun: &Option<Begun<'a>>,
    decl: &'a LocalDecl,
) -> Result<Field, AllocError>
    requires { AllBegin begun.now }
    ensures { IfOk result (λ field. field ≡ spec.field_of (get_by_text classes.now) class next (declared.field_in (option_map first_shown begun.now) decl.now)) }
{
    let own = field_annotations(alloc, begun, decl)?;
    field_of(alloc, classes, class, next, &own, decl)
}

/// Adds the fields of a class, and answers the number of the next instance field.
fn push_fields(
    alloc: Global,
    classes: &IndexMap<String, u32>,
    class: u32,
    first: u32,
    members: &[Member],
    fields: &mut List<Field>,
) -> Result<u32, AllocError>
    requires { first + length members.now < 2 ^ 32 }
    ensures { record {
      fields : OnOk result (fields.new ≡ fields.old ++ spec.fields_in (get_by_text classes.now) class first (declared.members members.now));
      next : IfOk result (λ next. next ≡ spec.next_fields first members.now);
      few : IfOk result (λ next. next ≤ first + length members.now);
    } }
{
    let mut next = first;
    let mut begun = None;
    for (i, member) in members.iter().enumerate() {
        match member {
            Member::Field(decl) => {
                let field = next_field_of(alloc, classes, class, next, &begun, decl)?;
                fields.push(field)?;
                if !decl.mods.get().is_static {
                    next += 1;
                }
                begun = declaration_of(alloc, begun, decl)?;
            }
            Member::Method(_) => {
                begun = None;
            }
        }
    }
    Ok(next)
}

/// All fields and constants.
pub fn fields(
    alloc: Global,
    classes: &IndexMap<String, u32>,
    decls: &[ClassDecl],
) -> Result<List<Field>, AllocError>
    requires { record {
      few : length decls.now < 2 ^ 32;
      members : members_in decls.now + 1 < 2 ^ 32;
    } }
    ensures { IfOk result (λ fields. fields ≡ spec.fields_from (get_by_text classes.now) 0 0 decls.now) }
{
    let mut fields = List::new(alloc);
    let mut next = 0;
    for (c, class) in decls.iter().enumerate() {
        next = push_fields(
            alloc,
            classes,
            c as u32,
            next,
            class.members.as_slice(),
            &mut fields,
        )?;
    }
    Ok(fields)
}

/// The type of a parameter; none where its class is unknown.
pub fn param_type(
    alloc: Global,
    classes: &IndexMap<String, u32>,
    decl: &LocalDecl,
) -> Result<Option<Type_>, AllocError>
    ensures { IfOk result (λ ty. ty ≡ spec.param_type (get_by_text classes.now) decl.now) }
{
    let ty = decl.ty.get();
    let before = gathered(alloc, Part::All, decl.mods.get().annots.as_slice())?;
    let element = element_claims(alloc, target_before(ty), before.as_slice())?;
    Ok(written_type(classes, ty, element))
}

fn param_types(
    alloc: Global,
    classes: &IndexMap<String, u32>,
    params: &[LocalDecl],
) -> Result<List<Option<Type_>>, AllocError>
    ensures { IfOk result (λ types. types ≡ map (spec.param_type (get_by_text classes.now)) params.now) }
{
    let mut types = List::new(alloc);
    for param in params {
        let ty = param_type(alloc, classes, param)?;
        types.push(ty)?;
    }
    Ok(types)
}

fn result_type(
    alloc: Global,
    classes: &IndexMap<String, u32>,
    decl: &MethodDecl,
) -> Result<Option<Type_>, AllocError>
    ensures { IfOk result (λ ty. ty ≡ spec.result_type (get_by_text classes.now) decl.now.mods.annots decl.now.result) }
{
    match &decl.result {
        None => Ok(Some(Type_::Void)),
        Some(ty) => {
            let before = gathered(alloc, Part::OfResult, decl.mods.annots.as_slice())?;
            let element = element_claims(alloc, target_before(ty), before.as_slice())?;
            Ok(written_type(classes, ty, element))
        }
    }
}

/// Whether a method is static; a constructor isn't.
fn is_static(decl: &MethodDecl) -> bool
    ensures { result ≡ (decl.now.mods.is_static && not decl.now.constructor) }
{
    decl.mods.is_static && !decl.constructor
}

/// A method or a constructor of the class.
pub fn method_of(
    alloc: Global,
    classes: &IndexMap<String, u32>,
    class: u32,
    decl: &MethodDecl,
) -> Result<Signature, AllocError>
    ensures { IfOk result (λ method. method ≡ spec.signature (get_by_text classes.now) class decl.now) }
{
    let name = Text::from_str(alloc, decl.name.text.as_str())?;
    let params = param_types(alloc, classes, decl.params.as_slice())?;
    let result = result_type(alloc, classes, decl)?;
    Ok(Signature {
        class,
        name,
        span: decl.name.span,
        constructor: decl.constructor,
        is_static: is_static(decl),
        is_private: decl.mods.is_private,
        params,
        result,
    })
}

/// Adds the methods and constructors of a class.
fn push_methods(
    alloc: Global,
    classes: &IndexMap<String, u32>,
    class: u32,
    members: &[Member],
    methods: &mut List<Signature>,
) -> Result<(), AllocError>
    ensures { OnOk result (methods.new ≡ methods.old ++ spec.methods_in (get_by_text classes.now) class members.now) }
{
    for member in members {
        if let Member::Method(decl) = member {
            let method = method_of(alloc, classes, class, decl)?;
            methods.push(method)?;
        }
    }
    Ok(())
}

/// All methods and constructors.
pub fn methods(
    alloc: Global,
    classes: &IndexMap<String, u32>,
    decls: &[ClassDecl],
) -> Result<List<Signature>, AllocError>
    requires { length decls.now < 2 ^ 32 }
    ensures { IfOk result (λ methods. methods ≡ spec.methods_from (get_by_text classes.now) 0 decls.now) }
{
    let mut methods = List::new(alloc);
    for (c, class) in decls.iter().enumerate() {
        push_methods(
            alloc,
            classes,
            c as u32,
            class.members.as_slice(),
            &mut methods,
        )?;
    }
    Ok(methods)
}
