//! The rules on names and types: each notes its error where it is broken.

ghost use Rattle.std.specs.Prelude.{◌≡◌, ◌++◌, OnOk, Some, not, ◌&&◌};
ghost use Rattle.ix_meaning.specs.Bodies.{declares_note};
ghost use Rattle.ix_meaning.specs.Rules as spec;
ghost use Rattle.ix_meaning.specs.declared.note.Rule.TheVariants as rule;
ghost use Rattle.ix_meaning.specs.Types as types;
ghost use Rattle.ix_meaning.specs.Values as values;
ghost use Rattle.ix_symbols.specs.Needs as needs;
ghost use Rattle.ix_class_members.specs.World as tables;

use crate::scope::Scopes;
use ix_annot::Claims;
use ix_class_members::World;
use ix_core::{Base, Type_};
use ix_meaning::{Declared, Field, Meaning, NameError, Note, Rule};
use ix_symbols::{Need, copied, copied_option, is_among, is_primitive, is_reference, same_type};
use ix_text::{List, Span};
use std::alloc::{AllocError, Global};

/// Notes that the rule is broken there.
pub fn wrong(notes: &mut List<Note>, rule: Rule, span: Span) -> Result<(), AllocError>
    ensures { OnOk result (notes.new ≡ notes.old ++ types.wrong rule span) }
{
    notes
        .push(Note::Wrong(NameError { rule, span }))
        .map_err(AllocError::from)
}

/// Notes that the rule is broken there, if it is.
pub fn wrong_if(
    notes: &mut List<Note>,
    broken: bool,
    rule: Rule,
    span: Span,
) -> Result<(), AllocError>
    ensures { OnOk result (notes.new ≡ notes.old ++ types.wrong_if broken rule span) }
{
    if broken {
        wrong(notes, rule, span)
    } else {
        Ok(())
    }
}

/// Notes what the use at that place means, if it means something.
pub fn note_use(
    notes: &mut List<Note>,
    meaning: Option<Meaning>,
    span: Span,
) -> Result<(), AllocError>
    ensures { OnOk result (notes.new ≡ notes.old ++ spec.use_of meaning span) }
{
    match meaning {
        None => Ok(()),
        Some(meaning) => notes
            .push(Note::Use(span, meaning))
            .map_err(AllocError::from),
    }
}

fn note_known_type(
    alloc: Global,
    notes: &mut List<Note>,
    ty: &Type_,
    span: Span,
) -> Result<(), AllocError>
    ensures { OnOk result (notes.new ≡ notes.old ++ types.type_note (Some ty.now) span) }
{
    let ty = copied(alloc, ty)?;
    notes.push(Note::Typed(span, ty)).map_err(AllocError::from)
}

/// Notes the type of the expression at that place, if it has one.
pub fn note_type(
    alloc: Global,
    notes: &mut List<Note>,
    ty: &Option<Type_>,
    span: Span,
) -> Result<(), AllocError>
    ensures { OnOk result (notes.new ≡ notes.old ++ types.type_note ty.now span) }
{
    match ty {
        None => Ok(()),
        Some(ty) => note_known_type(alloc, notes, ty, span),
    }
}

/// Notes what the declaration of the name at that place says, if it has a type.
pub fn note_declared(
    alloc: Global,
    notes: &mut List<Note>,
    span: Span,
    ty: &Option<Type_>,
    claims: Claims,
) -> Result<(), AllocError>
    ensures { OnOk result (notes.new ≡ notes.old ++ declares_note span ty.now claims) }
{
    match copied_option(alloc, ty)? {
        None => Ok(()),
        Some(ty) => notes
            .push(Note::Declares(span, Declared { ty, claims }))
            .map_err(AllocError::from),
    }
}

fn is_subclass(world: &World, t: &Type_, need: &Type_) -> bool
    ensures { result ≡ types.is_subclass (tables.shown world.now).supers t.now need.now }
{
    match (t, need) {
        (Type_::Plain(Base::Class(c)), Type_::Plain(Base::Class(d))) => {
            is_among(*d, world.supers(*c))
        }
        _ => false,
    }
}

fn fits(world: &World, t: &Type_, need: &Type_) -> bool
    ensures { result ≡ types.fits (tables.shown world.now).supers t.now need.now }
{
    same_type(t, need) || is_subclass(world, t, need)
}

fn can_compare(world: &World, t: &Type_, u: &Type_) -> bool
    ensures { result ≡ types.can_compare (tables.shown world.now).supers t.now u.now }
{
    (is_primitive(t) && same_type(t, u))
        || (is_reference(t) && is_reference(u) && (fits(world, t, u) || fits(world, u, t)))
}

fn has_fitting_type(world: &World, need: Need<'_>, t: &Type_) -> bool
    ensures { result ≡ spec.has_fitting_type (tables.shown world.now) (needs.shown need.entry) t.now }
{
    match need {
        Need::Unknown => true,
        Need::Never => false,
        Need::Printed => is_primitive(t),
        Need::Of(need) => fits(world, t, need),
    }
}

/// RULE type.mismatch: an expression hasn't the type that its place needs.
pub fn type_mismatch(
    world: &World,
    notes: &mut List<Note>,
    need: Need<'_>,
    ty: &Option<Type_>,
    span: Span,
) -> Result<(), AllocError>
    ensures { OnOk result (notes.new ≡ notes.old ++ spec.type_mismatch (tables.shown world.now) (needs.shown need.entry) ty.now span) }
{
    match ty {
        None => Ok(()),
        Some(ty) => {
            let broken = !has_fitting_type(world, need, ty);
            wrong_if(notes, broken, Rule::TypeMismatch, span)
        }
    }
}

/// RULE type.mismatch, for `null`: its place needs no reference. Where it needs one, that is the type of the `null`.
pub fn null_mismatch(
    alloc: Global,
    notes: &mut List<Note>,
    need: Need<'_>,
    span: Span,
) -> Result<(), AllocError>
    ensures { OnOk result (notes.new ≡ notes.old ++ (values.null_at (needs.shown need.entry) span).notes) }
{
    match need {
        Need::Unknown => Ok(()),
        Need::Of(need) if is_reference(need) => note_known_type(alloc, notes, need, span),
        _ => wrong(notes, Rule::TypeMismatch, span),
    }
}

/// RULE type.mismatch, for the operands of `==` and `!=`
pub fn cannot_compare(
    world: &World,
    notes: &mut List<Note>,
    t: &Option<Type_>,
    u: &Option<Type_>,
    span: Span,
) -> Result<(), AllocError>
    ensures { OnOk result (notes.new ≡ notes.old ++ spec.cannot_compare (tables.shown world.now) t.now u.now span) }
{
    match (t, u) {
        (Some(t), Some(u)) => {
            let broken = !can_compare(world, t, u);
            wrong_if(notes, broken, Rule::TypeMismatch, span)
        }
        _ => Ok(()),
    }
}

/// RULE type.mismatch, for a list in braces: its place needs no array.
pub fn list_mismatch(notes: &mut List<Note>, need: Need<'_>, span: Span) -> Result<(), AllocError>
    ensures { OnOk result (notes.new ≡ notes.old ++ spec.list_mismatch (needs.shown need.entry) span) }
{
    match need {
        Need::Of(Type_::Array { .. }) => Ok(()),
        Need::Of(_) => wrong(notes, Rule::TypeMismatch, span),
        _ => Ok(()),
    }
}

/// RULE not.static: `this` or a member of it is used where there is no object.
pub fn not_static(
    scopes: &Scopes<'_>,
    notes: &mut List<Note>,
    is_static: bool,
    span: Span,
) -> Result<(), AllocError>
    ensures { OnOk result (notes.new ≡ notes.old ++ types.wrong_if (not scopes.now.has_object && not is_static) rule.NotStatic span) }
{
    wrong_if(
        notes,
        !scopes.has_object && !is_static,
        Rule::NotStatic,
        span,
    )
}

fn may_assign(scopes: &Scopes<'_>, through_this: bool, field: &Field) -> bool
    ensures { result ≡ spec.may_assign scopes.now.in_constructor scopes.now.class through_this field.now }
{
    !field.is_final
        || (!field.is_static
            && through_this
            && scopes.in_constructor
            && field.class == scopes.class)
}

/// RULE final.assigned, for a field or a constant
pub fn final_assigned(
    scopes: &Scopes<'_>,
    notes: &mut List<Note>,
    assigned: bool,
    through_this: bool,
    field: &Field,
    span: Span,
) -> Result<(), AllocError>
    ensures { OnOk result (notes.new ≡ notes.old ++ spec.final_assigned scopes.now.in_constructor scopes.now.class assigned through_this field.now span) }
{
    let broken = assigned && !may_assign(scopes, through_this, field);
    wrong_if(notes, broken, Rule::FinalAssigned, span)
}
