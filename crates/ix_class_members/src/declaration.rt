//! A declaration: its type and its claims.

ghost use Rattle.std.specs.Prelude.{◌≡◌, ◌++◌, map, IfOk, OnOk};
ghost use Rattle.std.specs.HashMap.{get_by_text};
ghost use Rattle.ix_meaning.specs.Annotated as spec;
ghost use Rattle.ix_meaning.specs.Values.{created_in, created_target};
ghost use Rattle.ix_class_members.specs.Parts.{behind_base};

use crate::claims::{Nowhere, distinct, given};
use crate::part::{Part, gathered};
use crate::types::{note_class_use, target_before, written_type};
use indexmap::IndexMap;
use ix_annot::{Found, Names, Naming, Target};
use ix_core::{Claim, Name, Type_};
use ix_meaning::Note;
use ix_text::List;
use ix_tree::{Annot, BaseTree, TypeTree};
use std::alloc::{AllocError, Global};

/// What a declaration says.
#[derive(Drop)]
pub struct Declaration {
    /// None where the type's class is unknown.
    pub ty: Option<Type_>,
    /// Its own claims, each once.
    pub claims: List<Claim>,
}

/// The same names for an annotation on something else.
#[derive(Drop)]
struct Aimed<'a, N: Names> {
    names: &'a N,
    target: Target,
}

impl<N: Names> Names for Aimed<'_, N> {
    ghost use Rattle.ix_meaning.specs.Annotated as spec;

    ghost names = { λ place. spec.aimed (N.names place.names.now) place.target };

    fn found(&self, naming: &Naming) -> Option<Found> {
        self.names.found(naming)
    }

    fn target(&self) -> Target {
        self.target
    }

    fn own(&self) -> Option<Name> {
        self.names.own()
    }
}

fn is_element(target: Target) -> bool
    ensures { result ≡ spec.is_element target }
{
    matches!(target, Target::Element)
}

/// The claims on the innermost ints of an array, where the annotations before its type stand on these.
pub fn element_claims(
    alloc: Global,
    first: Target,
    before: &[&Annot],
) -> Result<List<Claim>, AllocError>
    ensures { IfOk result (λ claims. claims ≡ spec.element_claims first (map (λ annot. annot.now) before.now)) }
{
    let mut claims = List::new(alloc);
    if !is_element(first) {
        return Ok(claims);
    }
    let mut notes = List::new(alloc);
    let nowhere = Nowhere { target: first };
    given(alloc, &mut notes, &mut claims, &nowhere, before).and(distinct(alloc, claims.as_slice()))
}

/// The claims of the annotations before a type; those on elements are no claims of the declaration itself.
fn claims_before<N: Names>(
    alloc: Global,
    notes: &mut List<Note>,
    names: &N,
    first: Target,
    before: &[&Annot],
) -> Result<List<Claim>, AllocError>
    ensures { record {
      claims : IfOk result (λ claims. claims ≡ spec.unless (spec.is_element first) (spec.given (spec.aimed (N.names names.now) first) (map (λ annot. annot.now) before.now)).claims);
      notes : OnOk result (notes.new ≡ notes.old ++ (spec.given (spec.aimed (N.names names.now) first) (map (λ annot. annot.now) before.now)).notes);
    } }
{
    let mut claims = List::new(alloc);
    let aimed = Aimed {
        names,
        target: first,
    };
    given(alloc, notes, &mut claims, &aimed, before)?;
    if is_element(first) {
        return Ok(List::new(alloc));
    }
    Ok(claims)
}

/// What a declaration says. `first` is what an annotation before its type stands on, and `second` what one behind its base does.
fn declared_on<N: Names>(
    alloc: Global,
    classes: &IndexMap<String, u32>,
    notes: &mut List<Note>,
    names: &N,
    first: Target,
    second: Target,
    before: &[&Annot],
    behind: &[&Annot],
    ty: &TypeTree,
) -> Result<Declaration, AllocError>
    ensures { record {
      claims : IfOk result (λ d. d.claims ≡ (spec.declaration (get_by_text classes.now) (N.names names.now) first second (map (λ annot. annot.now) before.now) (behind_base (map (λ annot. annot.now) behind.now) ty.now)).claims);
      notes : OnOk result (notes.new ≡ notes.old ++ (spec.declaration (get_by_text classes.now) (N.names names.now) first second (map (λ annot. annot.now) before.now) (behind_base (map (λ annot. annot.now) behind.now) ty.now)).notes);
      ty : IfOk result (λ d. d.ty ≡ (spec.declaration (get_by_text classes.now) (N.names names.now) first second (map (λ annot. annot.now) before.now) (behind_base (map (λ annot. annot.now) behind.now) ty.now)).ty);
    } }
{
    note_class_use(classes, notes, ty)?;
    let mut claims = claims_before(alloc, notes, names, first, before)?;
    let aimed = Aimed {
        names,
        target: second,
    };
    given(alloc, notes, &mut claims, &aimed, behind)?;
    let claims = distinct(alloc, claims.as_slice())?;
    let element = element_claims(alloc, first, before)?;
    let ty = written_type(classes, ty, element);
    Ok(Declaration { ty, claims })
}

/// What the declaration of a local, a parameter, an instance field or a result says.
pub fn variable<N: Names>(
    alloc: Global,
    classes: &IndexMap<String, u32>,
    notes: &mut List<Note>,
    names: &N,
    before: &[&Annot],
    behind: &[&Annot],
    ty: &TypeTree,
) -> Result<Declaration, AllocError>
    ensures { record {
      claims : IfOk result (λ d. d.claims ≡ (spec.variable (get_by_text classes.now) (N.names names.now) (map (λ annot. annot.now) before.now) (behind_base (map (λ annot. annot.now) behind.now) ty.now)).claims);
      notes : OnOk result (notes.new ≡ notes.old ++ (spec.variable (get_by_text classes.now) (N.names names.now) (map (λ annot. annot.now) before.now) (behind_base (map (λ annot. annot.now) behind.now) ty.now)).notes);
      ty : IfOk result (λ d. d.ty ≡ (spec.variable (get_by_text classes.now) (N.names names.now) (map (λ annot. annot.now) before.now) (behind_base (map (λ annot. annot.now) behind.now) ty.now)).ty);
    } }
{
    let first = target_before(ty);
    declared_on(
        alloc,
        classes,
        notes,
        names,
        first,
        Target::Array,
        before,
        behind,
        ty,
    )
}

/// What the declaration of a static field says, on which no annotation may stand.
pub fn static_field(
    alloc: Global,
    classes: &IndexMap<String, u32>,
    notes: &mut List<Note>,
    before: &[&Annot],
    behind: &[&Annot],
    ty: &TypeTree,
) -> Result<Declaration, AllocError>
    ensures { record {
      claims : IfOk result (λ d. d.claims ≡ (spec.static_field (get_by_text classes.now) (map (λ annot. annot.now) before.now) (behind_base (map (λ annot. annot.now) behind.now) ty.now)).claims);
      notes : OnOk result (notes.new ≡ notes.old ++ (spec.static_field (get_by_text classes.now) (map (λ annot. annot.now) before.now) (behind_base (map (λ annot. annot.now) behind.now) ty.now)).notes);
      ty : IfOk result (λ d. d.ty ≡ (spec.static_field (get_by_text classes.now) (map (λ annot. annot.now) before.now) (behind_base (map (λ annot. annot.now) behind.now) ty.now)).ty);
    } }
{
    let other = Target::Other;
    let nowhere = Nowhere { target: other };
    declared_on(
        alloc, classes, notes, &nowhere, other, other, before, behind, ty,
    )
}

/// What an annotation of the creation of an array stands on.
fn created_target(ty: &TypeTree) -> Target
    ensures { result ≡ created_target ty.now }
{
    match ty.base {
        BaseTree::Int => Target::Element,
        _ => Target::Other,
    }
}

/// The type of an array that is created (JLS 15.10), with the claims on its elements.
pub fn created(
    alloc: Global,
    classes: &IndexMap<String, u32>,
    notes: &mut List<Note>,
    ty: &TypeTree,
) -> Result<Option<Type_>, AllocError>
    ensures { record {
      notes : OnOk result (notes.new ≡ notes.old ++ (created_in (get_by_text classes.now) ty.now).notes);
      ty : IfOk result (λ t. t ≡ (created_in (get_by_text classes.now) ty.now).ty);
    } }
{
    note_class_use(classes, notes, ty)?;
    let mut claims = List::new(alloc);
    let nowhere = Nowhere {
        target: created_target(ty),
    };
    let annots = gathered(alloc, Part::All, ty.annots.as_slice())?;
    given(alloc, notes, &mut claims, &nowhere, annots.as_slice())?;
    let element = distinct(alloc, claims.as_slice())?;
    Ok(written_type(classes, ty, element))
}
