//! The head of a method or constructor: its annotations, its result and its parameters (JLS 8.4, 8.8).

ghost use Rattle.std.specs.Prelude.{◌≡◌, ◌++◌, ◌<◌, ◌^◌, length, IfOk, OnOk};
ghost use Rattle.ix_meaning.specs.Annotated as annotated;
ghost use Rattle.ix_meaning.specs.Source as source;
ghost use Rattle.ix_meaning.specs.Types as types;
ghost use Rattle.ix_expression_types.specs.Here.{here};
ghost use Rattle.ix_names.specs.Heads as parts;

use crate::params::note_params;
use ix_annot::{Claims, Found, Names, Naming, Target};
use ix_class_members::{
    Declaration, Marks, Part, World, distinct_posts, gathered, given, variable,
};
use ix_core::{Base, Claim, Name, Type_};
use ix_expression_types::{InAnnotation, Scopes, note_declared};
use ix_meaning::{Note, Signature};
use ix_text::List;
use ix_tree::{Annot, MethodDecl, TypeTree};
use std::alloc::{AllocError, Global};

/// The same names for an annotation on a method or constructor.
#[derive(Drop)]
struct OnCallable<'a, N: Names> {
    names: &'a N,
    target: Target,
}

impl<N: Names> Names for OnCallable<'_, N> {
    ghost names = { λ place. annotated.aimed (N.names place.names.now) place.target };

    fn found(&self, naming: &Naming) -> Option<Found> {
        self.names.found(naming)
    }

    fn target(&self) -> Target {
        self.target
    }

    fn own(&self) -> Option<Name> {
        self.names.own()
    }
}

fn is_boolean(ty: &Option<Type_>) -> bool
    ensures { result ≡ types.is_boolean ty.now }
{
    matches!(ty, Some(Type_::Plain(Base::Bool)))
}

/// What an annotation on a method or constructor stands on.
fn target(m: &Signature) -> Target
    ensures { result ≡ source.method_target m.now }
{
    if m.constructor {
        return Target::Constructor;
    }
    if is_boolean(&m.result) {
        return Target::BooleanMethod;
    }
    Target::Method
}

fn part(constructor: bool) -> Part
    ensures { result ≡ parts.part constructor }
{
    if constructor {
        return Part::All;
    }
    Part::OfMethod
}

/// Notes the annotations that speak of the method or constructor, and answers what they say.
fn method_given<'p>(
    alloc: Global,
    world: &'p World,
    scopes: &'p Scopes<'_>,
    notes: &mut List<Note>,
    m: &Signature,
    annots: &[Annot],
) -> Result<Marks, AllocError>
    ensures { record {
      effect_free : IfOk result (λ marks. marks.effect_free ≡ (parts.method_given (here world.now scopes.now) m.now annots.now).effect_free);
      posts : IfOk result (λ marks. marks.posts ≡ (parts.method_given (here world.now scopes.now) m.now annots.now).posts);
      notes : OnOk result (notes.new ≡ notes.old ++ (parts.method_given (here world.now scopes.now) m.now annots.now).notes);
    } }
{
    let names = InAnnotation {
        world,
        scopes,
        own: None,
        own_local: None,
    };
    let names = OnCallable {
        names: &names,
        target: target(m),
    };
    let annots = gathered(alloc, part(m.constructor), annots)?;
    let mut claims = List::new(alloc);
    given(alloc, notes, &mut claims, &names, annots.as_slice())
}

/// Notes the annotations that speak of the result, and answers the claims on it.
fn result_of<'p>(
    alloc: Global,
    world: &'p World,
    scopes: &'p Scopes<'_>,
    notes: &mut List<Note>,
    annots: &[Annot],
    ty: &Option<TypeTree>,
) -> Result<List<Claim>, AllocError>
    ensures { record {
      claims : IfOk result (λ claims. claims ≡ (parts.result_of (here world.now scopes.now) annots.now ty.now).claims);
      notes : OnOk result (notes.new ≡ notes.old ++ (parts.result_of (here world.now scopes.now) annots.now ty.now).notes);
    } }
{
    let names = InAnnotation {
        world,
        scopes,
        own: None,
        own_local: None,
    };
    let before = gathered(alloc, Part::OfResult, annots)?;
    match ty {
        None => {
            let mut claims = List::new(alloc);
            given(alloc, notes, &mut claims, &names, before.as_slice()).and(Ok(List::new(alloc)))
        }
        Some(ty) => {
            let behind = gathered(alloc, Part::All, ty.annots.as_slice())?;
            let Declaration { ty: _, claims } = variable(
                alloc,
                &world.table,
                notes,
                &names,
                before.as_slice(),
                behind.as_slice(),
                ty,
            )?;
            Ok(claims)
        }
    }
}

fn result_given(
    alloc: Global,
    world: &World,
    scopes: &Scopes<'_>,
    notes: &mut List<Note>,
    m: &Signature,
    decl: &MethodDecl,
) -> Result<List<Claim>, AllocError>
    ensures { record {
      claims : IfOk result (λ claims. claims ≡ (parts.result_given (here world.now scopes.now) m.now decl.now).claims);
      notes : OnOk result (notes.new ≡ notes.old ++ (parts.result_given (here world.now scopes.now) m.now decl.now).notes);
    } }
{
    if m.constructor {
        return Ok(List::new(alloc));
    }
    let annots = decl.mods.annots.as_slice();
    result_of(alloc, world, scopes, notes, annots, &decl.result)
}

/// What a method with these claims on its result is declared with.
fn marked(alloc: Global, list: List<Claim>, marks: &Marks) -> Result<Claims, AllocError>
    ensures { record {
      list : IfOk result (λ claims. claims.list ≡ list);
      effect_free : IfOk result (λ claims. claims.effect_free ≡ marks.now.effect_free);
      posts : IfOk result (λ claims. claims.posts ≡ annotated.distinct_posts marks.now.posts);
    } }
{
    let posts = distinct_posts(alloc, marks.posts.as_slice())?;
    Ok(Claims {
        list,
        effect_free: marks.effect_free,
        posts,
    })
}

/// Notes the annotations, the result and the parameters.
pub fn head(
    alloc: Global,
    world: &World,
    scopes: &Scopes<'_>,
    notes: &mut List<Note>,
    m: &Signature,
    decl: &MethodDecl,
) -> Result<(), AllocError>
    requires { length decl.now.params < 2 ^ 32 }
    ensures { OnOk result (notes.new ≡ notes.old ++ parts.head_notes (here world.now scopes.now) m.now decl.now) }
{
    let claims = result_given(alloc, world, scopes, notes, m, decl)?;
    let annots = decl.mods.annots.as_slice();
    let marks = method_given(alloc, world, scopes, notes, m, annots)?;
    let claims = marked(alloc, claims, &marks)?;
    note_declared(alloc, notes, decl.name.span, &m.result, claims)?;
    note_params(alloc, world, scopes, notes, decl.params.as_slice())
}
