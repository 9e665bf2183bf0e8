//! A type as it is written.

ghost use Rattle.std.specs.Prelude.{◌≡◌, ◌++◌, [], IfOk, OnOk};
ghost use Rattle.std.specs.HashMap.{get_by_text};
ghost use Rattle.ix_meaning.specs.Annotated as spec;
ghost use Rattle.ix_meaning.specs.Types.{shaped};
ghost use Rattle.ix_class_members.specs.ClassTypes.{class_type};

use indexmap::IndexMap;
use ix_annot::Target;
use ix_core::{Base, Claim, Type_};
use ix_meaning::{Meaning, NameError, Note, Rule};
use ix_text::{List, Span};
use ix_tree::{BaseTree, TypeTree};
use std::alloc::AllocError;

/// What an annotation before the type stands on.
pub fn target_before(ty: &TypeTree) -> Target
    ensures { result ≡ spec.target_before ty.now }
{
    match ty.base {
        BaseTree::Int if ty.depth == 0 => Target::Int,
        BaseTree::Int => Target::Element,
        _ => Target::Other,
    }
}

fn shaped(base: Base, depth: u32, element: List<Claim>) -> Type_
    ensures { result ≡ shaped base depth element }
{
    if depth == 0 {
        Type_::Plain(base)
    } else {
        Type_::Array {
            base,
            depth,
            element,
        }
    }
}

fn class_type(class: Option<u32>, depth: u32, element: List<Claim>) -> Option<Type_>
    ensures { result ≡ class_type class depth element }
{
    match class {
        None => None,
        Some(class) => Some(shaped(Base::Class(class), depth, element)),
    }
}

/// The type, with these claims on its elements; none where its class is unknown.
#[tactic(auto, using(crate::proofs::ClassUses::class_use_type))]
pub fn written_type(
    classes: &IndexMap<String, u32>,
    ty: &TypeTree,
    element: List<Claim>,
) -> Option<Type_>
    ensures { result ≡ (spec.written (get_by_text classes.now) ty.now element).ty }
{
    match &ty.base {
        BaseTree::Int => Some(shaped(Base::Int, ty.depth, element)),
        BaseTree::Boolean => Some(shaped(Base::Bool, ty.depth, element)),
        BaseTree::Named(name) => {
            let class = classes.get(name.text.as_str()).copied();
            class_type(class, ty.depth, element)
        }
    }
}

/// Notes what a class's name means, or RULE unknown.name.
fn note_class(notes: &mut List<Note>, class: Option<u32>, span: Span) -> Result<(), AllocError>
    ensures { OnOk result (notes.new ≡ notes.old ++ (spec.class_use class 0 [] span).notes) }
{
    match class {
        Some(class) => notes
            .push(Note::Use(span, Meaning::ClassNamed(class)))
            .map_err(AllocError::from),
        None => {
            let rule = Rule::UnknownName;
            notes
                .push(Note::Wrong(NameError { rule, span }))
                .map_err(AllocError::from)
        }
    }
}

/// Notes the class that the type names, or RULE unknown.name.
pub fn note_class_use(
    classes: &IndexMap<String, u32>,
    notes: &mut List<Note>,
    ty: &TypeTree,
) -> Result<(), AllocError>
    ensures { OnOk result (notes.new ≡ notes.old ++ (spec.written (get_by_text classes.now) ty.now []).notes) }
{
    match &ty.base {
        BaseTree::Named(name) => {
            note_class(notes, classes.get(name.text.as_str()).copied(), name.span)
        }
        _ => Ok(()),
    }
}
